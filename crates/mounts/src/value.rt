// A mount's value: its pool, and behind a `;` its limit.
ghost use Rattle.std.specs.Prelude.{◌≡◌};
ghost use Rattle.mounts.specs.Value.{value_of, value_outcome};

use octets::decimal;
use octets::scan::find;

// How long the pool is, which stands at the value's start, and how many bytes a body may have.
#[derive(Clone, Copy, Debug, PartialEq, Eq)]
pub struct Value {
    pub len: usize,
    pub limit: u64,
}

// The pool's length and the limit of a value, which is a pool, or a pool, `;` and a limit. None: an empty pool, a second `;` or a bad
// limit.
pub fn read_value(v: &[u8]) -> Option<Value>
    ensures { value_outcome result ≡ value_of v.now }
{
    let len = find(v, 0, b';');
    if len == 0 {
        return None;
    }
    if len == v.len() {
        return Some(Value {
            len,
            limit: 1048576,
        });
    }
    let Some(limit) = decimal::read(&v[len + 1..]) else {
        return None; // a second `;` is no digit
    };
    if 1048576 < limit {
        return None;
    }
    Some(Value { len, limit })
}
