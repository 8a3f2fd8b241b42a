// The value of Status.
ghost use Rattle.std.specs.Prelude.{◌≡◌};
ghost use Rattle.response.specs.Seen.{value_at, MarkIn};
ghost use Rattle.response.specs.Status.{three_alone, status_of, stated_in, stated_outcome};

use crate::fields::Mark;
use octets::decimal;
use octets::refusal::Refusal;

// Whether v is three bytes, alone or followed by a space and more.
fn three_alone(v: &[u8]) -> bool
    ensures { result ≡ three_alone v.now }
{
    v.len() == 3 || (3 < v.len() && v[3] == b' ')
}

// The status that a value states.
fn status_code(v: &[u8]) -> Option<u64>
    ensures { result ≡ status_of v.now }
{
    if !three_alone(v) {
        return None;
    }
    let n = decimal::read(&v[..3])?;
    if n < 200 || 599 < n {
        return None;
    }
    Some(n)
}

// The status that the output states, where Status is marked so. "Then, or 25: .. Status is three digits, alone or followed by a space
// and any reason, 200 to 599".
pub fn status(s: &[u8], m: Mark) -> Result<Option<u64>, Refusal>
    requires { MarkIn s.now m }
    ensures { stated_outcome result ≡ stated_in (value_at s.now m) }
{
    let Mark::Once(place) = m else {
        return Ok(None);
    };
    let code = status_code(place.of(s)).ok_or(Refusal::Contradiction)?;
    Ok(Some(code))
}
