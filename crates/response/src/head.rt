// The fields of the head, and where it ends.
ghost use Rattle.std.specs.Prelude.{◌≡◌, ◌≤◌, length, take};
ghost use Rattle.response.specs.Head.{head_with, lines_at};
ghost use Rattle.response.specs.Seen.{seen_head};

use crate::fields::{Mark, Seen, line_step};
use crate::lines::bare_end;
use octets::scan::find;

// Where a head ends, how many fields it has, and what is known of the three.
#[derive(Clone, Copy, Debug, PartialEq, Eq)]
pub struct HeadPlace {
    pub end: usize,
    pub fields: usize,
    pub seen: Seen,
}

// The head in the first bytes of the output.
fn head_in(t: &[u8]) -> Option<HeadPlace>
    requires { length t.now ≤ 8192 }
    ensures { result ≡ seen_head (head_with 64 (lines_at 0 t.now)) }
{
    let mut seen = Seen {
        content: Mark::Absent,
        location: Mark::Absent,
        status: Mark::Absent,
    };
    let mut n: usize = 0;
    let mut at: usize = 0;
    // A turn goes on by a line: no `for`.
    while at < t.len() {
        let e = find(t, at, b'\n');
        if t.len() <= e {
            return None;
        }
        let l = bare_end(t, at, e);
        if l == at {
            return Some(HeadPlace {
                end: e + 1,
                fields: n,
                seen,
            });
        }
        if n == 64 {
            return None;
        }
        seen = line_step(&t[at..l], at, seen)?;
        n += 1;
        at = e + 1;
    }
    None
}

// The head of a script's whole output.
pub fn head(s: &[u8]) -> Option<HeadPlace>
    ensures { result ≡ seen_head (head_with 64 (lines_at 0 (take 8192 s.now))) }
{
    let limit = s.len().min(8192);
    head_in(&s[..limit])
}
