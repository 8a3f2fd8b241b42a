// Where a line ends.
ghost use Rattle.std.specs.Prelude.{◌≡◌, ◌+◌, ◌≤◌, ◌<◌, eqb, length, drop};
ghost use Rattle.http_head.specs.Lines.{ends_line, line_run};

use bulk::scan::{find_beyond, find_far};

// Whether CR LF stands at i.
fn ends_line(s: &[u8], i: usize) -> bool
    requires { i < length s.now }
    ensures { result ≡ ends_line (drop i s.now) }
{
    s[i..].starts_with(b"\r\n")
}

// Whether a line ends at i, by CR LF or with s.
pub(crate) fn is_line_end(s: &[u8], i: usize) -> bool
    ensures { result ≡ eqb (line_run (drop i s.now)) 0 }
{
    s.len() <= i || ends_line(s, i)
}

// The first CR LF of s at or after from, or the length of s. Goes from CR to CR, for speed; behind one that ends no line the next may be
// near.
pub fn line_end(s: &[u8], from: usize) -> usize
    requires { from ≤ length s.now }
    ensures { result ≡ from + line_run (drop from s.now) }
{
    let mut i = find_far(s, from, b'\r');
    // The steps vary: no `for`.
    while i < s.len() {
        if ends_line(s, i) {
            return i;
        }
        i = find_beyond(s, i + 1, b'\r');
    }
    i
}
