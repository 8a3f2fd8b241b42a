// Where the head of a request ends.
ghost use Rattle.std.specs.Prelude.{◌≡◌, false, ◌+◌, ◌≤◌, ◌<◌, length, drop};
ghost use Rattle.http_head.specs.Head.{ends_head, end_from, Passed, head_outcome, head_of};

use octets::refusal::Refusal;

// Whether CR LF CR LF stands at i.
fn ends_head(s: &[u8], i: usize) -> bool
    requires { i + 3 < length s.now }
    ensures { result ≡ ends_head (drop i s.now) }
{
    s[i..].starts_with(b"\r\n\r\n")
}

// Goes on from a place by four bytes as long as the fourth of them is above CR, and so neither CR nor LF: no CR LF CR LF begins among the
// four. Sixteen bytes are passed in a turn, for speed, and fewer than sixteen left at the end are not looked at.
fn skip(s: &[u8], from: usize) -> usize
    requires { from ≤ length s.now }
    ensures { Passed s.now from result }
{
    let mut i = from;
    // A turn is sixteen bytes, or the last one: no `for`. An iterator over chunks is no plainer here: the place that comes back is a
    // number of bytes.
    while 15 < s.len() - i {
        if s[i + 3] <= b'\r' {
            return i;
        }
        if s[i + 7] <= b'\r' {
            return i + 4;
        }
        if s[i + 11] <= b'\r' {
            return i + 8;
        }
        if s[i + 15] <= b'\r' {
            return i + 12;
        }
        i += 16;
    }
    i
}

// Whether behind one of the sixteen places from i on LF and CR stand next to each other. Where they do not, no CR LF CR LF begins at one of
// the sixteen. Written with no way out of the loop, so that the compiler tests sixteen bytes at once.
fn turns(s: &[u8], i: usize) -> bool
    requires { i + 18 ≤ length s.now }
    ensures { result ≡ false → Passed s.now i (i + 16) }
{
    let mut hit = false;
    for k in 0..16 {
        hit |= (s[i + k + 1] == b'\n') & (s[i + k + 2] == b'\r');
    }
    hit
}

// Goes on from the start by thirty-two bytes as long as no CR LF CR LF begins among them; fewer than thirty-four left are not looked at.
// Both halves are looked at before the test, so that a turn has one way out, for speed.
fn leap(s: &[u8]) -> usize
    ensures { Passed s.now 0 result }
{
    let mut i: usize = 0;
    // A turn is thirty-two bytes, and looks at two more: no `for`, and no chunks.
    while 34 <= s.len() - i {
        let first = turns(s, i);
        let second = turns(s, i + 16);
        if first | second {
            return i;
        }
        i += 32;
    }
    i
}

// The end of the first CR LF CR LF. Where fewer than sixteen bytes are left, they are passed by four as in skip.
fn first_end(s: &[u8]) -> Option<usize>
    ensures { result ≡ end_from 0 s.now }
{
    let mut i = skip(s, leap(s));
    // The steps vary: no `for`.
    while 3 < s.len() - i {
        if b'\r' < s[i + 3] {
            i += 4;
            continue;
        }
        if ends_head(s, i) {
            return Some(i + 4);
        }
        i = skip(s, i + 1);
    }
    None
}

// How many bytes the head at the start of s has, with its CR LF CR LF.
pub fn head_end(s: &[u8]) -> Result<usize, Refusal>
    ensures { head_outcome result ≡ head_of s.now }
{
    if s.len() < 8192 {
        return first_end(s).ok_or(Refusal::Cut);
    }
    first_end(&s[..8192]).ok_or(Refusal::HeadTooLong)
}
