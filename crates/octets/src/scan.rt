// Where a run of bytes ends, and where a byte first stands.
ghost use Rattle.std.specs.Prelude.{ℕ, Bool, ◌≡◌, ◌+◌, ◌≤◌, length, drop};
ghost use Rattle.octets.specs.Kinds.{rule};
ghost use Rattle.octets.specs.Scan.{run, other, Tests};

use crate::kinds::{Kind, is_kind};

// The end of the bytes from a place on that pass a test. Four bytes are tested in a turn, for speed: a while, since it goes on by four.
pub fn end_of<F: Fn(u8) -> bool>(s: &[u8], from: usize, passes: F) -> usize
    requires { F.IsAlwaysCallable passes × (from ≤ length s.now) }
    ensures { (p : ℕ → Bool) → Tests (F.post passes) p → result ≡ from + run p (drop from s.now) }
{
    let mut i = from;
    while 4 <= s.len() - i {
        for k in 0..4 {
            if !passes(s[i + k]) {
                return i + k;
            }
        }
        i += 4;
    }
    for k in i..s.len() {
        if !passes(s[k]) {
            return k;
        }
    }
    s.len()
}

// The end of the run of bytes of the kind that begins at from.
pub fn run_end(kind: Kind, s: &[u8], from: usize) -> usize
    requires { from ≤ length s.now }
    ensures { result ≡ from + run (rule kind) (drop from s.now) }
{
    end_of(s, from, |b| is_kind(kind, b))
}

// The first place of b in s at or after from, or the length of s.
pub fn find(s: &[u8], from: usize, b: u8) -> usize
    requires { from ≤ length s.now }
    ensures { result ≡ from + run (other b) (drop from s.now) }
{
    end_of(s, from, |x| x != b)
}
