// Where a run of bytes ends, sixteen bytes tested at once.
ghost use Rattle.std.specs.Prelude.{ℕ, Bool, ◌≡◌, ◌+◌, ◌≤◌, length, take, drop};
ghost use Rattle.octets.specs.Kinds.{is_value};
ghost use Rattle.octets.specs.Scan.{run, all_of, other, Tests};

use memchr::memchr;
use octets::kinds::Kind;
use octets::scan::{find, run_end};

// Whether each of the sixteen bytes from i on passes a test. The loop has no way out, so that the compiler tests them at once.
fn sixteen_pass<F: Fn(u8) -> bool>(s: &[u8], i: usize, passes: F) -> bool
    requires { F.IsAlwaysCallable passes × (i + 16 ≤ length s.now) }
    ensures { (p : ℕ → Bool) → Tests (F.post passes) p → result ≡ all_of p (take 16 (drop i s.now)) }
{
    let mut good = true;
    for k in 0..16 {
        good = good & passes(s[i + k]);
    }
    good
}

// A place up to which the bytes from a place on pass a test; sixteen are tested at once. A while, since it goes on by sixteen.
fn skip<F: Fn(u8) -> bool>(s: &[u8], from: usize, passes: F) -> usize
    requires { F.IsAlwaysCallable passes × (from ≤ length s.now) }
    ensures within { result ≤ length s.now }
    ensures passed { (p : ℕ → Bool) → Tests (F.post passes) p → from + run p (drop from s.now) ≡ result + run p (drop result s.now) }
{
    let mut i = from;
    while 16 <= s.len() - i && sixteen_pass(s, i, &passes) {
        i += 16;
    }
    i
}

// Whether b is a byte of a value. Written without a branch, so that the compiler tests sixteen bytes at once.
fn is_value(b: u8) -> bool
    ensures { result ≡ is_value b }
{
    ((32 <= b) | (b == 9)) & (b != 127)
}

// The end of the run of value bytes that begins at from.
pub fn value_end(s: &[u8], from: usize) -> usize
    requires { from ≤ length s.now }
    ensures { result ≡ from + run is_value (drop from s.now) }
{
    run_end(Kind::Value, s, skip(s, from, is_value))
}

// The first place of b at or after from, or the length of s. For bytes that are far off; `find_beyond` and `find_soon` for nearer ones.
pub fn find_far(s: &[u8], from: usize, b: u8) -> usize
    requires { from ≤ length s.now }
    ensures { result ≡ from + run (other b) (drop from s.now) }
{
    match memchr(b, &s[from..]) {
        Some(k) => from + k,
        None => s.len(),
    }
}

// The same for a byte that may be some dozens of bytes off: of 64 bytes sixteen are tested at once, and what is behind them is left to
// `find_far`, which gains nothing where the byte is nearer. Not inlined, so that its callers, which rarely come here, stay small.
#[inline(never)]
pub fn find_beyond(s: &[u8], from: usize, b: u8) -> usize
    requires { from ≤ length s.now }
    ensures { result ≡ from + run (other b) (drop from s.now) }
{
    let mut i = from;
    for _ in 0..4 {
        if s.len() - i < 16 || !sixteen_pass(s, i, |x| x != b) {
            return find(s, i, b);
        }
        i += 16;
    }
    find_far(s, i, b)
}

// The same for a byte that may be near: of sixteen bytes by `find`, and then by sixteen at once. `find_far` takes three times as long as
// `find` where the byte is 3 places off, and as long as it at 14.
pub fn find_soon(s: &[u8], from: usize, b: u8) -> usize
    requires { from ≤ length s.now }
    ensures { result ≡ from + run (other b) (drop from s.now) }
{
    if s.len() - from < 16 {
        return find(s, from, b);
    }
    let k = find(&s[from..from + 16], 0, b);
    if k < 16 {
        return from + k;
    }
    find_beyond(s, from + 16, b)
}
