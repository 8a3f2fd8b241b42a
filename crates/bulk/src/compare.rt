// Equal bytes, eight compared at once.
ghost use Rattle.std.specs.Prelude.{◌≡◌, ◌+◌, ◌≤◌, length, take, drop};
ghost use Rattle.octets.specs.Compare.{same_bytes};

// Whether eight bytes stand at i. Written with no way out of the loop, so that the compiler compares them as one number.
pub fn eight_at(s: &[u8], i: usize, t: &[u8; 8]) -> bool
    requires { (length t.now ≡ 8) × (i + 8 ≤ length s.now) }
    ensures { result ≡ same_bytes (take 8 (drop i s.now)) t.now }
{
    let mut ok = true;
    for k in 0..8 {
        ok = ok & (s[i + k] == t[k]);
    }
    ok
}
