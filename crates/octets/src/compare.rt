// Equal bytes, exactly and letter case aside.
ghost use Rattle.std.specs.Prelude.{ℕ, ◌≡◌, length, map};
ghost use Rattle.octets.specs.Compare.{same_bytes, lower_of, upper_of, same_letters, Gives};

// The lower case of a letter; any other byte as it is.
#[tactic(auto, unfolding(crate::specs::Compare::lower_of))]
pub fn lower(b: u8) -> u8
    ensures { result ≡ lower_of b }
{
    b.to_ascii_lowercase()
}

// The upper case of a letter; any other byte as it is.
#[tactic(auto, unfolding(crate::specs::Compare::upper_of))]
pub fn upper(b: u8) -> u8
    ensures { result ≡ upper_of b }
{
    b.to_ascii_uppercase()
}

// Whether two slices of one length hold the same bytes, by what `key` makes of each. They are compared from the end: names that are alike
// mostly begin alike.
fn equal_by<F: Fn(u8) -> u8>(a: &[u8], b: &[u8], key: F) -> bool
    requires { F.IsAlwaysCallable key × (length a.now ≡ length b.now) }
    ensures { (f : ℕ → ℕ) → Gives (F.post key) f → result ≡ same_bytes (map f a.now) (map f b.now) }
{
    for i in (0..a.len()).rev() {
        if key(a[i]) != key(b[i]) {
            return false;
        }
    }
    true
}

// Whether two slices of one length hold the same bytes.
pub fn equal_bytes(a: &[u8], b: &[u8]) -> bool
    requires { length a.now ≡ length b.now }
    ensures { result ≡ same_bytes a.now b.now }
{
    equal_by(a, b, |x| x)
}

// Whether two slices of one length hold the same bytes, letter case aside.
pub fn equal_letters(a: &[u8], b: &[u8]) -> bool
    requires { length a.now ≡ length b.now }
    ensures { result ≡ same_letters a.now b.now }
{
    equal_by(a, b, lower)
}

// Whether two slices hold the same bytes.
pub fn same(a: &[u8], b: &[u8]) -> bool
    ensures { result ≡ same_bytes a.now b.now }
{
    a.len() == b.len() && equal_bytes(a, b)
}

// Whether two slices hold the same bytes, letter case aside.
pub fn same_letters(a: &[u8], b: &[u8]) -> bool
    ensures { result ≡ same_letters a.now b.now }
{
    a.len() == b.len() && equal_letters(a, b)
}
