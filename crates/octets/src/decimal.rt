// Numbers in decimal: read, counted, written.
ghost use Rattle.std.specs.Prelude.{◌≡◌, ◌+◌, ◌≤◌, length};
ghost use Rattle.octets.specs.Decimal.{number_of, decimal};
ghost use Rattle.octets.specs.Copy.{Wrote};

// The number that s says in 1 to 10 digits, zeros in front among them.
pub fn read(s: &[u8]) -> Option<u64>
    ensures { result ≡ number_of s.now }
{
    if s.is_empty() || 10 < s.len() {
        return None;
    }
    let mut v: u64 = 0;
    for &b in s {
        if !b.is_ascii_digit() {
            return None;
        }
        v = v * 10 + u64::from(b - b'0');
    }
    Some(v)
}

// How many digits n has in decimal.
pub fn digits(n: u64) -> usize
    ensures { result ≡ length (decimal n) }
{
    let mut m = n;
    let mut count: usize = 1;
    // a while: how often it runs is what is counted
    while 10 <= m {
        m /= 10;
        count += 1;
    }
    count
}

// Writes n in decimal into out from at on, and gives the place after it.
pub fn write(out: &mut [u8], at: usize, n: u64) -> usize
    requires { at + length (decimal n) ≤ length out.old }
    ensures { Wrote out.old at (decimal n) out.new result }
{
    let end = at + digits(n);
    let mut i = end - 1;
    let mut m = n;
    // a while: from the last digit to the first, while there is more than one
    while 10 <= m {
        out[i] = b'0' + (m % 10) as u8;
        m /= 10;
        i -= 1;
    }
    out[i] = b'0' + m as u8;
    end
}
