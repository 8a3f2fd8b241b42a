// The length digits of a netstring.
ghost use Rattle.std.specs.Prelude.{◌≡◌, ◌+◌, ◌≤◌};
ghost use Rattle.scgi.specs.Digits.{digits_outcome, digits_from};
ghost use Rattle.scgi.specs.Netstring.{length_outcome, length_of};

use octets::refusal::Refusal;

// Length digits that were read.
#[derive(Clone, Copy, Debug, PartialEq, Eq)]
pub struct Digits {
    pub count: usize,
    // The number that they say.
    pub value: usize,
    // Whether the colon came behind them. A flag, for the count and the value are there either way.
    pub colon: bool,
}

// What the bytes say after so many digits, which say the value. The first fault from the left decides.
// Not by decimal::read of octets, which has other rules: there all bytes are digits and zeros may lead; here a colon ends them, no zero
// leads, and the next run may go on with them.
pub fn read_digits(s: &[u8], count: usize, value: usize) -> Result<Digits, Refusal>
    requires { (count ≤ value + 1) × (value ≤ 16384) }
    ensures { digits_outcome result ≡ digits_from count value s.now }
{
    let mut n = count;
    let mut v = value;
    for &b in s {
        match b {
            b':' if 0 < n => {
                return Ok(Digits {
                    count: n,
                    value: v,
                    colon: true,
                });
            }
            b'0'..=b'9' if n == 0 || 0 < v => {
                v = v * 10 + usize::from(b - b'0');
                if 16384 < v {
                    return Err(Refusal::BlockTooLong);
                }
                n += 1;
            }
            _ => return Err(Refusal::LengthMalformed),
        }
    }
    Ok(Digits {
        count: n,
        value: v,
        colon: false,
    })
}

// A netstring's length, and the place after its colon.
#[derive(Clone, Copy, Debug, PartialEq, Eq)]
pub struct Length {
    pub len: usize,
    pub next: usize,
}

// The length at the start of s.
pub fn read_length(s: &[u8]) -> Result<Length, Refusal>
    ensures { length_outcome result ≡ length_of s.now }
{
    let Digits {
        count,
        value,
        colon,
    } = read_digits(s, 0, 0)?;
    if !colon {
        return Err(Refusal::Cut);
    }
    Ok(Length {
        len: value,
        next: count + 1,
    })
}
