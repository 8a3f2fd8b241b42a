// The reader of SCGI requests.
ghost use Rattle.std.specs.Prelude.{◌≡◌};
ghost use Rattle.scgi.specs.Read.{reading_outcome, read_of};

use crate::check::check_block;
use crate::netstring::{Length, read_length};
use octets::refusal::Refusal;
use octets::span::Span;

// Where the parts of a request stand, and how many bytes it has.
#[derive(Clone, Copy, Debug, PartialEq, Eq)]
pub struct Request {
    pub block: Span,
    pub body: Span,
    pub used: usize,
}

// The request at the start of s.
pub fn read(s: &[u8]) -> Result<Request, Refusal>
    ensures { reading_outcome result ≡ read_of s.now }
{
    let Length { len, next } = read_length(s)?;
    let comma = next + len;
    if s.len() <= comma {
        return Err(Refusal::Cut);
    }
    if s[comma] != b',' {
        return Err(Refusal::NoComma);
    }
    let block = Span { start: next, len };
    let n = check_block(block.of(s))?;
    let used = comma + 1 + n;
    if s.len() < used {
        return Err(Refusal::Cut);
    }
    Ok(Request {
        block,
        body: Span {
            start: comma + 1,
            len: n,
        },
        used,
    })
}
