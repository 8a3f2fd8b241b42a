// The body of a request.
ghost use Rattle.std.specs.Prelude.{◌≡◌};
ghost use Rattle.gateway.specs.Body.{length_of, body_outcome};

use octets::refusal::Refusal;

// How long the body of stated length is at the front of the bytes after a head: 9 above the limit; 1 where it is cut short.
pub fn read_body(after: &[u8], stated: u64, limit: u64) -> Result<usize, Refusal>
    ensures { body_outcome result ≡ length_of limit stated after.now }
{
    if limit < stated {
        return Err(Refusal::BodyTooLong);
    }
    let len = stated as usize;
    if after.len() < len {
        return Err(Refusal::Cut);
    }
    Ok(len)
}
