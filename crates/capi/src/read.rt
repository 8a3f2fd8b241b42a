// The reader of SCGI requests.
ghost use Rattle.capi.specs.Answer.{Answered};
ghost use Rattle.capi.specs.Read.{read_gives};

use crate::answer::{give, refused};
use scgi::read::read;

// The request at the start of the bytes. Gives block start, block length, body start, body length, bytes used.
pub fn oy_scgi_read(bytes: &[u8], answer: &mut [u64]) -> u64
    ensures { Answered (read_gives bytes.now) answer.old answer.new result }
{
    match read(bytes) {
        Ok(request) => give(
            answer,
            &[
                request.block.start as u64,
                request.block.len as u64,
                request.body.start as u64,
                request.body.len as u64,
                request.used as u64,
            ],
        ),
        Err(why) => refused(why),
    }
}
