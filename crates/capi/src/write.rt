// The writer of SCGI requests.
ghost use Rattle.capi.specs.Write.{WriteAnswered};

use crate::answer::{give, refused};
use octets::refusal::Refusal;
use scgi::write::write;

// Writes the request of a block and a body to the start of out. Gives how many bytes were written.
pub fn oy_scgi_write(block: &[u8], body: &[u8], out: &mut [u8], answer: &mut [u64]) -> u64
    ensures { WriteAnswered block.now body.now out.old out.new answer.old answer.new result }
{
    if answer.is_empty() {
        // The count has no place in the answer: the writer's own refusal, which an output of no bytes does not hide, or else 21.
        return refused(write(block, body, &mut []).err().unwrap_or(Refusal::NoRoom));
    }
    match write(block, body, out) {
        Ok(count) => give(answer, &[count as u64]),
        Err(why) => refused(why),
    }
}
