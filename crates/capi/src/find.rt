// The value of a name in a block.
ghost use Rattle.capi.specs.Answer.{Answered};
ghost use Rattle.capi.specs.Find.{find_gives};

use crate::answer::{give, refused};
use headers::lookup::find;

// Where the value of a name stands in a block. Gives 1 there or 0 absent, start, length: the first is a number, since C has no Option.
pub fn oy_scgi_find(block: &[u8], name: &[u8], answer: &mut [u64]) -> u64
    ensures { Answered (find_gives block.now name.now) answer.old answer.new result }
{
    match find(block, name) {
        Ok(Some(place)) => give(answer, &[1, place.start as u64, place.len as u64]),
        Ok(None) => give(answer, &[0, 0, 0]),
        Err(why) => refused(why),
    }
}
