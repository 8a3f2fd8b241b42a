// Requests that stand end to end.
ghost use Rattle.std.specs.Prelude.{◌≡◌};
ghost use Rattle.scgi.specs.Spool.{ending_of};
ghost use Rattle.capi.specs.Spool.{ending_number, SpoolAnswered};

use crate::answer::{give, refused};
use octets::refusal::Refusal;
use scgi::spool::{Ending, spool};

// The number of an ending.
fn ending_number(ending: Ending) -> u64
    ensures { result ≡ ending_number (ending_of ending) }
{
    match ending {
        Ending::Whole => 0,
        Ending::Cut => 1,
        Ending::Refused(_) => 2,
        Ending::Full => 3,
    }
}

// Stores the byte length of each request of a spool, from the front. Gives how many are stored; the ending, 0 whole, 1 cut, 2 refused,
// 3 list full; the refusal's number or 0. An ending is no refusal of the call, so an answer that is too short is seen first.
pub fn oy_spool(bytes: &[u8], lengths: &mut [u64], answer: &mut [u64]) -> u64
    ensures { SpoolAnswered bytes.now lengths.old lengths.new answer.old answer.new result }
{
    if answer.len() < 3 {
        return refused(Refusal::NoRoom);
    }
    let spooled = spool(bytes, lengths);
    let ending = ending_number(spooled.ending);
    let refusal = u64::from(spooled.ending.number());
    give(answer, &[spooled.count as u64, ending, refusal])
}
