// Reading a spool of any length through a window.
ghost use Rattle.std.specs.Prelude.{◌≡◌};
ghost use Rattle.scgi.specs.Spool.{ending_of};
ghost use Rattle.scgi.specs.Window.{next_as, next_of, TurnDone};

use crate::spool::{Ending, spool};
use octets::refusal::Refusal;

// What comes after a turn. Not the spool's ending: a full list never ends a turn, and bytes that may go on have no ending yet.
#[derive(Clone, Copy, Debug, PartialEq, Eq)]
pub enum Next {
    // The bytes behind the taken ones, and more input behind them.
    More,
    // The bytes behind the taken ones, with an empty list.
    Again,
    Whole,
    Cut,
    Refused(Refusal),
}

#[derive(Clone, Copy, Debug, PartialEq, Eq)]
pub struct Turn {
    // How many lengths are stored. A count and no list of them: there is no heap, and the list is lent.
    pub count: usize,
    // How many bytes at the front of the window are done with.
    pub taken: usize,
    pub next: Next,
}

// What the held bytes give, where ended says that the input has no more. A flag, for there is no value beside it.
pub fn advance(held: &[u8], ended: bool, lengths: &mut [u64]) -> Turn
    ensures { TurnDone held.now ended lengths.old lengths.new result }
{
    let spooled = spool(held, lengths);
    Turn {
        count: spooled.count,
        taken: spooled.next,
        next: after(spooled.ending, ended),
    }
}

// What comes after an ending.
fn after(ending: Ending, ended: bool) -> Next
    ensures { next_as result ≡ next_of ended (ending_of ending) }
{
    match ending {
        Ending::Full => Next::Again,
        Ending::Whole if ended => Next::Whole,
        Ending::Cut if ended => Next::Cut,
        Ending::Whole | Ending::Cut => Next::More,
        Ending::Refused(refusal) => Next::Refused(refusal),
    }
}
