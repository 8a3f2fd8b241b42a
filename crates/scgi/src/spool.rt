// Requests that stand end to end.
ghost use Rattle.std.specs.Prelude.{◌≡◌};
ghost use Rattle.scgi.specs.Spool.{EndingBy, SpoolDone, ending_of, ending_refusal};

use crate::read::read;
use octets::refusal::Refusal;

// How requests end.
#[derive(Clone, Copy, Debug, PartialEq, Eq)]
pub enum Ending {
    Whole,
    Cut,
    Full,
    Refused(Refusal),
}

impl Ending {
    // The number of the refusal; 0, which no refusal has, where there is none.
    pub fn number(self) -> u8
        ensures { result ≡ ending_refusal (ending_of self) }
    {
        match self {
            Ending::Refused(refusal) => refusal.number(),
            Ending::Whole | Ending::Cut | Ending::Full => 0,
        }
    }
}

// How a spool ends where the reader refuses.
impl From<Refusal> for Ending {
    ghost from_gives = { EndingBy };

    fn from(refusal: Refusal) -> Self {
        match refusal {
            Refusal::Cut => Ending::Cut,
            _ => Ending::Refused(refusal),
        }
    }
}

#[derive(Clone, Copy, Debug, PartialEq, Eq)]
pub struct Spooled {
    // How many lengths are stored. A count and no list of them: there is no heap, and the list is lent.
    pub count: usize,
    // The place after the requests whose lengths are stored.
    pub next: usize,
    pub ending: Ending,
}

// Stores the byte length of each request of a spool, from the front.
pub fn spool(bytes: &[u8], lengths: &mut [u64]) -> Spooled
    ensures { SpoolDone bytes.now lengths.old lengths.new result }
{
    let mut next: usize = 0;
    let mut count: usize = 0;
    // Each step is as long as its request: no range says the places.
    while next < bytes.len() {
        let request = match read(&bytes[next..]) {
            Ok(request) => request,
            Err(refusal) => {
                return Spooled {
                    count,
                    next,
                    ending: Ending::from(refusal),
                };
            }
        };
        if lengths.len() <= count {
            return Spooled {
                count,
                next,
                ending: Ending::Full,
            };
        }
        lengths[count] = request.used as u64;
        count += 1;
        next += request.used;
    }
    Spooled {
        count,
        next,
        ending: Ending::Whole,
    }
}
