// What a call gives to C: its numbers, stored in the lent list, or the number of its refusal.
ghost use Rattle.std.specs.Prelude.{◌≡◌};
ghost use Rattle.octets.specs.Outcome.{gives};
ghost use Rattle.octets.specs.Refusal.{number_of};
ghost use Rattle.capi.specs.Answer.{Answered};

use octets::refusal::Refusal;

// Stores the numbers at the front of the list and returns 0, or returns 21 where the list is too short for them.
pub fn give(answer: &mut [u64], numbers: &[u64]) -> u64
    ensures { Answered (gives numbers.now) answer.old answer.new result }
{
    if answer.len() < numbers.len() {
        return refused(Refusal::NoRoom);
    }
    answer[..numbers.len()].copy_from_slice(numbers);
    0
}

// The refusal's number.
pub(crate) fn refused(why: Refusal) -> u64
    ensures { result ≡ number_of why }
{
    u64::from(why.number())
}
