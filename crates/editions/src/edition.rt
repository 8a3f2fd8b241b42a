// The call: edition, method and a script's whole output in, the action out.
ghost use Rattle.std.specs.Prelude.{◌≡◌, Some};
ghost use Rattle.octets.specs.Text.{bytes};
ghost use Rattle.octets.specs.declared.refusal.Refusal.TheVariants.{Lent};
ghost use Rattle.response.specs.Table.{has_location, response_outcome};
ghost use Rattle.editions.specs.Edition.{may_redirect, allowed, response_by, Names};

use octets::compare::same;
use octets::refusal::Refusal;
use response::respond::respond;
use response::table::{Action, Answer};
use std::error::Error;
use std::fmt;

// The editions, in the order of their numbers in C programs, from 0 on.
#[derive(Clone, Copy, Debug, PartialEq, Eq)]
pub enum Edition {
    // RFC 3875 of 2004.
    Rfc,
    // The draft of 1996.
    Draft,
}

// A number that no edition has.
#[derive(Clone, Copy, Debug, PartialEq, Eq)]
pub struct UnknownEdition;

impl TryFrom<u64> for Edition {
    type Error = UnknownEdition;

    ghost try_from_gives = { Names };

    fn try_from(number: u64) -> Result<Self, UnknownEdition> {
        match number {
            0 => Ok(Edition::Rfc),
            1 => Ok(Edition::Draft),
            _ => Err(UnknownEdition),
        }
    }
}

impl fmt::Display for UnknownEdition {
    ghost output = { λ _. Some (bytes "no edition has the number") };

    fn fmt<W: fmt::Write>(&self, f: &mut fmt::Formatter<W>) -> fmt::Result {
        f.write_str("no edition has the number")
    }
}

impl Error for UnknownEdition {}

// "settings .. wrong": a number that names no edition is the caller's fault.
impl From<UnknownEdition> for Refusal {
    ghost from_gives = { λ _ r. r ≡ Lent };

    fn from(_: UnknownEdition) -> Self {
        Refusal::Lent
    }
}

// Whether the draft lets a script send Location for the method: GET or HEAD.
fn may_redirect(method: &[u8]) -> bool
    ensures { result ≡ may_redirect method.now }
{
    same(method, b"GET") || same(method, b"HEAD")
}

// Whether an action needs a Location: every one but that of a document.
fn has_location(action: Action) -> bool
    ensures { result ≡ has_location action }
{
    !matches!(action, Action::Document)
}

// Whether the edition lets a script ask for the action, with the method.
fn is_allowed(edition: Edition, method: &[u8], action: Action) -> bool
    ensures { result ≡ allowed edition method.now (has_location action) }
{
    matches!(edition, Edition::Rfc) || !has_location(action) || may_redirect(method)
}

// What a script's whole output asks of the server under the edition, for a request with the method.
pub fn respond_by(edition: Edition, method: &[u8], s: &[u8]) -> Result<Answer, Refusal>
    ensures { response_outcome result ≡ response_by edition method.now s.now }
{
    let answer = respond(s)?;
    if !is_allowed(edition, method, answer.action) {
        return Err(Refusal::Contradiction);
    }
    Ok(answer)
}
