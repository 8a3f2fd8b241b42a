// Script responses.
ghost use Rattle.std.specs.Prelude.{◌≡◌};
ghost use Rattle.response.specs.Table.{response_outcome};
ghost use Rattle.capi.specs.Answer.{Answered};
ghost use Rattle.capi.specs.Respond.{action_number, response_for, response_gives};

use crate::answer::{give, refused};
use editions::edition::{Edition, respond_by};
use octets::refusal::Refusal;
use response::table::{Action, Answer};

// The number of an action.
fn action_number(action: Action) -> u64
    ensures { result ≡ action_number action }
{
    action as u64
}

// The response under the edition of the number, which is read before anything else.
fn respond_for(edition: u64, method: &[u8], script: &[u8]) -> Result<Answer, Refusal>
    ensures { response_outcome result ≡ response_for edition method.now script.now }
{
    let edition = Edition::try_from(edition)?;
    respond_by(edition, method, script)
}

// What a script's whole output asks of the server under an edition, 0 RFC 3875, 1 the draft of 1996, for a request with the method. Gives
// the action, 1 serve, 2 redirect, 3 redirect with document, 4 document; the status; Location start and length; body start and length.
pub fn oy_response(edition: u64, method: &[u8], script: &[u8], answer: &mut [u64]) -> u64
    ensures { Answered (response_gives edition method.now script.now) answer.old answer.new result }
{
    match respond_for(edition, method, script) {
        Ok(response) => give(
            answer,
            &[
                action_number(response.action),
                response.status,
                response.location.start as u64,
                response.location.len as u64,
                response.body.start as u64,
                response.body.len as u64,
            ],
        ),
        Err(why) => refused(why),
    }
}
