// The call: a script's whole output in, the action out.
ghost use Rattle.std.specs.Prelude.{◌≡◌, ◌≤◌, length};
ghost use Rattle.response.specs.Seen.{value_at, SeenIn};
ghost use Rattle.response.specs.Table.{response_outcome};
ghost use Rattle.response.specs.Response.{judged, response_of};

use crate::head::{HeadPlace, head};
use crate::location::location_right;
use crate::status::status;
use crate::table::{Answer, table_row};
use octets::refusal::Refusal;

// What is asked of the three fields, and the table.
fn judge(s: &[u8], place: HeadPlace) -> Result<Answer, Refusal>
    requires { (place.end ≤ length s.now) × SeenIn s.now place.seen }
    ensures { response_outcome result ≡ judged s.now place.end place.fields (value_at s.now place.seen.content)
        (value_at s.now place.seen.location) (value_at s.now place.seen.status) }
{
    let HeadPlace { end, fields, seen } = place;
    // A target that is refused with 14 is 25 here: "25 for Location".
    if !seen.content.is_filled() || !location_right(s, seen.location) {
        return Err(Refusal::Contradiction);
    }
    let code = status(s, seen.status)?;
    table_row(s, seen.location, seen.content.is_once(), code, fields, end)
}

// What a script's whole output asks of the server.
pub fn respond(s: &[u8]) -> Result<Answer, Refusal>
    ensures { response_outcome result ≡ response_of s.now }
{
    let place = head(s).ok_or(Refusal::ResponseMalformed)?;
    if !place.seen.each_once() {
        return Err(Refusal::Contradiction);
    }
    judge(s, place)
}
