// The table of actions.
ghost use Rattle.std.specs.Prelude.{ℕ, ◌≤◌, ◌≡◌, Bool, Option, true, length};
ghost use Rattle.response.specs.Seen.{value_at, MarkIn};
ghost use Rattle.response.specs.Location.{filled};
ghost use Rattle.response.specs.Table.{redirecting, nowhere, local, elsewhere, script, script_of, table_of, response_outcome};

use crate::fields::Mark;
use octets::refusal::Refusal;
use octets::span::Span;

// What the server is to do, by the numbers of C programs: the rows of the table in their order.
#[derive(Clone, Copy, Debug, PartialEq, Eq)]
pub enum Action {
    Serve = 1,
    Redirect = 2,
    RedirectDocument = 3,
    Document = 4,
}

// An action, its status, and where the Location's value and the body stand. For serving a target the status is 0, and without a Location
// its place is 0, 0. None is an Option: the answer's numbers are those that the rules state.
#[derive(Clone, Copy, Debug, PartialEq, Eq)]
pub struct Answer {
    pub action: Action,
    pub status: u64,
    pub location: Span,
    pub body: Span,
}

// Whether a redirect with document can have the status.
#[tactic(auto, using(octets::proofs::Tests::tests), unfolding(crate::specs::Table::redirecting))]
fn is_redirecting(code: u64) -> bool
    ensures { result ≡ redirecting code }
{
    matches!(code, 301 | 302 | 303 | 307 | 308)
}

// No Location: whatever the number of fields. Here and below typed is whether there is a Content-Type, which is all that the table asks.
fn document(typed: bool, code: Option<u64>, body: Span) -> Result<Answer, Refusal>
    ensures { (n : ℕ) → response_outcome result ≡ table_of (script nowhere 0 0 code typed n body.start body.len) }
{
    if !typed {
        return Err(Refusal::Contradiction);
    }
    Ok(Answer {
        action: Action::Document,
        status: code.unwrap_or(200),
        location: Span { start: 0, len: 0 },
        body,
    })
}

// A local Location: whatever the status, and with Content-Type or without.
fn serve(location: Span, fields: usize, body: Span) -> Result<Answer, Refusal>
    ensures { (t : Option ℕ) (c : Bool) → response_outcome result
        ≡ table_of (script local location.start location.len t c fields body.start body.len) }
{
    if fields != 1 || body.len != 0 {
        return Err(Refusal::Contradiction);
    }
    Ok(Answer {
        action: Action::Serve,
        status: 0,
        location,
        body,
    })
}

// Another Location, with a document: whatever the number of fields.
fn redirect_document(location: Span, code: Option<u64>, body: Span) -> Result<Answer, Refusal>
    ensures { (n : ℕ) → response_outcome result
        ≡ table_of (script elsewhere location.start location.len code true n body.start body.len) }
{
    let Some(status) = code else {
        return Err(Refusal::Contradiction);
    };
    if !is_redirecting(status) {
        return Err(Refusal::Contradiction);
    }
    Ok(Answer {
        action: Action::RedirectDocument,
        status,
        location,
        body,
    })
}

// Another Location: whatever the number of fields.
fn redirect(location: Span, typed: bool, code: Option<u64>, body: Span) -> Result<Answer, Refusal>
    ensures { (n : ℕ) → response_outcome result
        ≡ table_of (script elsewhere location.start location.len code typed n body.start body.len) }
{
    if typed {
        return redirect_document(location, code, body);
    }
    if code.is_some() || body.len != 0 {
        return Err(Refusal::Contradiction);
    }
    Ok(Answer {
        action: Action::Redirect,
        status: 302,
        location,
        body,
    })
}

// The row of the table for an output whose Location is right, and whose body starts at a place. What a row is asked by is passed value by
// value, as the definition of the table has it: a struct for one call would be longer.
pub fn table_row(
    s: &[u8],
    location: Mark,
    typed: bool,
    code: Option<u64>,
    fields: usize,
    body: usize,
) -> Result<Answer, Refusal>
    requires { MarkIn s.now location × (filled (value_at s.now location) ≡ true) × (body ≤ length s.now) }
    ensures { response_outcome result ≡ table_of (script_of s.now body fields typed (value_at s.now location) code) }
{
    let rest = Span {
        start: body,
        len: s.len() - body,
    };
    let Mark::Once(place) = location else {
        return document(typed, code, rest);
    };
    if s[place.start] == b'/' {
        return serve(place, fields, rest);
    }
    redirect(place, typed, code, rest)
}
