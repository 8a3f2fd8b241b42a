// The rules over all fields of a request.
ghost use Rattle.std.specs.Prelude.{◌≡◌};
ghost use Rattle.octets.specs.Text.{bytes};
ghost use Rattle.http_head.specs.RequestLine.{version_text};
ghost use Rattle.http_head.specs.Fields.{fields_at};
ghost use Rattle.request.specs.Named.{lowered, values_of};
ghost use Rattle.request.specs.Request.{host_right, stated_by};
ghost use Rattle.request.specs.Rules.{found_of, stated_outcome, rules_outcome, judged_of};

use crate::stored::{Fields, is_named};
use octets::decimal;
use octets::refusal::Refusal;
use octets::span::Span;

// The fields of one name. No Mark as in response: `named` is public and promises how many they are, which a Mark does not tell.
#[derive(Clone, Copy)]
pub struct Found {
    // How many they are.
    pub count: usize,
    // Where the value of the first of them stands.
    pub first: Option<Span>,
}

// Those of the fields that have the name, letter case aside.
pub fn named(fields: Fields, name: &[u8]) -> Found
    ensures { result ≡ found_of name.now fields.entry.head.now fields.entry.places.now }
{
    let mut found = Found {
        count: 0,
        first: None,
    };
    for field in fields.places {
        if is_named(fields.head, field.name, name) {
            found = Found {
                count: found.count + 1,
                first: found.first.or(Some(field.value)),
            };
        }
    }
    found
}

// Whether the fields have as many Host as the version 1.0 or 1.1 asks for.
fn host_right(fields: Fields, minor: u8) -> bool
    ensures { result ≡ host_right (version_text minor) (lowered (fields_at fields.entry.head.now fields.entry.places.now)) }
{
    let hosts = named(fields, b"host").count;
    if minor == 1 {
        return hosts == 1;
    }
    hosts <= 1
}

// The body length that the Content-Length fields state.
fn content_length(fields: Fields) -> Result<u64, Refusal>
    ensures { stated_outcome result
        ≡ stated_by (values_of (bytes "content-length") (lowered (fields_at fields.entry.head.now fields.entry.places.now))) }
{
    let lengths = named(fields, b"content-length");
    let Some(value) = lengths.first else {
        return Ok(0);
    };
    if 1 < lengths.count {
        return Err(Refusal::ContentFields);
    }
    // 17: "Content-Length or Content-Type rule"; 02 §2: "at most 10 digits: a longer one is .. 17 in HTTP".
    decimal::read(value.of(fields.head)).ok_or(Refusal::ContentFields)
}

// What the rules say of fields that obey them.
#[derive(Clone, Copy)]
pub struct Judged {
    // The stated body length.
    pub body: u64,
    // Where the Content-Type's value stands.
    pub content_type: Option<Span>,
}

// Judges the fields of a request of the version 1.0 or 1.1. Its promise holds for every minor, and docs/ names it: an enum of the two would
// ask more of its callers.
pub fn check_rules(fields: Fields, minor: u8) -> Result<Judged, Refusal>
    ensures { rules_outcome result ≡ judged_of (version_text minor) fields.entry.head.now fields.entry.places.now }
{
    if !host_right(fields, minor) {
        return Err(Refusal::Host);
    }
    let body = content_length(fields)?;
    let types = named(fields, b"content-type");
    if 1 < types.count {
        return Err(Refusal::ContentFields);
    }
    let codings = named(fields, b"transfer-encoding");
    if 0 < codings.count {
        return Err(Refusal::TransferEncoding);
    }
    Ok(Judged {
        body,
        content_type: types.first,
    })
}
