// The head of a request: where its parts stand.
ghost use Rattle.std.specs.Prelude.{◌≡◌, min, ◌≤◌, length};
ghost use Rattle.http_head.specs.Lines.{line_run};
ghost use Rattle.http_head.specs.RequestLine.{version_text};
ghost use Rattle.request.specs.RequestRead.{LineRead, FieldsRead, RequestRead};

use crate::rules::check_rules;
use crate::stored::Fields;
use http_head::fields::{Field, field_lines};
use http_head::lines::line_end;
use http_head::request_line::request_line;
use octets::refusal::Refusal;
use octets::span::Span;
use targets::target::target;

// Where the parts of a request line stand, and how long the path is. Flat, with no RequestLine and TargetPlace within: the crates above
// read each number by one name.
#[derive(Clone, Copy)]
pub struct LinePlaces {
    // How long the line is.
    pub end: usize,
    // How long the method is, at the line's start.
    pub method: usize,
    pub target: Span,
    // The version's second digit. A number and no enum: `check_rules` takes it.
    pub minor: u8,
    // How long the target's path is, and how long it is decoded.
    pub path: usize,
    pub decoded: usize,
}

// The request line at the start of a head, and its target. The decoded path is written to the front of the buffer.
fn read_line(head: &[u8], path: &mut [u8]) -> Result<LinePlaces, Refusal>
    requires { min (length head.now) 4096 ≤ length path.old }
    ensures { LineRead head.now path.old path.new result }
{
    let end = line_end(head, 0);
    let line = request_line(&head[..end])?;
    let place = target(line.target.of(head), path)?;
    Ok(LinePlaces {
        end,
        method: line.method_len,
        target: line.target,
        minor: line.minor,
        path: place.path_len,
        decoded: place.decoded_len,
    })
}

// What the fields of a request say of it.
#[derive(Clone, Copy)]
pub struct FieldPlaces {
    // How many fields there are, whose places are stored. A number beside the caller's list: there is no heap.
    pub count: usize,
    // The stated body length.
    pub body: u64,
    // Where the Content-Type's value stands.
    pub content_type: Option<Span>,
}

// The fields of a head whose first line ends at from, in a request of the version 1.0 or 1.1.
fn read_fields(
    head: &[u8],
    from: usize,
    minor: u8,
    places: &mut [Field],
) -> Result<FieldPlaces, Refusal>
    requires { (from ≡ line_run head.now) × (64 ≤ length places.old) }
    ensures { FieldsRead head.now (version_text minor) places.old places.new result }
{
    let count = field_lines(head, from, places)?;
    let fields = Fields {
        head,
        places: &places[..count],
    };
    let judged = check_rules(fields, minor)?;
    Ok(FieldPlaces {
        count,
        body: judged.body,
        content_type: judged.content_type,
    })
}

// Where the parts of a request stand in its head.
#[derive(Clone, Copy)]
pub struct RequestPlaces {
    pub line: LinePlaces,
    pub fields: FieldPlaces,
}

// Reads a request's head, which is given without its CR LF CR LF. The decoded path is written to the front of path, and to places where
// each field stands in head: `Fields { head, places: &places[..fields.count] }` are the fields.
pub fn read_request(
    head: &[u8],
    places: &mut [Field],
    path: &mut [u8],
) -> Result<RequestPlaces, Refusal>
    requires { (64 ≤ length places.old) × (min (length head.now) 4096 ≤ length path.old) }
    ensures { RequestRead head.now places.old places.new path.old path.new result }
{
    let line = read_line(head, path)?;
    let fields = read_fields(head, line.end, line.minor, places)?;
    Ok(RequestPlaces { line, fields })
}
