// Field lines, and the places of a request's fields.
ghost use Rattle.std.specs.Prelude.{◌≡◌, ◌≤◌, length};
ghost use Rattle.octets.specs.Kinds.{is_name, rule};
ghost use Rattle.http_head.specs.Lines.{line_run};
ghost use Rattle.http_head.specs.Fields.{spans_of, place_of, Stored};

use crate::lines::is_line_end;
use bulk::scan::value_end;
use octets::kinds::Kind;
use octets::refusal::Refusal;
use octets::scan::{find, run_end};
use octets::span::Span;
use octets::trim::{blank_end, kept_len};

// Where the name and the value of a field stand: in its line, or in the head that the line is of.
#[derive(Clone, Copy, Debug, PartialEq, Eq)]
pub struct Field {
    pub name: Span,
    pub value: Span,
}

// Where the field of a line stands in it, which is given without its end; the bytes of the field's name are of the kind.
pub fn field_line(kind: Kind, line: &[u8]) -> Option<Field>
    ensures { result ≡ spans_of (rule kind) line.now }
{
    let n = find(line, 0, b':');
    if line.len() <= n || n == 0 || run_end(kind, line, 0) < n {
        return None;
    }
    let v = blank_end(line, n + 1);
    let k = kept_len(line, v);
    if run_end(Kind::Value, line, v) < v + k {
        return None;
    }
    Some(Field {
        name: Span { start: 0, len: n },
        value: Span { start: v, len: k },
    })
}

// The field of the line that begins at start, and where the line ends. In one pass: neither a colon nor a CR is a byte of a name, nor a CR
// one of a value, so that the runs of such bytes end where the name and the line do.
fn field_at(head: &[u8], start: usize) -> Option<(Field, usize)>
    requires { start ≤ length head.now }
    ensures { result ≡ place_of is_name head.now start }
{
    let colon = run_end(Kind::Name, head, start);
    if head.len() <= colon || head[colon] != b':' || colon == start {
        return None;
    }
    let end = value_end(head, colon + 1);
    if !is_line_end(head, end) {
        return None;
    }
    let value = blank_end(head, colon + 1);
    let field = Field {
        name: Span {
            start,
            len: colon - start,
        },
        value: Span {
            start: value,
            len: kept_len(&head[value..end], 0),
        },
    };
    Some((field, end))
}

// The fields of a request's head, which is given without its CR LF CR LF, and whose first line ends at from: how many they are, and in
// places where each of them stands in head.
pub fn field_lines(head: &[u8], from: usize, places: &mut [Field]) -> Result<usize, Refusal>
    requires { (from ≡ line_run head.now) × (64 ≤ length places.old) }
    ensures { Stored is_name head.now places.old places.new result }
{
    let mut end = from;
    let mut n: usize = 0;
    // A turn goes on by a line: no `for`.
    while end < head.len() {
        if n == 64 {
            return Err(Refusal::FieldLine);
        }
        let Some((field, next)) = field_at(head, end + 2) else {
            return Err(Refusal::FieldLine);
        };
        places[n] = field;
        n += 1;
        end = next;
    }
    Ok(n)
}
