// The three fields that the server looks at: whether each was seen, and where its value stands.
ghost use Rattle.std.specs.Prelude.{◌≡◌, ◌&&◌, ◌+◌, ◌≤◌, length};
ghost use Rattle.response.specs.Head.{field_in};
ghost use Rattle.response.specs.Seen.{noted_of, seen_with, see_of, not_twice, mark_filled, is_once};

use http_head::fields::field_line;
use octets::compare::same_letters;
use octets::kinds::Kind;
use octets::span::Span;

// What is known of the fields with a name: there is none, there is one whose value stands at a place, or there are more.
#[derive(Clone, Copy, Debug, PartialEq, Eq)]
pub enum Mark {
    Absent,
    Once(Span),
    Twice,
}

impl Mark {
    // One field more, which the mark is to tell if its name is the wanted one.
    fn noted(self, name: &[u8], wanted: &[u8], value: Span) -> Mark
        ensures { result ≡ noted_of wanted.now self name.now value }
    {
        if !same_letters(name, wanted) {
            return self;
        }
        match self {
            Mark::Absent => Mark::Once(value),
            Mark::Once(_) | Mark::Twice => Mark::Twice,
        }
    }

    // Whether it tells one field or none.
    fn not_twice(self) -> bool
        ensures { result ≡ not_twice self }
    {
        !matches!(self, Mark::Twice)
    }

    // Whether a value that is marked is not empty.
    pub fn is_filled(self) -> bool
        ensures { result ≡ mark_filled self }
    {
        !matches!(self, Mark::Once(Span { len: 0, .. }))
    }

    // Whether it tells one field.
    pub fn is_once(self) -> bool
        ensures { result ≡ is_once self }
    {
        matches!(self, Mark::Once(_))
    }
}

// The marks of the three.
#[derive(Clone, Copy, Debug, PartialEq, Eq)]
pub struct Seen {
    pub content: Mark,
    pub location: Mark,
    pub status: Mark,
}

impl Seen {
    // One field more.
    fn see(self, name: &[u8], value: Span) -> Seen
        ensures { result ≡ see_of self name.now value }
    {
        Seen {
            content: self.content.noted(name, b"content-type", value),
            location: self.location.noted(name, b"location", value),
            status: self.status.noted(name, b"status", value),
        }
    }

    // Whether each of the three was seen at most once.
    pub fn each_once(self) -> bool
        ensures { result ≡ not_twice self.content && not_twice self.location && not_twice self.status }
    {
        self.content.not_twice() && self.location.not_twice() && self.status.not_twice()
    }
}

// The field of a line that stands at a place, seen after others.
pub fn line_step(line: &[u8], at: usize, seen: Seen) -> Option<Seen>
    requires { at + length line.now ≤ 8192 }
    ensures { result ≡ seen_with seen (field_in (record { start = at; bytes = line.now })) }
{
    let field = field_line(Kind::Token, line)?;
    let value = Span {
        start: at + field.value.start,
        len: field.value.len,
    };
    Some(seen.see(field.name.of(line), value))
}
