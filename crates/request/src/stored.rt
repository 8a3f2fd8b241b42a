// The fields of a request, by their places in its head.
ghost use Rattle.std.specs.Prelude.{◌≡◌, ◌+◌, ◌≤◌, ◌<◌, length, get_or, take, drop};
ghost use Rattle.octets.specs.Lies.{LiesAt};
ghost use Rattle.octets.specs.Compare.{same_letters};
ghost use Rattle.http_head.specs.Fields.{field_at, nowhere, AllInside};

use http_head::fields::Field;
use octets::compare::equal_letters;
use octets::span::Span;

// Whether the name at a place is this one, letter case aside. A name of another length costs one comparison of two numbers, and none of its
// bytes is read.
pub(crate) fn is_named(head: &[u8], place: Span, name: &[u8]) -> bool
    requires { place.start + place.len ≤ length head.now }
    ensures { result ≡ same_letters (take place.len (drop place.start head.now)) name.now }
{
    place.len == name.len() && equal_letters(place.of(head), name)
}

// The fields of a request, each by its place in the head, in which all of them lie.
#[derive(Clone, Copy)]
pub struct Fields<'a> {
    pub head: &'a [u8],
    pub places: &'a [Field],
    pub ghost inside: { AllInside head.now places.now },
}

impl<'a> Fields<'a> {
    // The name of the field with number k, as that part of the head.
    pub fn name(self, k: usize) -> &'a [u8]
        requires { k < length self.places.now }
        ensures { (result.now ≡ (field_at self.entry.head.now self.entry.places.now k).name)
            × LiesAt self.entry.head.ref_ptr (get_or self.entry.places.now k nowhere).name.start result.ref_ptr }
    {
        self.places[k].name.of(self.head)
    }

    // The value of the field with number k, as that part of the head.
    pub fn value(self, k: usize) -> &'a [u8]
        requires { k < length self.places.now }
        ensures { (result.now ≡ (field_at self.entry.head.now self.entry.places.now k).value)
            × LiesAt self.entry.head.ref_ptr (get_or self.entry.places.now k nowhere).value.start result.ref_ptr }
    {
        self.places[k].value.of(self.head)
    }

    // Whether the field with number k has this name, letter case aside.
    pub fn has_name(self, k: usize, name: &[u8]) -> bool
        requires { k < length self.places.now }
        ensures { result ≡ same_letters (field_at self.entry.head.now self.entry.places.now k).name name.now }
    {
        is_named(self.head, self.places[k].name, name)
    }
}
