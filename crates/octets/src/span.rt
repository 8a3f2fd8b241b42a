// A part of a slice, by its place.
ghost use Rattle.std.specs.Prelude.{◌≡◌, ◌+◌, ◌≤◌, length, take, drop};
ghost use Rattle.octets.specs.Lies.{LiesAt};

#[derive(Clone, Copy, Debug, PartialEq, Eq)]
pub struct Span {
    pub start: usize,
    pub len: usize,
}

impl Span {
    // The bytes of s that stand there, as that part of s.
    pub fn of<'a>(self, s: &'a [u8]) -> &'a [u8]
        requires { self.start + self.len ≤ length s.now }
        ensures { (result.now ≡ take self.len (drop self.start s.now)) × LiesAt s.entry.ref_ptr self.start result.ref_ptr }
    {
        let start = self.start;
        &s[start..start + self.len]
    }
}
