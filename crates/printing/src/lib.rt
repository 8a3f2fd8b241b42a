// What the programs that print what calls give have in common. The gate compares what they print, so a write that fails is let go.
#![tactic(auto)]

use octets::refusal::Refusal;
use std::fmt;
use std::fmt::{Display, Write};

// Prints a line.
pub fn line(rt: &impl Print, what: impl Display + Drop) {
    let _ = rt.println(what);
}

// A word, and numbers behind it.
#[derive(Clone, Copy)]
pub struct Told<const N: usize>(pub &'static str, pub [usize; N]);

impl<const N: usize> Display for Told<N> {
    fn fmt<W: Write>(&self, f: &mut fmt::Formatter<W>) -> fmt::Result {
        f.write_str(self.0)?;
        for n in &self.1 {
            write!(f, " {n}")?;
        }
        Ok(())
    }
}

// The number of a refusal.
#[derive(Clone, Copy)]
pub struct Refused(pub Refusal);

impl Display for Refused {
    fn fmt<W: Write>(&self, f: &mut fmt::Formatter<W>) -> fmt::Result {
        write!(f, "refused {}", self.0.number())
    }
}

// What a call gave, or why it refused.
#[derive(Clone, Copy)]
pub struct Answer<T>(pub Result<T, Refusal>);

impl<T: Display> Display for Answer<T> {
    fn fmt<W: Write>(&self, f: &mut fmt::Formatter<W>) -> fmt::Result {
        match &self.0 {
            Ok(what) => write!(f, "{what}"),
            Err(e) => write!(f, "{}", Refused(*e)),
        }
    }
}

// What is there, or else a word.
#[derive(Clone, Copy)]
pub struct Or<T>(pub Option<T>, pub &'static str);

impl<T: Display> Display for Or<T> {
    fn fmt<W: Write>(&self, f: &mut fmt::Formatter<W>) -> fmt::Result {
        match &self.0 {
            Some(what) => write!(f, "{what}"),
            None => f.write_str(self.1),
        }
    }
}

// Bytes, which are ASCII in the programs' cases; | for NUL.
#[derive(Clone, Copy)]
pub struct Shown<'a>(pub &'a [u8]);

impl Display for Shown<'_> {
    fn fmt<W: Write>(&self, f: &mut fmt::Formatter<W>) -> fmt::Result {
        for &b in self.0 {
            f.write_char(if b == 0 { '|' } else { char::from(b) })?;
        }
        Ok(())
    }
}
