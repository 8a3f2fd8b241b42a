// The kinds of a byte, told by one table of 256 numbers (kind_table.rt).
ghost use Rattle.std.specs.Prelude.{◌≡◌};
ghost use Rattle.octets.specs.Kinds.{is_blank, kind_number, rule};

use crate::kind_table::kinds_of;

// The kinds, each with its number in the table.
#[derive(Clone, Copy, Debug, PartialEq, Eq)]
pub enum Kind {
    Digit = 1,
    Hex = 2,
    Token = 4,
    Name = 8,
    Target = 16,
    Value = 32,
    Letter = 64,
    Scheme = 128,
}

impl Kind {
    // The number that says in the table that a byte has the kind.
    fn number(self) -> u8
        ensures { result ≡ kind_number self }
    {
        self as u8
    }
}

// Whether b is of the kind.
pub fn is_kind(kind: Kind, b: u8) -> bool
    ensures { result ≡ rule kind b }
{
    kinds_of(b) / kind.number() % 2 == 1
}

// Whether b is a space or a tab.
#[tactic(auto, unfolding(crate::specs::Kinds::is_blank))]
pub fn is_blank(b: u8) -> bool
    ensures { result ≡ is_blank b }
{
    b == b' ' || b == b'\t'
}
