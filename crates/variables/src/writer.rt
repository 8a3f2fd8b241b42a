// A writer to a lent buffer, and variables written one after the other where there is room for them.
ghost use Rattle.std.specs.Prelude.{[], ◌∷◌, ◌++◌, option_map};
ghost use Rattle.octets.specs.Decimal.{decimal};
ghost use Rattle.variables.specs.Put.{variable, optional};
ghost use Rattle.variables.specs.Writer.{Fits, Appended};

use bulk::copy::put_any;
use octets::copy::put;
use octets::decimal;

// A buffer, and the place behind what is written in it.
#[derive(Drop)]
pub struct Writer<'a> {
    pub out: &'a mut [u8],
    pub at: usize,
}

impl<'a> Writer<'a> {
    // Writes bytes whose count is known when the program is compiled.
    pub fn text(&mut self, src: &[u8])
        requires { Fits self.old src.now }
        ensures { Appended self.old self.new src.now }
    {
        self.at = put(self.out, self.at, src);
    }

    // Writes bytes whose count is not known when the program is compiled.
    pub fn bytes(&mut self, src: &[u8])
        requires { Fits self.old src.now }
        ensures { Appended self.old self.new src.now }
    {
        self.at = put_any(self.out, self.at, src);
    }

    // Writes a number in decimal.
    pub fn number(&mut self, n: u64)
        requires { Fits self.old (decimal n) }
        ensures { Appended self.old self.new (decimal n) }
    {
        self.at = decimal::write(self.out, self.at, n);
    }

    // Writes bytes whose count is not known when the program is compiled, and a NUL.
    pub fn value(&mut self, src: &[u8])
        requires { Fits self.old (src.now ++ 0 ∷ []) }
        ensures { Appended self.old self.new (src.now ++ 0 ∷ []) }
    {
        self.bytes(src);
        self.text(b"\0");
    }

    // Writes a variable: name, NUL, value, NUL.
    pub fn variable(&mut self, name: &[u8], value: &[u8])
        requires { Fits self.old (variable name.now value.now) }
        ensures { Appended self.old self.new (variable name.now value.now) }
    {
        self.text(name);
        self.text(b"\0");
        self.value(value);
    }

    // Writes a variable if it is there.
    pub fn optional(&mut self, name: &[u8], value: Option<&[u8]>)
        requires { Fits self.old (optional name.now (option_map (λ v. v.now) value)) }
        ensures { Appended self.old self.new (optional name.now (option_map (λ v. v.now) value.entry)) }
    {
        if let Some(v) = value {
            self.variable(name, v);
        }
    }
}
