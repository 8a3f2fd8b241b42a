// What is printed: lengths and endings on standard output, complaints on standard error.
ghost use Rattle.std.specs.Prelude.{◌+◌, ◌≤◌, length};

use octets::decimal;
use std::{fmt, io};

// Why the program ends without an ending line: a read or a write failed.
#[derive(Debug, Drop)]
pub enum Fault {
    Input(io::Error),
    Output(io::Error),
}

impl fmt::Display for Fault {
    fn fmt<W: fmt::Write>(&self, f: &mut fmt::Formatter<W>) -> fmt::Result {
        match self {
            Fault::Input(why) => write!(f, "standard input can't be read: {why}"),
            Fault::Output(why) => write!(f, "standard output can't be written: {why}"),
        }
    }
}

// There is nowhere to say that a complaint could not be written.
pub fn complain(rt: &impl Eprint, fault: Fault) {
    let _ = eprintln!(rt; "spool: {fault}");
}

pub fn usage(rt: &impl Eprint) {
    let _ = eprintln!(rt;
        "usage: spool <FILE\nSCGI requests end to end on standard input; the byte length of each, then whole, cut or refused N"
    );
}

// The lengths, a line each, by one write: 1,024 lines of at most 21 bytes. `print!` would write them in pieces that end within a line, and
// `writeln!` into the text may give an error, where these lines are proved to fit.
pub fn lengths(rt: &impl Print, numbers: &[u64]) -> io::Result<()>
    requires { length numbers.now ≤ 1024 }
{
    let mut text = [0u8; 21504];
    let mut at: usize = 0;
    for &n in numbers {
        at = put_line(&mut text, at, n);
    }
    rt.write_all(&text[..at])
}

// One number and a line end from a place on.
fn put_line(text: &mut [u8], at: usize, n: u64) -> usize
    requires { at + 21 ≤ length text.old }
    ensures { result ≤ at + 21 }
{
    let end = decimal::write(text, at, n);
    text[end] = b'\n';
    end + 1
}
