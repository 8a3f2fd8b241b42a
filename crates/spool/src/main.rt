// Reads a spool of SCGI requests from standard input, of any length, and prints the byte length of each request and how the
// spool ends. What the bytes in the window give, and whether the window goes on, is decided by scgi::window::advance.
// A read or a write that fails is said on standard error and ends the program without an ending line: the last line is an
// ending only where every byte was read and every line before it was written.
#![tactic(auto)]

mod print; // lengths, endings and complaints

ghost use Rattle.std.specs.Prelude.{◌≡◌, ◌+◌, ◌≤◌, ◌<◌, length, IfOk};

use octets::copy::move_front;
use print::Fault;
use scgi::window::{Next, advance};
use std::env::{Env, FillError};
use std::io::Read;

// One read into the window, behind the held bytes: there is room, so that no byte means no more input.
fn read_more(input: &mut impl Read, window: &mut [u8], held: usize) -> Result<usize, Fault>
    requires { held < length window.old }
    ensures { IfOk result (λ n. held + n ≤ length window.old) }
{
    input.read(&mut window[held..]).map_err(Fault::Input)
}

// Room for a largest request, of 1,064,967 bytes: a turn that asks for more leaves fewer bytes than that.
fn empty_window() -> [u8; 1114112]
    ensures { length result ≡ 1114112 }
{
    [0; 1114112]
}

// Turn by turn: what the held bytes give is printed, the rest moves to the front, and more is read where that is asked for.
// A proved loop has to end, and nothing says that the input does: the turns are counted up to a number that no run reaches.
fn read_spool(rt: &impl Print, input: &mut impl Read) -> Result<(), Fault> {
    let mut window = empty_window();
    let mut held: usize = 0;
    let mut ended = false;
    for _ in 0..u64::MAX {
        let mut lengths = [0u64; 1024];
        let t = advance(&window[..held], ended, &mut lengths);
        print::lengths(rt, &lengths[..t.count]).map_err(Fault::Output)?;
        move_front(&mut window, t.taken, held);
        held -= t.taken;
        let ending = match t.next {
            Next::More => {
                let count = read_more(input, &mut window, held)?;
                held += count;
                ended = count == 0;
                continue;
            }
            Next::Again => continue,
            Next::Whole => rt.println("whole"),
            Next::Cut => rt.println("cut"),
            Next::Refused(why) => println!(rt; "refused {}", why.number()),
        };
        return ending.map_err(Fault::Output);
    }
    Ok(())
}

// Whether there is an argument behind the program's own name.
fn has_arguments(rt: &impl Env) -> bool {
    let mut start = [0u8; 1];
    !matches!(rt.arg(1, &mut start), Err(FillError::NotPresent))
}

fn main(rt: HostRuntime) {
    if has_arguments(&rt) {
        print::usage(&rt);
        return;
    }
    if let Err(fault) = read_spool(&rt, &mut rt.stdin()) {
        print::complain(&rt, fault);
    }
}
