// The reader's state, by value, and what each run of bytes makes of it.
ghost use Rattle.std.specs.Prelude.{◌≡◌, ◌≤◌, ◌<◌, length, take};
ghost use Rattle.octets.specs.Refusal.{number_of};
ghost use Rattle.scgi.specs.Check.{check_block};
ghost use Rattle.socket.specs.Socket.{begun, new, faulted, Fits, answer_outcome, Fed, FedIn};
ghost use Rattle.socket.specs.Socket.{at_more, step_at_fault, step_at_end, end_of, soundly, sound_refusal};
ghost use Rattle.socket.specs.Socket.{fed_body, fed_checked, fed_block, fed_digits, feed_of};

use bulk::copy::put_any;
use octets::refusal::Refusal;
use scgi::check::check_block;
use scgi::netstring::{Digits, read_digits};

// How far the request has come: in the length digits; in the block, or before its comma; in the body; whole; refused. By number and not
// as an enum, since a C program keeps the state, which may come back with any number.
const LENGTH: usize = 0;

const BLOCK: usize = 1;

const BODY: usize = 2;

const WHOLE: usize = 3;

const REFUSED: usize = 4;

// Numbers alone, so that a C program can keep it.
#[repr(C)]
#[derive(Clone, Copy, Debug, PartialEq, Eq)]
pub struct Socket {
    pub stage: usize,
    // The refusal, where the stage says so.
    pub refusal: usize,
    // Length digits so far, and the number that they say.
    pub digits: usize,
    pub len: usize,
    // Block bytes stored so far.
    pub stored: usize,
    // The stated body length, and how many bytes of the body came.
    pub body: usize,
    pub seen: usize,
}

// A request that is whole. Its block stands at the front of the buffer.
#[derive(Clone, Copy, Debug, PartialEq, Eq)]
pub struct Request {
    pub block_len: usize,
    pub body_len: usize,
    pub used: usize,
}

// The state after a run, beside the answer and the run's counts.
#[derive(Clone, Copy, Debug, PartialEq, Eq)]
pub struct Taken {
    pub state: Socket,
    pub answer: Result<Request, Refusal>,
    // How many bytes of the run belong to the body, and how many come after the end.
    pub body: usize,
    pub after: usize,
}

impl Taken {
    // The run brought a refusal.
    fn refused(refusal: Refusal) -> Self
        ensures { Fed (step_at_fault (number_of refusal)) result }
    {
        Taken {
            state: Socket::faulted(usize::from(refusal.number())),
            answer: Err(refusal),
            body: 0,
            after: 0,
        }
    }
}

impl Socket {
    // The state after so many length digits, which say the number len.
    fn begun(digits: usize, len: usize) -> Self
        ensures { result ≡ begun digits len }
    {
        Socket {
            stage: LENGTH,
            refusal: 0,
            digits,
            len,
            stored: 0,
            body: 0,
            seen: 0,
        }
    }

    // The state before the first byte.
    pub fn fresh() -> Self
        ensures { result ≡ new }
    {
        Socket::begun(0, 0)
    }

    // The state after a refusal.
    fn faulted(refusal: usize) -> Self
        ensures { result ≡ faulted refusal }
    {
        Socket {
            stage: REFUSED,
            refusal,
            ..Socket::fresh()
        }
    }

    // Of a state that is refused, or in no stage: a refusal that the reader does not give makes it a new one.
    fn sound_refusal(self) -> Self
        ensures { result ≡ sound_refusal self }
    {
        if self.stage != REFUSED || self.refusal < 2 || 10 < self.refusal {
            return Socket::fresh();
        }
        Socket::faulted(self.refusal)
    }

    // The state itself where it came back from a call; any other within the limits of those that do.
    fn sound(mut self) -> Self
        ensures { result ≡ soundly self }
    {
        if WHOLE < self.stage {
            return self.sound_refusal();
        }
        self.refusal = 0;
        self.len = self.len.min(16384);
        self.digits = self.digits.min(self.len + 1);
        self.stored = self.stored.min(self.len);
        self.body = self.body.min(1048576);
        self.seen = self.seen.min(self.body);
        self
    }

    // What a run makes of the state. The block's bytes go to the front of the buffer, which comes back from call to call as it was left.
    pub fn feed(self, run: &[u8], block: &mut [u8]) -> Taken
        ensures { FedIn (feed_of self run.now block.old) block.new result }
    {
        if block.len() < 16384 {
            return Taken {
                state: self,
                answer: Err(Refusal::NoRoom),
                body: 0,
                after: 0,
            };
        }
        let sound = Sound {
            state: self.sound(),
        };
        match sound.state.stage {
            LENGTH => sound.take_digits(run, block),
            BLOCK => sound.take_block(run, block),
            BODY => sound.take_body(run),
            _ => sound.done(0, run.len()),
        }
    }
}

// A state within the limits of those that come back from a call; a refusal that it keeps is none but 2 to 10.
#[derive(Clone, Copy)]
struct Sound {
    state: Socket,
    ghost fits: { Fits state },
    ghost kept: { 3 < state.stage → 2 ≤ state.refusal },
}

impl Sound {
    // Before the end: the run had so many bytes of the body.
    fn more(self, body: usize) -> Taken
        ensures { Fed (at_more self.state body) result }
    {
        Taken {
            state: self.state,
            answer: Err(Refusal::Cut),
            body,
            after: 0,
        }
    }

    // The answer of a state that has ended.
    fn ending(self) -> Result<Request, Refusal>
        requires { 3 ≤ self.state.stage }
        ensures { answer_outcome result ≡ end_of self.state }
    {
        let state = self.state;
        if state.stage == WHOLE {
            return Ok(Request {
                block_len: state.len,
                body_len: state.body,
                used: state.digits + 1 + state.len + 1 + state.body,
            });
        }
        Err(Refusal::try_from(state.refusal as u8).unwrap())
    }

    // At the end or after it: so many bytes of the run belong to the body, and so many come after the end.
    fn done(self, body: usize, after: usize) -> Taken
        requires { 3 ≤ self.state.stage }
        ensures { Fed (step_at_end self.state body after) result }
    {
        Taken {
            state: self.state,
            answer: self.ending(),
            body,
            after,
        }
    }

    // The body, of which this is what the run has left.
    fn take_body(mut self, run: &[u8]) -> Taken
        ensures { Fed (fed_body self.state run.now) result }
    {
        let have = run.len();
        let left = self.state.body - self.state.seen;
        if have < left {
            self.state.stage = BODY;
            self.state.seen += have;
            return self.more(have);
        }
        self.state.stage = WHOLE;
        self.state.seen = self.state.body;
        self.done(left, have - left)
    }

    // The comma came: the block is judged where it is stored.
    fn take_comma(mut self, run: &[u8], block: &[u8]) -> Taken
        requires { 16384 ≤ length block.now }
        ensures { Fed (fed_checked self.state run.now (check_block (take self.state.len block.now))) result }
    {
        match check_block(&block[..self.state.len]) {
            Ok(body) => {
                self.state.body = body;
                self.state.seen = 0;
                self.take_body(run)
            }
            Err(refusal) => Taken::refused(refusal),
        }
    }

    // The block, of which this is what the run has left, and the comma behind it. The buffer's length is required and is no array's, here
    // and in the steps beside it: a longer buffer may be lent. In line at both callers: as a function of its own it hands the answer over
    // in memory, and then so does every stage.
    #[inline(always)]
    fn take_block(mut self, run: &[u8], block: &mut [u8]) -> Taken
        requires { 16384 ≤ length block.old }
        ensures { FedIn (fed_block self.state run.now block.old) block.new result }
    {
        let have = run.len();
        let stored = self.state.stored;
        let left = self.state.len - stored;
        let comma = have.min(left);
        put_any(block, stored, &run[..comma]);
        if have <= left {
            self.state.stage = BLOCK;
            self.state.stored = stored + have;
            return self.more(0);
        }
        if run[comma] != b',' {
            return Taken::refused(Refusal::NoComma);
        }
        self.state.stored = self.state.len;
        self.take_comma(&run[comma + 1..], block)
    }

    // The length digits, and the block behind their colon.
    fn take_digits(mut self, run: &[u8], block: &mut [u8]) -> Taken
        requires { 16384 ≤ length block.old }
        ensures { FedIn (fed_digits self.state run.now block.old) block.new result }
    {
        let before = self.state.digits;
        match read_digits(run, before, self.state.len) {
            Ok(
                Digits {
                    count,
                    value,
                    colon,
                },
            ) => {
                self.state = Socket::begun(count, value);
                if colon {
                    return self.take_block(&run[count - before + 1..], block);
                }
                self.more(0)
            }
            Err(refusal) => Taken::refused(refusal),
        }
    }
}
