// The reader of SCGI requests for bytes that come in runs.
ghost use Rattle.std.specs.Prelude.{◌≡◌};
ghost use Rattle.socket.specs.Socket.{new, feed_of};
ghost use Rattle.capi.specs.Feed.{FedAnswered};

use crate::answer::refused;
use socket::reader::Socket;

// What a run of bytes gave: the state for the next call; 0 at the end, 1 before it, else the refusal; how many bytes of the run belong to
// the body and how many come after the end; at the end the lengths of block and body and the bytes used, else 0. The numbers and the
// zeros are those of C programs, which have no Option and no enum.
#[repr(C)]
#[derive(Clone, Copy)]
pub struct Fed {
    pub state: Socket,
    pub refusal: u64,
    pub body: usize,
    pub after: usize,
    pub block_len: usize,
    pub body_len: usize,
    pub used: usize,
}

// The state before the first byte of a request.
pub fn oy_socket_new() -> Socket
    ensures { result ≡ new }
{
    Socket::fresh()
}

// Takes the next bytes of a request. The block's bytes go to the front of the buffer, which comes back from call to call as it was left.
pub fn oy_socket_feed(state: Socket, run: &[u8], block: &mut [u8]) -> Fed
    ensures { FedAnswered (feed_of state run.now block.old) block.new result }
{
    let taken = state.feed(run, block);
    let fed = Fed {
        state: taken.state,
        refusal: 0,
        body: taken.body,
        after: taken.after,
        block_len: 0,
        body_len: 0,
        used: 0,
    };
    match taken.answer {
        Ok(end) => Fed {
            block_len: end.block_len,
            body_len: end.body_len,
            used: end.used,
            ..fed
        },
        Err(why) => Fed {
            refusal: refused(why),
            ..fed
        },
    }
}
