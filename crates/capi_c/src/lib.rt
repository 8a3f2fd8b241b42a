// The symbols of the C archive, each one call of `capi`, which states what is promised.
//
// A crate is a library or a static library, and only a static library exports: so `capi` is the one, for Rattle, and this the other. An
// export has the name, the parameters and the clauses of the call that it makes. None has a `requires`, since nothing would hold C to it.
#![tactic(auto)]

ghost use Rattle.std.specs.Prelude.{◌≡◌};
ghost use Rattle.socket.specs.Socket.{new, feed_of};
ghost use Rattle.capi.specs.Answer.{Answered};
ghost use Rattle.capi.specs.Feed.{FedAnswered};
ghost use Rattle.capi.specs.Find.{find_gives};
ghost use Rattle.capi.specs.Forward.{GatewayAnswered};
ghost use Rattle.capi.specs.Read.{read_gives};
ghost use Rattle.capi.specs.Respond.{response_gives};
ghost use Rattle.capi.specs.Setting.{setting_gives};
ghost use Rattle.capi.specs.Spool.{SpoolAnswered};
ghost use Rattle.capi.specs.Write.{WriteAnswered};

use capi::feed::Fed;
use socket::reader::Socket;

// capi::read
#[unsafe(no_mangle)]
pub extern "C" fn oy_scgi_read(bytes: &[u8], answer: &mut [u64]) -> u64
    ensures { Answered (read_gives bytes.now) answer.old answer.new result }
{
    capi::read::oy_scgi_read(bytes, answer)
}

// capi::write
#[unsafe(no_mangle)]
pub extern "C" fn oy_scgi_write(
    block: &[u8],
    body: &[u8],
    out: &mut [u8],
    answer: &mut [u64],
) -> u64
    ensures { WriteAnswered block.now body.now out.old out.new answer.old answer.new result }
{
    capi::write::oy_scgi_write(block, body, out, answer)
}

// capi::find
#[unsafe(no_mangle)]
pub extern "C" fn oy_scgi_find(block: &[u8], name: &[u8], answer: &mut [u64]) -> u64
    ensures { Answered (find_gives block.now name.now) answer.old answer.new result }
{
    capi::find::oy_scgi_find(block, name, answer)
}

// capi::setting
#[unsafe(no_mangle)]
pub extern "C" fn oy_setting(facts: &[u8], site: &[u8], name: &[u8], answer: &mut [u64]) -> u64
    ensures { Answered (setting_gives facts.now site.now name.now) answer.old answer.new result }
{
    capi::setting::oy_setting(facts, site, name, answer)
}

// capi::spool
#[unsafe(no_mangle)]
pub extern "C" fn oy_spool(bytes: &[u8], lengths: &mut [u64], answer: &mut [u64]) -> u64
    ensures { SpoolAnswered bytes.now lengths.old lengths.new answer.old answer.new result }
{
    capi::spool::oy_spool(bytes, lengths, answer)
}

// capi::feed
#[unsafe(no_mangle)]
pub extern "C" fn oy_socket_new() -> Socket
    ensures { result ≡ new }
{
    capi::feed::oy_socket_new()
}

// capi::feed
#[unsafe(no_mangle)]
pub extern "C" fn oy_socket_feed(state: Socket, run: &[u8], block: &mut [u8]) -> Fed
    ensures { FedAnswered (feed_of state run.now block.old) block.new result }
{
    capi::feed::oy_socket_feed(state, run, block)
}

// capi::respond
#[unsafe(no_mangle)]
pub extern "C" fn oy_response(edition: u64, method: &[u8], script: &[u8], answer: &mut [u64]) -> u64
    ensures { Answered (response_gives edition method.now script.now) answer.old answer.new result }
{
    capi::respond::oy_response(edition, method, script, answer)
}

// capi::forward
#[unsafe(no_mangle)]
pub extern "C" fn oy_gateway<'a>(
    facts: &'a [u8],
    site: &'a [u8],
    mounts: &[u8],
    http: &[u8],
    out: &mut [u8],
    answer: &mut [u64],
) -> u64
    ensures { GatewayAnswered facts.now site.now mounts.now http.now out.old out.new answer.old answer.new result }
{
    capi::forward::oy_gateway(facts, site, mounts, http, out, answer)
}
