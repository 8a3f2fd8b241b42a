// Whether mounts are what they must be.
ghost use Rattle.std.specs.Prelude.{◌≡◌, true};
ghost use Rattle.octets.specs.Outcome.{is_good, then};
ghost use Rattle.headers.specs.Block.{parsed, well_formed};
ghost use Rattle.mounts.specs.Mounts.{mounts_from, mounts_of};

use crate::blocks::store_block;
use crate::value::read_value;
use headers::block::header_at;
use octets::span::Span;

// Whether each header of a well formed block is a mount.
fn all_mounts(block: &[u8]) -> bool
    requires { well_formed block.now ≡ true }
    ensures { result ≡ is_good (then (parsed block.now) (mounts_from 0)) }
{
    let mut i: usize = 0;
    // A while: an iterator of headers would carry its own contract to each of four loops, each with another invariant: no plainer.
    while i < block.len() {
        // The block is well formed, so that the header is there.
        let h = header_at(block, i).unwrap();
        if block[i] != b'/' || block[h.name_end - 1] == b'/' {
            return false;
        }
        if read_value(&block[h.name_end + 1..h.value_end]).is_none() {
            return false;
        }
        i = h.value_end + 1;
    }
    true
}

// Whether mounts are a block of at most 4,096 bytes and 32 mounts, no name twice in it.
pub fn is_mounts(block: &[u8]) -> bool
    ensures { result ≡ is_good (mounts_of block.now) }
{
    // The list has room for the names of 32 entries.
    let mut places = [Span { start: 0, len: 0 }; 32];
    store_block(block, 4096, &mut places).is_ok() && all_mounts(block)
}
