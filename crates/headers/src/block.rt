// From header to header of a block.
ghost use Rattle.std.specs.Prelude.{◌≡◌, ◌<◌, length};
ghost use Rattle.headers.specs.Block.{header_outcome, header_ends, count_outcome, count_of};

use crate::names::store_names;
use bulk::scan::find_soon;
use octets::refusal::Refusal;
use octets::scan::find;

// Where a header's name ends, and where its value, behind the NUL after the name, ends.
#[derive(Clone, Copy, Debug, PartialEq, Eq)]
pub struct HeaderPlace {
    pub name_end: usize,
    pub value_end: usize,
}

// The header that begins at a place.
pub fn header_at(block: &[u8], at: usize) -> Result<HeaderPlace, Refusal>
    requires { at < length block.now }
    ensures { header_outcome result ≡ header_ends block.now at }
{
    let name_end = find(block, at, 0);
    if name_end == at || block.len() <= name_end {
        return Err(Refusal::BlockMalformed);
    }
    let value_end = find_soon(block, name_end + 1, 0);
    if block.len() <= value_end {
        return Err(Refusal::BlockMalformed);
    }
    Ok(HeaderPlace {
        name_end,
        value_end,
    })
}

// How many headers a block has.
pub fn count_headers(block: &[u8]) -> Result<usize, Refusal>
    ensures { count_outcome result ≡ count_of block.now }
{
    store_names(block, &mut [])
}
