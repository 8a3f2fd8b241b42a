// Whether a lent block is what each of the three must be.
ghost use Rattle.std.specs.Prelude.{◌≡◌, length, IfOk};
ghost use Rattle.mounts.specs.Blocks.{BlockFound, BlockStored};

use headers::names::{Names, store_names};
use octets::span::Span;

// Why a block is not taken.
#[derive(Clone, Copy, Debug, PartialEq, Eq)]
pub enum Unfit {
    // The list has no room for all names of the block.
    Full,
    // Every breach of the rules for what is lent has the number 20.
    Breach,
}

// How many names a block has that has at most so many bytes, is well formed, and has no name twice. The list takes their places.
pub fn store_block(block: &[u8], limit: usize, places: &mut [Span]) -> Result<usize, Unfit>
    ensures { BlockStored limit block.now places.old places.new result }
{
    if limit < block.len() {
        return Err(Unfit::Breach);
    }
    let Ok(n) = store_names(block, places) else {
        // A malformed block, which headers refuse with 5, is a breach as any other.
        return Err(Unfit::Breach);
    };
    if places.len() < n {
        return Err(Unfit::Full);
    }
    if !Names::new(block, &places[..n]).differ() {
        return Err(Unfit::Breach);
    }
    Ok(n)
}

// The names of such a block, while the list is lent.
pub fn block_names<'a>(
    block: &'a [u8],
    limit: usize,
    places: &'a mut [Span],
) -> Result<Names<'a>, Unfit>
    ensures found { BlockFound limit (length places.old) block.now result }
    ensures block { IfOk result (λ names. names.block ≡ block.entry) }
    ensures places { IfOk result (λ names. names.places.ref_ptr ≡ places.entry.ref_ptr) }
{
    let n = store_block(block, limit, places)?;
    Ok(Names::new(block, &places[..n]))
}
