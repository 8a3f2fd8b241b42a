// The writer of SCGI requests.
ghost use Rattle.std.specs.Prelude.{◌≡◌, ◌++◌, ◌+◌, ◌≤◌, length};
ghost use Rattle.octets.specs.Copy.{Wrote};
ghost use Rattle.scgi.specs.Grammar.{netstring};
ghost use Rattle.scgi.specs.Write.{in_room, WrittenOut, Written};

use crate::check::check_block;
use octets::copy::put;
use octets::decimal;
use octets::refusal::Refusal;

// Writes the block as netstring at the start of out, and gives the place after it.
fn put_netstring(out: &mut [u8], block: &[u8]) -> usize
    requires { length (netstring block.now) ≤ length out.old }
    ensures { Wrote out.old 0 (netstring block.now) out.new result }
{
    let a = decimal::write(out, 0, block.len() as u64);
    let b = put(out, a, b":");
    let c = put(out, b, block);
    put(out, c, b",")
}

// Writes a block as netstring and a body to the start of out, where there is room for both.
pub fn write_parts(block: &[u8], body: &[u8], out: &mut [u8]) -> Result<usize, Refusal>
    requires { (length block.now ≤ 16384) × (length body.now ≤ 1048576) }
    ensures { WrittenOut (in_room (netstring block.now ++ body.now) (length out.old)) out.old out.new result }
{
    let size = decimal::digits(block.len() as u64) + 2 + block.len() + body.len();
    if out.len() < size {
        return Err(Refusal::NoRoom);
    }
    let at = put_netstring(out, block);
    Ok(put(out, at, body))
}

// Writes the request of a block and a body to the start of out.
pub fn write(block: &[u8], body: &[u8], out: &mut [u8]) -> Result<usize, Refusal>
    ensures { Written block.now body.now out.old out.new result }
{
    if 16384 < block.len() {
        return Err(Refusal::BlockTooLong);
    }
    let n = check_block(block)?;
    if body.len() != n {
        return Err(Refusal::BodyDiffers);
    }
    write_parts(block, body, out)
}
