// The SCGI bytes of a request.
ghost use Rattle.std.specs.Prelude.{◌≤◌};
ghost use Rattle.gateway.specs.Write.{RequestFits, BlockRoom, RequestWritten};

use octets::refusal::Refusal;
use scgi::write::write_parts;
use variables::block::put_block;
use variables::sources::Sources;

// Writes the variables of a request as netstring, and its body: 21. The buffer for the variables is on the stack, a short one where a bound
// over the lengths at hand says that it is long enough, since a buffer is set to zero before it is used.
pub fn write_request(s: &Sources, body: &[u8], out: &mut [u8]) -> Result<usize, Refusal>
    requires { RequestFits s.now body.now }
    ensures { RequestWritten s.now body.now out.old out.new result }
{
    let bound = 138
        + s.facts.len()
        + s.site.len()
        + s.head.len()
        + s.line.target.len
        + 4 * s.fields.count;
    if bound <= 1920 {
        write_by::<1920>(s, body, out)
    } else {
        write_by::<14726>(s, body, out)
    }
}

// The same with a buffer of N bytes for the variables.
fn write_by<const N: usize>(s: &Sources, body: &[u8], out: &mut [u8]) -> Result<usize, Refusal>
    requires { BlockRoom s.now body.now N }
    ensures { RequestWritten s.now body.now out.old out.new result }
{
    let mut block = [0u8; N];
    let n = put_block(s, body.len(), &mut block);
    write_parts(&block[..n], body, out)
}
