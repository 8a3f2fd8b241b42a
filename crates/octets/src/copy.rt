// Bytes copied into a lent buffer at a place.
ghost use Rattle.std.specs.Prelude.{◌≡◌, ◌+◌, ◌-◌, ◌≤◌, length, take, drop};
ghost use Rattle.octets.specs.Copy.{over, Wrote};

// Writes src into out from at on, and gives the place after it.
pub fn put(out: &mut [u8], at: usize, src: &[u8]) -> usize
    requires { at + length src.now ≤ length out.old }
    ensures { Wrote out.old at src.now out.new result }
{
    let end = at + src.len();
    out[at..end].copy_from_slice(src);
    end
}

// Moves the bytes from..to of a buffer to its front.
pub fn move_front(buf: &mut [u8], from: usize, to: usize)
    requires { (from ≤ to) × (to ≤ length buf.old) }
    ensures { buf.new ≡ over buf.old 0 (take (to - from) (drop from buf.old)) }
{
    if from == 0 {
        return;
    }
    let n = to - from;
    for i in 0..n {
        buf[i] = buf[from + i];
    }
}
