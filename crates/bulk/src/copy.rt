// Copies of bytes whose count is not known when the program is compiled.
ghost use Rattle.std.specs.Prelude.{◌≡◌, ◌+◌, ◌≤◌, length};
ghost use Rattle.octets.specs.Copy.{Wrote};

use octets::copy::put;

// Writes N bytes into out from at on, by way of a copy of their own: of that the compiler knows that it does not overlap out, so that it
// moves the bytes at once, and makes no copy.
fn put_at_once<const N: usize>(out: &mut [u8], at: usize, src: &[u8]) -> usize
    requires { (length src.now ≡ N) × (at + N ≤ length out.old) }
    ensures { Wrote out.old at src.now out.new result }
{
    let mut copy = [0u8; N];
    copy.copy_from_slice(src);
    put(out, at, &copy)
}

// The same as put for N to 2 * N bytes: two writes of N bytes, which may overlap.
fn put_twice<const N: usize>(out: &mut [u8], at: usize, src: &[u8]) -> usize
    requires { (N ≤ length src.now) × (at + length src.now ≤ length out.old) × (length src.now ≤ N + N) }
    ensures { Wrote out.old at src.now out.new result }
{
    let rest = src.len() - N;
    put_at_once::<N>(out, at, &src[..N]);
    put_at_once::<N>(out, at + rest, &src[rest..])
}

// The same as put for 16 bytes or more: chunk by chunk, where the last chunk may write bytes again.
fn put_chunks(out: &mut [u8], at: usize, src: &[u8]) -> usize
    requires { (16 ≤ length src.now) × (at + length src.now ≤ length out.old) }
    ensures { Wrote out.old at src.now out.new result }
{
    let last = src.len() - 16;
    let mut i: usize = 0;
    // no for: it goes on by 16
    while i < last {
        put_at_once::<16>(out, at + i, &src[i..i + 16]);
        i += 16;
    }
    put_at_once::<16>(out, at + last, &src[last..])
}

// The same as put, for bytes whose count is not known when the program is compiled: writes of 1, 2, 4, 8 or 16 bytes at once.
// put itself in its place was tried, and slower: the gateway step took 0.44 and 0.45 of the Rust implementation's time for 10 and 64 fields
// in place of 0.41 and 0.42.
pub fn put_any(out: &mut [u8], at: usize, src: &[u8]) -> usize
    requires { at + length src.now ≤ length out.old }
    ensures { Wrote out.old at src.now out.new result }
{
    match src.len() {
        0 => put(out, at, &[]),
        1 => put_twice::<1>(out, at, src),
        2..=3 => put_twice::<2>(out, at, src),
        4..=7 => put_twice::<4>(out, at, src),
        8..=15 => put_twice::<8>(out, at, src),
        _ => put_chunks(out, at, src),
    }
}
