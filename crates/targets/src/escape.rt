// The escapes of a target: whether they are right, and what they stand for.
ghost use Rattle.std.specs.Prelude.{◌≡◌, true, ◌+◌, ◌≤◌, ◌<◌, length, drop, get_or};
ghost use Rattle.octets.specs.Kinds.{is_hex};
ghost use Rattle.octets.specs.Copy.{Wrote};
ghost use Rattle.targets.specs.Escape.{escape_right, escapes_right, hex_value, decoded, Decodes};

use octets::kinds::{Kind, is_kind};

// Whether a hex digit stands at i.
fn hex_at(t: &[u8], i: usize) -> bool
    ensures { result ≡ is_hex (get_or t.now i 0) }
{
    i < t.len() && is_kind(Kind::Hex, t[i])
}

// Whether the byte at i is no percent sign, or one that two hex digits follow.
fn right_at(t: &[u8], i: usize) -> bool
    requires { i < length t.now }
    ensures { result ≡ escape_right (get_or t.now i 0) (drop (i + 1) t.now) }
{
    t[i] != b'%' || (hex_at(t, i + 1) && hex_at(t, i + 2))
}

// Whether two hex digits follow each percent sign.
pub fn escapes(t: &[u8]) -> bool
    ensures { result ≡ escapes_right t.now }
{
    (0..t.len()).all(|i| right_at(t, i))
}

// The number that a hex digit says; 0 for another byte.
#[tactic(auto, using(octets::proofs::Tests::tests), unfolding(crate::specs::Escape::hex_value, octets::specs::Kinds::is_digit))]
fn hex_value(b: u8) -> u8
    ensures { result ≡ hex_value b }
{
    match b {
        b'0'..=b'9' => b - b'0',
        b'A'..=b'F' => b - b'A' + 10,
        b'a'..=b'f' => b - b'a' + 10,
        _ => 0,
    }
}

// The byte or the escape at i, decoded, and the place after it.
fn decode_at(s: &[u8], i: usize) -> (u8, usize)
    requires { (i < length s.now) × (escapes_right (drop i s.now) ≡ true) }
    ensures { Decodes s.now i result.0 result.1 }
{
    if s[i] != b'%' {
        return (s[i], i + 1);
    }
    let high = hex_value(s[i + 1]);
    let low = hex_value(s[i + 2]);
    (high * 16 + low, i + 3)
}

// Writes s decoded to the front of out, and gives its length. A turn goes on by one byte or by three, so the loop is a `while`.
// Not by the kit's `percent_decode`: the edits decode_a_is_11 and decode_low_first, which must stay refused, are made in these functions.
pub fn decode(s: &[u8], out: &mut [u8]) -> usize
    requires { (length s.now ≤ length out.old) × (escapes_right s.now ≡ true) }
    ensures { Wrote out.old 0 (decoded s.now) out.new result }
{
    let mut i: usize = 0;
    let mut n: usize = 0;
    while i < s.len() {
        let (byte, next) = decode_at(s, i);
        out[n] = byte;
        i = next;
        n += 1;
    }
    n
}
