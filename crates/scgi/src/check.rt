// What is asked of a whole block.
ghost use Rattle.std.specs.Prelude.{◌≡◌, true};
ghost use Rattle.octets.specs.Outcome.{gives, then};
ghost use Rattle.octets.specs.Lists.{different};
ghost use Rattle.headers.specs.Block.{parsed, well_formed, count_of, names};
ghost use Rattle.scgi.specs.Check.{stated_in, has_scgi, checked_outcome, rest_of, check_block};

use headers::block::{HeaderPlace, header_at};
use headers::names::{Names, store_names};
use octets::compare::same;
use octets::decimal;
use octets::refusal::Refusal;
use octets::span::Span;

// The body length that the first header of a well formed block states. Whatever is amiss with it, no header too, is 8: "first header is not
// CONTENT_LENGTH with one or more digits", and 02 §2: "at most 10 digits: a longer one is 8 in SCGI".
fn stated_length(block: &[u8]) -> Result<u64, Refusal>
    requires { well_formed block.now ≡ true }
    ensures { checked_outcome result ≡ stated_in block.now }
{
    if block.is_empty() {
        return Err(Refusal::NoContentLength);
    }
    // The block is well formed, so that the header is there.
    let HeaderPlace {
        name_end,
        value_end,
    } = header_at(block, 0).unwrap();
    if !same(&block[..name_end], b"CONTENT_LENGTH") {
        return Err(Refusal::NoContentLength);
    }
    let start = name_end + 1;
    decimal::read(&block[start..value_end]).ok_or(Refusal::NoContentLength)
}

// Whether a block, whose names differ, has the header SCGI with the value 1.
fn has_scgi(stored: Names<'_>) -> bool
    requires { then (parsed stored.block.now) (λ hs. gives (different (names hs))) ≡ gives true }
    ensures { has_scgi stored.entry.block.now ≡ gives result }
{
    let Some(value) = stored.seek(b"SCGI") else {
        return false;
    };
    same(value.of(stored.block), b"1")
}

// What is asked of such a block after its names.
fn check_rest(stored: Names<'_>) -> Result<usize, Refusal>
    requires { then (parsed stored.block.now) (λ hs. gives (different (names hs))) ≡ gives true }
    ensures { checked_outcome result ≡ rest_of stored.entry.block.now }
{
    let len = stated_length(stored.block)?;
    if 1048576 < len {
        return Err(Refusal::BodyTooLong);
    }
    if !has_scgi(stored) {
        return Err(Refusal::NoScgi);
    }
    Ok(len as usize)
}

// Whether a block of n headers, of any number, is that of a request. It is walked again for its names, with room for as many as a
// request may have. A const parameter for the room would leave tests of it: more names than fit mean another thing here, and are
// compared in another way.
fn check_large(block: &[u8], n: usize) -> Result<usize, Refusal>
    requires { count_of block.now ≡ gives n }
    ensures { checked_outcome result ≡ check_block block.now }
{
    if 128 < n {
        return Err(Refusal::TooManyHeaders);
    }
    let mut places = [Span { start: 0, len: 0 }; 128];
    store_names(block, &mut places)?;
    let stored = Names::new(block, &places[..n]);
    if !stored.differ_by_length() {
        return Err(Refusal::EqualNames);
    }
    check_rest(stored)
}

// Whether a block is that of a request. It is walked for the count of its headers and, of the at most 32 that most have, for their names.
pub fn check_block(block: &[u8]) -> Result<usize, Refusal>
    ensures { checked_outcome result ≡ check_block block.now }
{
    let mut few = [Span { start: 0, len: 0 }; 32];
    let n = store_names(block, &mut few)?;
    if 32 < n {
        return check_large(block, n);
    }
    let stored = Names::new(block, &few[..n]);
    if !stored.differ() {
        return Err(Refusal::EqualNames);
    }
    check_rest(stored)
}
