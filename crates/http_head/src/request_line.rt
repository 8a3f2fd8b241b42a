// The request line: the first line of a head.
ghost use Rattle.std.specs.Prelude.{◌≡◌, length};
ghost use Rattle.octets.specs.Compare.{same_bytes};
ghost use Rattle.http_head.specs.RequestLine.{is_method, is_version, version_outcome, version_of, line_outcome, line_places_of};

use bulk::compare::eight_at;
use octets::compare::same;
use octets::kinds::Kind;
use octets::refusal::Refusal;
use octets::scan::{find, run_end};
use octets::span::Span;

// Whether s is 1 to 32 token bytes.
fn is_method(s: &[u8]) -> bool
    ensures { result ≡ is_method s.now }
{
    if s.len() == 0 || 32 < s.len() {
        return false;
    }
    run_end(Kind::Token, s, 0) == s.len()
}

// Whether s is `HTTP/`, digit, `.`, digit.
#[tactic(auto, unfolding(crate::specs::RequestLine::is_version, octets::specs::Kinds::is_digit))]
fn is_version(s: &[u8]) -> bool
    ensures { result ≡ is_version s.now }
{
    s.len() == 8
        && same(&s[..5], b"HTTP/")
        && s[5].is_ascii_digit()
        && s[6] == b'.'
        && s[7].is_ascii_digit()
}

// Whether s is the eight bytes t. By `eight_at`, for speed: it compares them as one number.
fn is_eight(s: &[u8], t: &[u8; 8]) -> bool
    ensures { result ≡ same_bytes s.now t.now }
{
    s.len() == 8 && eight_at(s, 0, t)
}

// The digit after `HTTP/1.` of a version that is served.
fn minor_version(s: &[u8]) -> Result<u8, Refusal>
    ensures { version_outcome result ≡ version_of s.now }
{
    if is_eight(s, b"HTTP/1.0") {
        return Ok(0);
    }
    if is_eight(s, b"HTTP/1.1") {
        return Ok(1);
    }
    if is_version(s) {
        return Err(Refusal::Version);
    }
    Err(Refusal::RequestLine)
}

// Where the parts of a request line stand in it.
#[derive(Clone, Copy, Debug, PartialEq, Eq)]
pub struct RequestLine {
    // How long the method is, at the line's start.
    pub method_len: usize,
    pub target: Span,
    // The version's second digit. A number and no enum: it goes to request's `check_rules`, which docs/ names and which takes every number.
    pub minor: u8,
}

// Where the parts of a request line stand in it, which is given without its CR LF.
pub fn request_line(line: &[u8]) -> Result<RequestLine, Refusal>
    ensures { line_outcome result ≡ line_places_of line.now }
{
    let m = find(line, 0, b' ');
    if line.len() <= m {
        return Err(Refusal::RequestLine);
    }
    let t = find(line, m + 1, b' ');
    if line.len() <= t {
        return Err(Refusal::RequestLine);
    }
    if find(line, t + 1, b' ') < line.len() || !is_method(&line[..m]) {
        return Err(Refusal::RequestLine);
    }
    let minor = minor_version(&line[t + 1..])?;
    let target = Span {
        start: m + 1,
        len: t - (m + 1),
    };
    Ok(RequestLine {
        method_len: m,
        target,
        minor,
    })
}
