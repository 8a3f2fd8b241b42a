// A request's target: the rules it obeys, its path and query.
ghost use Rattle.std.specs.Prelude.{◌≡◌, true, min, ◌≤◌, length};
ghost use Rattle.octets.specs.Kinds.{is_target};
ghost use Rattle.octets.specs.Scan.{count, all_of, other};
ghost use Rattle.targets.specs.Escape.{escapes_right};
ghost use Rattle.targets.specs.Target.{is_plain, is_dots, segments_right, decoded_right, raw_of, PathRight, PathRead, TargetRead};

use crate::escape::{decode, escapes};
use octets::compare::same;
use octets::copy::put;
use octets::kinds::Kind;
use octets::refusal::Refusal;
use octets::scan::{find, run_end};

// The path is the first path_len bytes of a target, and decoded the first decoded_len bytes of the buffer. Numbers and no
// slices: the claim TargetsTold speaks of them.
#[derive(Clone, Copy, Debug, PartialEq, Eq)]
pub struct TargetPlace {
    pub path_len: usize,
    pub decoded_len: usize,
}

// The path of a target that isn't decoded yet, and how many slashes it has.
#[derive(Clone, Copy)]
struct Raw {
    path_len: usize,
    slashes: usize,
}

// How many slashes s has.
fn slashes(s: &[u8]) -> usize
    ensures { result ≡ count 47 s.now }
{
    s.iter().filter(|&&b| b == b'/').count()
}

// Judges a target as it stands.
fn raw_path(t: &[u8]) -> Result<Raw, Refusal>
    ensures { result ≡ raw_of t.now }
{
    if t.is_empty() || 4096 < t.len() || t[0] != b'/' {
        return Err(Refusal::Target);
    }
    if run_end(Kind::Target, t, 0) != t.len() || !escapes(t) {
        return Err(Refusal::Target);
    }
    let path_len = find(t, 0, b'?');
    let slashes = slashes(&t[..path_len]);
    if 64 < slashes {
        return Err(Refusal::Target);
    }
    Ok(Raw { path_len, slashes })
}

// Whether b is no control byte.
fn is_plain(b: u8) -> bool
    ensures { result ≡ is_plain b }
{
    !b.is_ascii_control()
}

// Whether no byte is a control byte.
fn all_plain(s: &[u8]) -> bool
    ensures { result ≡ all_of is_plain s.now }
{
    s.iter().all(|&b| is_plain(b))
}

// Whether s is one dot or two.
fn is_dots(s: &[u8]) -> bool
    ensures { result ≡ is_dots s.now }
{
    same(s, b".") || same(s, b"..")
}

// Whether no segment of the path is one dot or two.
fn segments(p: &[u8]) -> bool
    ensures { result ≡ segments_right p.now }
{
    p.split(|&b| b == b'/').all(|s| !is_dots(s))
}

// Judges the decoded path d of a path with so many slashes.
fn decoded_path(d: &[u8], before: usize) -> bool
    ensures { result ≡ decoded_right before d.now }
{
    slashes(d) == before && all_plain(d) && segments(d)
}

// Reads a path without escapes. Decoded it is itself, so only its segments are left to judge. Beside escaped_path for speed.
fn plain_path(p: &[u8], path: &mut [u8]) -> Result<TargetPlace, Refusal>
    requires { (length p.now ≤ length path.old) × (all_of is_target p.now ≡ true) × (all_of (other 37) p.now ≡ true) }
    ensures { PathRead p.now path.old path.new result }
{
    let decoded_len = put(path, 0, p);
    if !segments(p) {
        return Err(Refusal::Target);
    }
    Ok(TargetPlace {
        path_len: p.len(),
        decoded_len,
    })
}

// Reads a path with so many slashes, escape by escape.
fn escaped_path(p: &[u8], slashes: usize, path: &mut [u8]) -> Result<TargetPlace, Refusal>
    requires { (length p.now ≤ length path.old) × (escapes_right p.now ≡ true) × (slashes ≡ count 47 p.now) }
    ensures { PathRead p.now path.old path.new result }
{
    let decoded_len = decode(p, path);
    if !decoded_path(&path[..decoded_len], slashes) {
        return Err(Refusal::Target);
    }
    Ok(TargetPlace {
        path_len: p.len(),
        decoded_len,
    })
}

// Reads a path with so many slashes. Few paths have an escape, and one without is read faster.
fn read_path(p: &[u8], slashes: usize, path: &mut [u8]) -> Result<TargetPlace, Refusal>
    requires { (PathRight p.now slashes) × (length p.now ≤ length path.old) }
    ensures { PathRead p.now path.old path.new result }
{
    if find(p, 0, b'%') == p.len() {
        return plain_path(p, path);
    }
    escaped_path(p, slashes, path)
}

// The target t. The decoded path is written to the front of the buffer, which has room for t, or for the longest target that is accepted.
pub fn target(t: &[u8], path: &mut [u8]) -> Result<TargetPlace, Refusal>
    requires { min (length t.now) 4096 ≤ length path.old }
    ensures { TargetRead t.now path.old path.new result }
{
    let raw = raw_path(t)?;
    read_path(&t[..raw.path_len], raw.slashes, path)
}
