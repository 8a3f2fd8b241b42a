// The value of Location.
ghost use Rattle.std.specs.Prelude.{◌≡◌, ◌&&◌, ◌<◌, length};
ghost use Rattle.octets.specs.Scan.{all_of};
ghost use Rattle.targets.specs.Target.{target_of};
ghost use Rattle.response.specs.Seen.{value_at, MarkIn};
ghost use Rattle.response.specs.Location.{is_visible, accepted, is_elsewhere, is_location, filled, location_right};

use crate::fields::Mark;
use octets::kinds::{Kind, is_kind};
use octets::scan::{find, run_end};
use targets::target::target;

// Whether b is 33 to 126.
fn is_visible(b: u8) -> bool
    ensures { result ≡ is_visible b }
{
    b.is_ascii_graphic()
}

// Whether each byte is 33 to 126.
fn all_visible(s: &[u8]) -> bool
    ensures { result ≡ all_of is_visible s.now }
{
    s.iter().all(|&b| is_visible(b))
}

// Whether v is a name, `:`, and one or more bytes.
fn is_elsewhere(v: &[u8]) -> bool
    requires { 0 < length v.now }
    ensures { result ≡ is_elsewhere v.now }
{
    if !is_kind(Kind::Letter, v[0]) {
        return false;
    }
    let n = find(v, 0, b':');
    n + 1 < v.len() && n <= run_end(Kind::Scheme, v, 0) && all_visible(v)
}

// Whether v obeys the rules of a target. Their 14 is not handed up: of a Location it becomes 25, "save where a rule names another number".
fn is_target(v: &[u8]) -> bool
    ensures { result ≡ accepted (target_of v.now) }
{
    let mut path: [u8; 4096] = [0; 4096];
    target(v, &mut path).is_ok()
}

// Whether v is a local Location or another.
fn is_location(v: &[u8]) -> bool
    requires { 0 < length v.now }
    ensures { result ≡ is_location v.now }
{
    if v[0] == b'/' {
        return is_target(v);
    }
    is_elsewhere(v)
}

// Whether the output's Location is right, where it is marked so.
pub fn location_right(s: &[u8], m: Mark) -> bool
    requires { MarkIn s.now m }
    ensures { result ≡ filled (value_at s.now m) && location_right (value_at s.now m) }
{
    let Mark::Once(place) = m else {
        return true;
    };
    place.len != 0 && is_location(place.of(s))
}
