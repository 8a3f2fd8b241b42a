// The mount that a path goes to. A mount is a header of the mounts block: its name, and the pool and the limit that its value names.
ghost use Rattle.std.specs.Prelude.{◌≡◌, true, ◌+◌, ◌≤◌, length, take, drop};
ghost use Rattle.octets.specs.Outcome.{is_good};
ghost use Rattle.mounts.specs.Mounts.{mounts_of};
ghost use Rattle.mounts.specs.Search.{slash_part, shortened, mount_outcome, place_by, search_of};

use crate::value::{Value, read_value};
use headers::lookup::seek;
use octets::refusal::Refusal;
use octets::span::Span;

// Where the last slash of a path stands.
fn last_slash(path: &[u8]) -> Option<usize>
    ensures { slash_part path.now result ≡ shortened path.now }
{
    path.iter().rposition(|&b| b == b'/')
}

// A mount, by its place.
#[derive(Clone, Copy, Debug, PartialEq, Eq)]
pub struct Mount {
    // How long its name is, with which the path begins.
    pub name_len: usize,
    // Where its pool stands in the mounts.
    pub pool: Span,
    // How many bytes a body may have.
    pub limit: u64,
}

// The mount whose name has name_len bytes, by its value, which stands at a place of the mounts.
fn found(mounts: &[u8], name_len: usize, value: Span) -> Result<Mount, Refusal>
    requires { value.start + value.len ≤ length mounts.now }
    ensures { mount_outcome result ≡ place_by name_len value.start (take value.len (drop value.start mounts.now)) }
{
    // 20: an empty pool, a second `;` or a bad limit. Mounts that were checked have none.
    let Value { len, limit } = read_value(value.of(mounts)).ok_or(Refusal::Lent)?;
    let start = value.start;
    Ok(Mount {
        name_len,
        pool: Span { start, len },
        limit,
    })
}

// The longest mount that fits a path: the path is tried as a name, then the path without its last segment, and so on.
pub fn search(mounts: &[u8], path: &[u8]) -> Result<Mount, Refusal>
    requires { is_good (mounts_of mounts.now) ≡ true }
    ensures { mount_outcome result ≡ search_of mounts.now path.now }
{
    if let Some(value) = seek(mounts, path) {
        return found(mounts, path.len(), value);
    }
    // 19: no mount fits.
    let slash = last_slash(path).ok_or(Refusal::NoMount)?;
    search(mounts, &path[..slash])
}
