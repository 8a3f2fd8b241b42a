// Bytes without the spaces and tabs at both ends.
ghost use Rattle.std.specs.Prelude.{◌≡◌, ◌+◌, ◌≤◌, length, drop};
ghost use Rattle.octets.specs.Kinds.{is_blank};
ghost use Rattle.octets.specs.Scan.{run};
ghost use Rattle.octets.specs.Trim.{kept};

use crate::kinds::is_blank;
use crate::scan::end_of;

// The end of the spaces and tabs that begin at from.
pub fn blank_end(s: &[u8], from: usize) -> usize
    requires { from ≤ length s.now }
    ensures { result ≡ from + run is_blank (drop from s.now) }
{
    end_of(s, from, is_blank)
}

// How many bytes from a place on are left without the spaces and tabs at the end.
pub fn kept_len(s: &[u8], from: usize) -> usize
    requires { from ≤ length s.now }
    ensures { result ≡ kept (drop from s.now) }
{
    let mut n = s.len() - from;
    // a while: how far it comes is what is counted
    while 0 < n && is_blank(s[from + (n - 1)]) {
        n -= 1;
    }
    n
}
