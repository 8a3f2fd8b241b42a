// Where a line of the head ends.
ghost use Rattle.std.specs.Prelude.{◌≡◌, ◌+◌, ◌-◌, ◌≤◌, length, take, drop};
ghost use Rattle.response.specs.Head.{bare_length};

// The end of the line that starts at a place and whose LF stands at end: there, or before one CR.
pub fn bare_end(t: &[u8], at: usize, end: usize) -> usize
    requires { (at ≤ end) × (end ≤ length t.now) }
    ensures { result ≡ at + bare_length (take (end - at) (drop at t.now)) }
{
    if end != at && t[end - 1] == b'\r' {
        return end - 1;
    }
    end
}
