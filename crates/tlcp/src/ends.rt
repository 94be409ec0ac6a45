//! The ends of lines in a text.
ghost use Rattle.std.specs.Prelude.{◌≡◌, ◌+◌, ◌≤◌, length, IfSome};
ghost use Rattle.tlcp.specs.Dividing.{ends_here, first_end};

fn ends_here(s: &[u8]) -> bool
    ensures { result ≡ ends_here s.now }
{
    matches!(s, [b'\r', b'\n', ..])
}

/// The offset of the first CR LF, if there is one.
pub fn find_end(s: &[u8]) -> Option<usize>
    ensures value { result ≡ first_end s.now }
    ensures within { IfSome result (λ end. end + 2 ≤ length s.now) }
{
    for i in 0..s.len() {
        if ends_here(&s[i..]) {
            return Some(i);
        }
    }
    None
}
