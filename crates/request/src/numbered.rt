//! A number behind a word, as text.
ghost use Rattle.std.specs.Prelude.{◌≡◌, ◌≤◌, ◌++◌, length, decimal};
ghost use Rattle.tlcp.specs.Bounds.{bounded_text};

use tlcp::Bounded;

// A byte, and the digits of the largest number of 32 bits.
const ROOM: usize = 11;

pub(crate) fn numbered(front: &[u8], n: u32) -> Bounded<ROOM>
    requires { length front.now ≤ 1 }
    ensures { bounded_text result ≡ front.now ++ decimal n }
{
    let mut text = Bounded::new();
    // there is room for both
    let _ = text.put(front);
    let _ = text.put_number(u64::from(n));
    text
}
