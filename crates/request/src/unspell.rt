//! A request on one line: `\r`, `\n`, `\\` and `\xHH` stand for bytes.
ghost use Rattle.std.specs.Prelude.{◌≡◌, ◌≤◌, [], length, Some};
ghost use Rattle.std.specs.Option.{option_map};
ghost use Rattle.request.specs.Limits.{spelled_limit};
ghost use Rattle.request.specs.Spelling.{step_of, unspelled};

use crate::answer::SPELLED_LIMIT;
use arrayvec::ArrayVec;
use tlcp::hex_of;

/// What has been read of a byte that is not yet known.
#[derive(Clone, Copy)]
pub enum Behind {
    Nothing,
    Backslash,
    /// `\x`
    Hex,
    /// `\x` and a digit
    High(u8),
}

/// What a byte of a line does: with it a byte is known, or more is read of one.
#[derive(Clone, Copy)]
pub enum Step {
    Byte(u8),
    More(Behind),
}

// The byte that two hexadecimal digits stand for.
fn byte_of(h: u8, l: u8) -> Option<Step>
    ensures { result ≡ step_of (Behind.High h) l }
{
    Some(Step::Byte(16 * hex_of(h)? + hex_of(l)?))
}

impl Behind {
    // `None` where the byte is out of place.
    fn step(self, b: u8) -> Option<Step>
        ensures { result ≡ step_of self b }
    {
        match (self, b) {
            (Behind::Nothing, b'\\') => Some(Step::More(Behind::Backslash)),
            (Behind::Nothing, _) => Some(Step::Byte(b)),
            (Behind::Backslash, b'r') => Some(Step::Byte(b'\r')),
            (Behind::Backslash, b'n') => Some(Step::Byte(b'\n')),
            (Behind::Backslash, b'\\') => Some(Step::Byte(b'\\')),
            (Behind::Backslash, b'x') => Some(Step::More(Behind::Hex)),
            (Behind::Backslash, _) => None,
            (Behind::Hex, _) => Some(Step::More(Behind::High(b))),
            (Behind::High(h), _) => byte_of(h, b),
        }
    }
}

// Puts the bytes that a line stands for into `bytes`, where nothing stands yet; `None` where there
// is another backslash in it. Lent, since to hand them on by value would copy 8 KiB for each line.
pub(crate) fn unspell(line: &[u8], bytes: &mut ArrayVec<u8, SPELLED_LIMIT>) -> Option<()>
    requires empty { bytes.old.items ≡ [] }
    requires room { length line.now ≤ spelled_limit }
    ensures { option_map (λ _. bytes.new.items) result ≡ unspelled line.now }
{
    let mut behind = Behind::Nothing;
    for b in line {
        behind = match behind.step(*b)? {
            Step::Byte(byte) => {
                bytes.push(byte);
                Behind::Nothing
            }
            Step::More(next) => next,
        };
    }
    matches!(behind, Behind::Nothing).then_some(())
}
