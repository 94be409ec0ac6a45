//! Texts written with escapes.
ghost use Rattle.std.specs.Prelude.{◌≡◌, ◌+◌, ◌/◌, ◌%◌, ◌<◌, ◌≤◌, [], ◌∷◌, length, nat_le};
ghost use Rattle.tlcp.specs.Bytes.{in_class};
ghost use Rattle.tlcp.specs.Escapes.{encoded_by, hex_digit, spelled};
ghost use Rattle.tlcp.specs.Written.{end_or, placed, placed_or};

use crate::class::{Class, is_of};
use crate::write::place;
use row::{Fault, Refusal};

// The capital hexadecimal digit of a number below 16.
// The library's `from_digit` gives small letters.
pub(crate) fn hex_digit(n: u8) -> u8
    requires { n < 16 }
    ensures { result ≡ hex_digit n }
{
    if n <= 9 { b'0' + n } else { b'A' + (n - 10) }
}

/// The two capital hexadecimal digits of a byte.
pub fn hex_digits(b: u8) -> [u8; 2]
    ensures { result ≡ hex_digit (b / 16) ∷ hex_digit (b % 16) ∷ [] }
{
    [hex_digit(b / 16), hex_digit(b % 16)]
}

// Writes a byte that has room, with an escape where it is of the class.
fn place_byte(out: &mut [u8], at: usize, b: u8, class: Class) -> usize
    requires { at + length (spelled (in_class class b) b) ≤ length out.old }
    ensures end { result ≡ at + length (spelled (in_class class b) b) }
    ensures bytes { out.new ≡ placed at (spelled (in_class class b) b) out.old }
{
    if is_of(b, class) {
        let [high, low] = hex_digits(b);
        place(out, at, &[b'%', high, low])
    } else {
        place(out, at, &[b])
    }
}

// The places that a byte takes.
fn size(b: u8, class: Class) -> usize
    ensures { result ≡ length (spelled (in_class class b) b) }
{
    if is_of(b, class) { 3 } else { 1 }
}

// Whether a text takes no more than so many places, its bytes of the class escaped.
// Counted down from the room, since a sum of the sizes might overflow.
fn is_within(text: &[u8], class: Class, room: usize) -> bool
    ensures { result ≡ nat_le (length (encoded_by (in_class class) text.now)) room }
{
    let mut left = room;
    for b in text {
        let more = size(*b, class);
        if more > left {
            return false;
        }
        left -= more;
    }
    true
}

// Writes a text that has room from the place `at` on, its bytes of the class as escapes, and
// answers the place behind it.
pub(crate) fn place_escaped(out: &mut [u8], at: usize, text: &[u8], class: Class) -> usize
    requires { at + length (encoded_by (in_class class) text.now) ≤ length out.old }
    ensures end { result ≡ at + length (encoded_by (in_class class) text.now) }
    ensures bytes { out.new ≡ placed at (encoded_by (in_class class) text.now) out.old }
{
    let mut end = at;
    for b in text {
        end = place_byte(out, end, *b, class);
    }
    end
}

/// Writes a text from the place `at` on, its bytes of the class as escapes with capital digits, and
/// answers the place behind it. Refuses with 16 a text that does not fit, and has then touched
/// nothing.
pub fn put_escaped(out: &mut [u8], at: usize, text: &[u8], class: Class) -> Result<usize, Refusal>
    ensures answer { result ≡ end_or at (encoded_by (in_class class) text.now) out.old }
    ensures bytes { out.new ≡ placed_or at (encoded_by (in_class class) text.now) out.old }
{
    if at > out.len() || !is_within(text, class, out.len() - at) {
        return Err(Fault::Length.at(0));
    }
    Ok(place_escaped(out, at, text, class))
}
