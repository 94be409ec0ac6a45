//! Escapes: `%` and two hexadecimal digits stand for one byte.
ghost use Rattle.std.specs.Prelude.{◌≡◌, ◌<◌, ◌≤◌, true, length, IfSome, if◌then◌else◌, Some, None};
ghost use Rattle.std.specs.Prelude.{MatchResult};
ghost use Rattle.std.specs.Option.{option_map};
ghost use Rattle.tlcp.specs.Bytes.{is_hex};
ghost use Rattle.tlcp.specs.Escapes.{hex_value, unit_of, decoded, decode_answer, overlaid};

use crate::class::{Class, is_of};
use row::{Fault, Refusal};

// The value of a hexadecimal digit of either case.
// Which bytes are digits is said by the class table alone, so this asks for one.
fn hex_value(b: u8) -> u8
    requires { is_hex b ≡ true }
    ensures value { result ≡ hex_value b }
    ensures bound { result < 16 }
{
    match b {
        b'0'..=b'9' => b - b'0',
        b'A'..=b'F' => b - b'A' + 10,
        _ => b - b'a' + 10,
    }
}

/// The value of a byte as a hexadecimal digit, if it is one.
pub fn hex_of(b: u8) -> Option<u8>
    ensures value { result ≡ (if is_hex b then Some (hex_value b) else None) }
    ensures bound { IfSome result (λ n. n < 16) }
{
    is_of(b, Class::Hex).then(|| hex_value(b))
}

// The byte that the front of `s` stands for, and what is left behind it.
fn unit(s: &[u8]) -> Option<(u8, &[u8])>
    ensures { option_map (λ x. (x.0, x.1.now)) result ≡ unit_of s.now }
{
    match s {
        [b'%', h, l, rest @ ..] => Some((16 * hex_of(*h)? + hex_of(*l)?, rest)),
        [] | [b'%', ..] => None,
        [b, rest @ ..] => Some((*b, rest)),
    }
}

/// Decodes `s` into `out`, as much as there is room for, and answers how many bytes `s` stands for,
/// also where they are more. Refuses with 3, at the `%`, the first one without two hexadecimal
/// digits; `out` then has what comes before that.
pub fn decode(s: &[u8], out: &mut [u8]) -> Result<usize, Refusal>
    ensures answer { result ≡ decode_answer (decoded s.now) }
    ensures bytes { out.new ≡ overlaid (decoded s.now).bytes out.old }
    ensures within { MatchResult result (λ n. n ≤ length s.now) (λ r. r.place < length s.now) }
{
    let mut left = s;
    // the count goes on past the room
    let mut n = 0;
    while !left.is_empty() {
        let (b, rest) = unit(left).ok_or(Fault::Escape.at(s.len() - left.len()))?;
        if n < out.len() {
            out[n] = b;
        }
        n += 1;
        left = rest;
    }
    Ok(n)
}
