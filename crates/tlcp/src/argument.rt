//! An argument of a line, read as what its place asks for.
ghost use Rattle.std.specs.Prelude.{◌≡◌};
ghost use Rattle.std.specs.Option.{option_map};
ghost use Rattle.tlcp.specs.Lines.{argument_in, code, number, text, unsound};
ghost use Rattle.tlcp.specs.Said.{coding, numbering, piece_in, wording};

use crate::escape::decode;
use crate::line::Part;
use crate::number::{Limits, read_code, read_number};

/// A part of a line, and the value that it writes in decimal.
#[derive(Clone, Copy)]
pub struct Valued<'a, T> {
    pub part: Part<'a>,
    pub value: T,
}

/// A number without a sign, as an ID or a count.
pub type Number<'a> = Valued<'a, u32>;

/// A code, which may be negative.
pub type Code<'a> = Valued<'a, i32>;

impl<'a> Part<'a> {
    /// The number that the part writes; none where it is malformed or beyond the limits.
    pub(crate) fn number(self, limits: Limits) -> Option<Number<'a>>
        ensures { option_map numbering result
            ≡ argument_in (number limits.low limits.high) (piece_in self.entry) }
    {
        let value = read_number(self.bytes, limits)?;
        Some(Valued { part: self, value })
    }

    /// The code that the part writes; none where it is malformed or beyond the limit.
    pub(crate) fn code(self) -> Option<Code<'a>>
        ensures { option_map coding result ≡ argument_in code (piece_in self.entry) }
    {
        let value = read_code(self.bytes)?;
        Some(Valued { part: self, value })
    }

    /// The part itself, as a text; none where a `%` begins no escape.
    pub(crate) fn text(self) -> Option<Part<'a>>
        ensures { option_map wording result ≡ argument_in text (piece_in self.entry) }
    {
        decode(self.bytes, &mut []).is_ok().then_some(self)
    }

    /// The offset of the first `%` that begins no escape, or where the part ends if there is none.
    pub(crate) fn unsound(self) -> usize
        ensures { result ≡ unsound (piece_in self.entry) }
    {
        match decode(self.bytes, &mut []) {
            Ok(_) => self.at + self.bytes.len(),
            Err(refusal) => self.at + refusal.place,
        }
    }
}
