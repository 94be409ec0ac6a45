//! Text values: 0 to 32 bytes.
ghost use Rattle.std.specs.Prelude.{◌≡◌, true, length, if◌then◌else◌, Some, None};
ghost use Rattle.std.specs.Option.{option_map};
ghost use Rattle.row.specs.Kinds.{rest_record};
ghost use Rattle.row.specs.Limits.{text_limit};
ghost use Rattle.row.specs.Texts.{padded, text_allowed, text_kind, text_of, text_sound};
ghost use Rattle.row.specs.Texts.{text_record};

use std::simd::prelude::*;

/// The bytes of a value's text, at most.
pub const TEXT_LIMIT: usize = 32;

/// A text as memory holds it: the bytes, and how many of them count, 0 to 32. Nothing is known of a
/// record, since lent memory can hold any; one that is not sound means the rest value, the empty
/// text.
#[derive(Clone, Copy, PartialEq, Debug)]
pub struct TextRecord {
    /// The bytes, zero behind the text.
    pub bytes: [u8; TEXT_LIMIT],
    /// How many of them are the text's.
    pub len: u8,
}

/// A text value: a record whose length is within the limit and whose bytes behind it are zero.
#[derive(Clone, Copy)]
pub struct Text {
    held: TextRecord,
    ghost sound: { text_sound held ≡ true },
}

impl TextRecord {
    // Whether it holds a text. A viewer asks this of each value in a row that a line changes: so all
    // bytes are tested at once, into a mask with a bit for each that is not zero, the first byte's
    // the lowest. Inlined, since the record is passed by value: a call would copy it.
    #[inline(always)]
    pub(crate) fn is_sound(self) -> bool
        ensures { result ≡ text_sound self }
    {
        let bytes = u8x32::from_array(self.bytes);
        let filled = bytes.simd_ne(u8x32::splat(0)).to_bitmask();
        let len = self.len as usize;
        len <= TEXT_LIMIT && filled >> len == 0
    }
}

impl From<Text> for TextRecord {
    ghost from_gives = { λ value held. held ≡ value.held };

    fn from(value: Text) -> TextRecord {
        value.held
    }
}

impl Text {
    // The rest value: no bytes.
    pub(crate) fn rest() -> Text
        ensures { result.held ≡ rest_record text_kind }
    {
        let held = TextRecord {
            bytes: [0; TEXT_LIMIT],
            len: 0,
        };
        Text { held }
    }

    /// The text with these bytes, if they are not too many.
    pub fn new(text: &[u8]) -> Option<Text>
        ensures { option_map (λ t. t.held) result
            ≡ (if text_allowed text.now then Some (text_record text.now) else None) }
    {
        if text.len() > TEXT_LIMIT {
            return None;
        }
        let mut bytes = [0u8; TEXT_LIMIT];
        bytes[..text.len()].copy_from_slice(text);
        let held = TextRecord {
            bytes,
            len: text.len() as u8,
        };
        Some(Text { held })
    }

    /// The value that a record holds, if it is sound.
    pub fn check(held: TextRecord) -> Option<Text>
        ensures { option_map (λ t. t.held) result ≡ (if text_sound held then Some held else None) }
    {
        if !held.is_sound() {
            return None;
        }
        Some(Text { held })
    }

    // The value that a record means: the one that it holds, or the rest value.
    pub(crate) fn meant_by(held: TextRecord) -> Text
        ensures { result.held ≡ (if text_sound held then held else rest_record text_kind) }
    {
        Text::check(held).unwrap_or(Text::rest())
    }

    // Writes the text, with zeros behind it, and answers its length.
    pub(crate) fn write(&self, out: &mut [u8; TEXT_LIMIT]) -> usize
        ensures length { result ≡ length (text_of self.now.held) }
        ensures bytes { out.new ≡ padded text_limit (text_of self.now.held) }
    {
        let TextRecord { bytes, len } = self.held;
        *out = bytes;
        len as usize
    }
}
