//! Kinds of value.
ghost use Rattle.std.specs.Prelude.{◌≡◌, ℕ, length, if◌then◌else◌, Some, None, [], codes};
ghost use Rattle.row.specs.Kinds.{Kind, Lawful, Represents, rest_record};
ghost use Rattle.row.specs.Limits.{text_limit};
ghost use Rattle.row.specs.Texts.{padded, text_kind, text_sound, text_whole};
ghost use Rattle.row.specs.Logics.{logic_kind, logic_sound};
ghost use Rattle.row.specs.Every.{text-lawful};

use crate::text::{TEXT_LIMIT, Text, TextRecord};

/// A kind of value, implemented by the plain record that stands for its values in lent memory.
pub trait Value: Copy {
    ghost kind: { Kind Self };

    /// The record of the rest value.
    fn rest() -> Self
        ensures { result ≡ rest_record kind };

    /// The record of a text, if the kind has a value with that text.
    fn read(text: &[u8]) -> Option<Self>
        ensures { result ≡ (if kind.allowed text.now then Some (kind.raw text.now) else None) };

    /// Writes the text that the record means, with zeros behind it, and answers its length.
    fn write(&self, out: &mut [u8; TEXT_LIMIT]) -> usize
        ensures length { result ≡ length (kind.text self.now) }
        ensures bytes { out.new ≡ padded text_limit (kind.text self.now) };

    /// Makes the record that of the value that it means: one that is not sound becomes the rest
    /// value's.
    fn canonicalize(&mut self)
        ensures { self.new ≡ kind.raw (kind.text self.old) };

    ghost lawful: { Lawful kind };
}

impl Value for TextRecord {
    ghost kind = { text_kind };

    ghost lawful = { text-lawful };

    fn rest() -> TextRecord {
        Text::rest().into()
    }

    fn read(text: &[u8]) -> Option<TextRecord> {
        Text::new(text).map(TextRecord::from)
    }

    fn write(&self, out: &mut [u8; TEXT_LIMIT]) -> usize {
        Text::meant_by(*self).write(out)
    }

    fn canonicalize(&mut self) {
        if !self.is_sound() {
            *self = Text::rest().into();
        }
    }
}

/// How the records of each kind stand for its values, and which texts its rest values have. Nothing
/// to run: the contract says it.
pub fn records_stand_for_values()
    ensures text { Represents text_kind text_sound text_whole }
    ensures rest { (text_kind.rest ≡ []) × (logic_kind.rest ≡ codes "0") }
    ensures logic { Represents logic_kind logic_sound logic_sound }
{}
