//! Logic values: 1 to 32 bits, each `0`, `1`, `x` (unknown) or `z` (floating).
ghost use Rattle.std.specs.Prelude.{◌≡◌, ◌<◌, true, length, if◌then◌else◌, Some, None};
ghost use Rattle.std.specs.Option.{option_map};
ghost use Rattle.row.specs.Kinds.{rest_record};
ghost use Rattle.row.specs.Limits.{text_limit};
ghost use Rattle.row.specs.Texts.{padded};
ghost use Rattle.row.specs.Logics.{is_logic, bit_a, bit_b, char_of, bit_at, logic_allowed};
ghost use Rattle.row.specs.Logics.{logic_sound, logic_text, logic_record, logic_kind};
ghost use Rattle.row.specs.LogicsLemmas.{logic-lawful};

use crate::text::TEXT_LIMIT;
use crate::value::Value;

/// A logic value as memory holds it: the words and the width, 1 to 32. Nothing is known of a
/// record, since lent memory can hold any; one that is not sound means the rest value, one low bit.
#[derive(Clone, Copy, PartialEq, Debug)]
pub struct LogicRecord {
    /// The word a: a bit is 1 for `1` and `x`. The last character has the lowest bit.
    pub a: u32,
    /// The word b: a bit is 1 for `z` and `x`.
    pub b: u32,
    /// The number of bits.
    pub width: u8,
}

/// A logic value: a record whose width is within its limits and whose words have no bit at or above
/// it. Of a bit the words have (0, 0) for `0`, (1, 0) for `1`, (0, 1) for `z` and (1, 1) for `x`.
#[derive(Clone, Copy)]
pub struct Logic {
    held: LogicRecord,
    ghost sound: { logic_sound held ≡ true },
}

// A character's bits in the two words.
// A pair of numbers, since they are added to the words; an enum would be turned into these and
// back.
fn bits_of(character: u8) -> Option<(u32, u32)>
    ensures { result
        ≡ (if is_logic character then Some (bit_a character, bit_b character) else None) }
{
    match character as char {
        '0' => Some((0, 0)),
        '1' => Some((1, 0)),
        'x' => Some((1, 1)),
        'z' => Some((0, 1)),
        _ => None,
    }
}

// The character with these bits.
fn char_of(in_a: u32, in_b: u32) -> u8
    ensures { result ≡ char_of in_a in_b }
{
    match (in_a, in_b) {
        (0, 0) => b'0',
        (0, _) => b'z',
        (_, 0) => b'1',
        (_, _) => b'x',
    }
}

fn bit_at(word: u32, place: u8) -> u32
    requires { place < text_limit }
    ensures { result ≡ bit_at word place }
{
    (word >> place) & 1
}

impl LogicRecord {
    // Whether it holds a logic value. Inlined, as that of a text.
    #[inline(always)]
    fn is_sound(self) -> bool
        ensures { result ≡ logic_sound self }
    {
        let LogicRecord { a, b, width } = self;
        if width == 0 || width as usize > TEXT_LIMIT {
            return false;
        }
        let end = 1u64 << width;
        u64::from(a) < end && u64::from(b) < end
    }
}

impl From<Logic> for LogicRecord {
    ghost from_gives = { λ value held. held ≡ value.held };

    fn from(value: Logic) -> LogicRecord {
        value.held
    }
}

impl Logic {
    // The rest value: one low bit.
    pub(crate) fn rest() -> Logic
        ensures { result.held ≡ rest_record logic_kind }
    {
        let held = LogicRecord {
            a: 0,
            b: 0,
            width: 1,
        };
        Logic { held }
    }

    /// The value with this text, if there is one.
    pub fn new(text: &[u8]) -> Option<Logic>
        ensures { option_map (λ l. l.held) result
            ≡ (if logic_allowed text.now then Some (logic_record text.now) else None) }
    {
        if text.is_empty() || text.len() > TEXT_LIMIT {
            return None;
        }
        let mut a = 0u32;
        let mut b = 0u32;
        for character in text {
            let (in_a, in_b) = bits_of(*character)?;
            a = 2 * a + in_a;
            b = 2 * b + in_b;
        }
        let held = LogicRecord {
            a,
            b,
            width: text.len() as u8,
        };
        Some(Logic { held })
    }

    /// The value that a record holds, if it is sound.
    pub fn check(held: LogicRecord) -> Option<Logic>
        ensures { option_map (λ l. l.held) result ≡ (if logic_sound held then Some held else None) }
    {
        if !held.is_sound() {
            return None;
        }
        Some(Logic { held })
    }

    // The value that a record means: the one that it holds, or the rest value.
    pub(crate) fn meant_by(held: LogicRecord) -> Logic
        ensures { result.held ≡ (if logic_sound held then held else rest_record logic_kind) }
    {
        Logic::check(held).unwrap_or(Logic::rest())
    }

    // Writes the text, with zeros behind it, and answers its length.
    pub(crate) fn write(&self, out: &mut [u8; TEXT_LIMIT]) -> usize
        ensures length { result ≡ length (logic_text self.now.held) }
        ensures bytes { out.new ≡ padded text_limit (logic_text self.now.held) }
    {
        let LogicRecord { a, b, width } = self.held;
        *out = [0; TEXT_LIMIT];
        // By index, from the highest bit: std's contracts say nothing of the places behind those
        // that `iter_mut().take(..)` visits.
        for i in 0..width {
            let place = width - 1 - i;
            out[i as usize] = char_of(bit_at(a, place), bit_at(b, place));
        }
        width as usize
    }
}

impl Value for LogicRecord {
    ghost kind = { logic_kind };

    ghost lawful = { logic-lawful };

    fn rest() -> LogicRecord {
        Logic::rest().into()
    }

    fn read(text: &[u8]) -> Option<LogicRecord> {
        Logic::new(text).map(LogicRecord::from)
    }

    fn write(&self, out: &mut [u8; TEXT_LIMIT]) -> usize {
        Logic::meant_by(*self).write(out)
    }

    fn canonicalize(&mut self) {
        if !self.is_sound() {
            *self = Logic::rest().into();
        }
    }
}
