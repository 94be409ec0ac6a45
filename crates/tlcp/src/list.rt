//! Value lists: reading.
ghost use Rattle.std.specs.Prelude.{◌≡◌, ◌+◌, ◌-◌, ◌<◌, ◌≤◌, true, length, is_ok, IfErr};
ghost use Rattle.std.specs.Prelude.{if◌then◌else◌, Some, None, Ok, Err, nat_eq};
ghost use Rattle.row.specs.Limits.{field_limit};
ghost use Rattle.row.specs.Records.{memory_refusal};
ghost use Rattle.tlcp.specs.Held.{size_or, slot_after, held_delta, answer_of};
ghost use Rattle.tlcp.specs.Lists.{uncovered, values, read_text, read_content, read_value};
ghost use Rattle.tlcp.specs.Lists.{read_values, read_list, ReadsLists};

use crate::bounded::Bounded;
use crate::number::{Limits, read_number};
use crate::text::split;
use row::{Change, FIELD_LIMIT, Fault, Mark, Refusal, TEXT_LIMIT, Value, blank};

/// The refusal of a list that does not cover its row exactly, or of a row that no list covers: 7 at
/// 0, since the whole list is at fault.
pub const UNCOVERED: Refusal = Refusal {
    fault: Fault::Cover,
    place: 0,
};

// A text in the place of a value.
fn read_text<R: Value>(text: &[u8], slot: &mut Change<R>) -> Result<usize, Refusal>
    ensures answer { result ≡ size_or (read_text R.kind.allowed text.now) }
    ensures change { slot.new ≡ slot_after R.kind (read_text R.kind.allowed text.now) slot.old }
    ensures within { IfErr result (λ e. e.place ≡ 0) }
{
    let raw = R::read(text).ok_or(Fault::Value.at(0))?;
    *slot = Change {
        mark: Mark::Value,
        raw,
    };
    Ok(1)
}

// A value with escapes.
fn read_escaped<R: Value>(value: &[u8], slot: &mut Change<R>) -> Result<usize, Refusal>
    ensures answer { result ≡ size_or (read_content R.kind.allowed value.now) }
    ensures change { slot.new ≡ slot_after R.kind (read_content R.kind.allowed value.now) slot.old }
    ensures within { IfErr result (λ e. e.place ≤ length value.now) }
{
    let text = Bounded::<TEXT_LIMIT>::decoded(value)?.ok_or(Fault::Value.at(0))?;
    read_text(text.text(), slot)
}

// A value that is neither empty nor one of the marks.
fn read_content<R: Value>(value: &[u8], slot: &mut Change<R>) -> Result<usize, Refusal>
    ensures answer { result ≡ size_or (read_content R.kind.allowed value.now) }
    ensures change { slot.new ≡ slot_after R.kind (read_content R.kind.allowed value.now) slot.old }
    ensures within { IfErr result (λ e. e.place ≤ length value.now) }
{
    if value.contains(&b'%') {
        read_escaped(value, slot)
    } else {
        // most values have no escape, and need no buffer
        read_text(value, slot)
    }
}

// One value. Answers how many fields it speaks of, and sets the change of the first unless they are
// same. Places are counted from the value's first byte.
fn read_value<R: Value>(value: &[u8], slot: &mut Change<R>) -> Result<usize, Refusal>
    ensures answer { result ≡ size_or (read_value R.kind.allowed value.now) }
    ensures change { slot.new ≡ slot_after R.kind (read_value R.kind.allowed value.now) slot.old }
    ensures within { IfErr result (λ e. e.place ≤ length value.now) }
{
    match value {
        [] => Ok(1),
        [b'^', digits @ ..] => {
            let same = read_number(digits, Limits::FIELDS).ok_or(Fault::Number.at(0))?;
            Ok(same as usize)
        }
        [b'#'] => {
            *slot = Change::null();
            Ok(1)
        }
        [b'$'] => read_text(b"", slot),
        _ => read_content(value, slot),
    }
}

// Reads the values one after another into a delta that is all same.
fn read_values<R: Value>(list: &[u8], fields: usize, delta: &mut [Change<R>]) -> Result<(), Refusal>
    requires { (fields ≤ field_limit) × (delta.old ≡ held_delta R.kind (Err uncovered)) }
    ensures answer { result ≡ answer_of (read_values R.kind.allowed 0 fields (values list.now)) }
    ensures changes { is_ok result ≡ true
        → delta.new ≡ held_delta R.kind (read_values R.kind.allowed 0 fields (values list.now)) }
    ensures within { IfErr result (λ e. e.place ≤ length list.now) }
{
    let mut covered = 0;
    let mut left = list;
    while covered < fields {
        let (value, rest) = split(left, b'|');
        let more = match read_value(value, &mut delta[covered]) {
            Ok(more) => more,
            Err(refusal) => return Err(refusal.moved_by(list.len() - left.len())),
        };
        if more > fields - covered {
            return Err(UNCOVERED);
        }
        covered += more;
        let Some(rest) = rest else {
            return if covered == fields {
                Ok(())
            } else {
                Err(UNCOVERED)
            };
        };
        left = rest;
    }
    Err(UNCOVERED)
}

/// Reads a list for a row of so many fields. The delta's twelve places then hold what the list
/// says, with same behind the fields, or where it is refused twelve same. Refuses with 1 a delta
/// that is not twelve changes, which stays as it is. Then from left to right: with 3 a `%` that
/// begins no escape, with 4 a caret without a number of fields, with 8 a text that the kind does
/// not allow, each at its offset; and with 7, at 0, as soon as a value goes past the row or the
/// list ends before it.
pub fn read_list<R: Value>(
    list: &[u8],
    fields: usize,
    delta: &mut [Change<R>],
) -> Result<(), Refusal>
    ensures answer { result
        ≡ (if nat_eq (length delta.old) field_limit
        then answer_of (read_list R.kind.allowed fields list.now)
        else Err memory_refusal) }
    ensures changes { delta.new
        ≡ (if nat_eq (length delta.old) field_limit
        then held_delta R.kind (read_list R.kind.allowed fields list.now)
        else delta.old) }
    ensures within { IfErr result (λ e. e.place ≤ length list.now) }
    ensures spelled { ReadsLists }
{
    if delta.len() != FIELD_LIMIT {
        return Err(Refusal::MEMORY);
    }
    blank(delta);
    if fields > FIELD_LIMIT {
        return Err(UNCOVERED);
    }
    let read = read_values(list, fields, delta);
    if read.is_err() {
        blank(delta);
    }
    read
}
