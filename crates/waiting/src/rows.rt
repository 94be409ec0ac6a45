//! The rows of twelve changes in a buffer's memory. What is public here serves kinds of your own.
ghost use Rattle.std.specs.Prelude.{◌≡◌, ◌+◌, ◌*◌, ◌≤◌, ◌<◌, ◌++◌, ◌&&◌, ◌==◌, map, length, take};
ghost use Rattle.std.specs.Prelude.{drop, replicate, nat_le, Ok, Err, if◌then◌else◌};
ghost use Rattle.row.specs.Limits.{field_limit};
ghost use Rattle.row.specs.Records.{answer_if, change_record, joined_changes, memory_refusal};
ghost use Rattle.row.specs.Rows.{row_at, same, with_row};
ghost use Rattle.waiting.specs.Rows.{has_row, filled_changes};

use row::{Change, FIELD_LIMIT, Refusal, Value, blank, canonicalize, join_delta};

/// A delta of up to twelve changes in all the places of a row, same behind its own, each change by
/// the record of its meaning. A longer one is refused with 1.
pub fn filled<R: Value>(delta: &[Change<R>]) -> Result<[Change<R>; FIELD_LIMIT], Refusal>
    ensures { result ≡ (if nat_le (length delta.now) field_limit
        then Ok (filled_changes R.kind delta.now)
        else Err memory_refusal) }
{
    if delta.len() > FIELD_LIMIT {
        return Err(Refusal::MEMORY);
    }
    let mut whole = [Change::same(); FIELD_LIMIT];
    whole[..delta.len()].copy_from_slice(delta);
    canonicalize(&mut whole);
    Ok(whole)
}

// Whether memory has a row with this index.
fn has_row<R: Copy>(changes: &[Change<R>], i: usize) -> bool
    ensures { result ≡ has_row i changes.now }
{
    i < changes.len() / FIELD_LIMIT
}

/// The row with this index: twelve changes, or those that are left where memory ends before.
pub fn row_at<R: Copy>(changes: &[Change<R>], i: usize) -> &[Change<R>]
    ensures { result.now ≡ row_at i changes.now }
{
    let start = FIELD_LIMIT.saturating_mul(i).min(changes.len());
    let end = start.saturating_add(FIELD_LIMIT).min(changes.len());
    &changes[start..end]
}

/// Makes twelve changes the row with this index. Where memory has no such row, or they are not
/// twelve, it is refused with 1, and nothing touched.
pub fn store_row<R: Copy>(
    changes: &mut [Change<R>],
    i: usize,
    row: &[Change<R>],
) -> Result<(), Refusal>
    ensures answer { result ≡ answer_if (has_row i changes.old && length row.now == field_limit) }
    ensures changes { changes.new ≡ (if has_row i changes.old && length row.now == field_limit
        then with_row i row.now changes.old
        else changes.old) }
{
    if !has_row(changes, i) || row.len() != FIELD_LIMIT {
        return Err(Refusal::MEMORY);
    }
    let at = FIELD_LIMIT * i;
    changes[at..at + FIELD_LIMIT].copy_from_slice(row);
    Ok(())
}

/// Makes each change of the row with this index same. Where memory has no such row, it is refused
/// with 1.
pub fn clear_row<R: Value>(changes: &mut [Change<R>], i: usize) -> Result<(), Refusal>
    ensures answer { result ≡ answer_if (has_row i changes.old) }
    ensures changes { changes.new ≡ (if has_row i changes.old
        then with_row i (replicate field_limit (change_record R.kind same)) changes.old
        else changes.old) }
{
    if !has_row(changes, i) {
        return Err(Refusal::MEMORY);
    }
    let at = FIELD_LIMIT * i;
    blank(&mut changes[at..at + FIELD_LIMIT]);
    Ok(())
}

// A function, since a field's slice cannot be passed on beside another field's.
/// Copies one memory to another, which is refused with 1, and nothing touched, where their lengths
/// differ.
pub fn copy_changes<R: Copy>(from: &[Change<R>], to: &mut [Change<R>]) -> Result<(), Refusal>
    ensures answer { result ≡ answer_if (length from.now == length to.old) }
    ensures changes { to.new ≡ (if length from.now == length to.old then from.now else to.old) }
{
    if from.len() != to.len() {
        return Err(Refusal::MEMORY);
    }
    to.copy_from_slice(from);
    Ok(())
}

// Joins a delta of twelve changes to a row.
pub(crate) fn join_row<R: Value>(changes: &mut [Change<R>], i: usize, delta: &[Change<R>])
    requires inside { field_limit * i + field_limit ≤ length changes.old }
    requires whole { length delta.now ≡ field_limit }
    ensures { changes.new
        ≡ with_row i (joined_changes R.kind (row_at i changes.old) delta.now) changes.old }
{
    let at = FIELD_LIMIT * i;
    // both have the places of a row
    let _ = join_delta(&mut changes[at..at + FIELD_LIMIT], delta);
}

// Removes a row: those behind it move up, and the last one is same.
pub(crate) fn remove_row<R: Value>(changes: &mut [Change<R>], i: usize)
    requires { field_limit * i + field_limit ≤ length changes.old }
    ensures { changes.new
        ≡ take (field_limit * i) changes.old ++ (drop (field_limit * i + field_limit) changes.old
        ++ replicate field_limit (change_record R.kind same)) }
{
    changes[FIELD_LIMIT * i..].rotate_left(FIELD_LIMIT);
    let last = changes.len() - FIELD_LIMIT;
    blank(&mut changes[last..]);
}
