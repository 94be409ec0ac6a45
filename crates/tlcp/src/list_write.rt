//! Value lists: writing. A list is first written into a buffer, with a pipe before each value.
ghost use Rattle.std.specs.Prelude.{◌≡◌, ◌+◌, ◌*◌, ◌≤◌, [], map, length, IfOk};
ghost use Rattle.row.specs.Limits.{field_limit, text_limit};
ghost use Rattle.row.specs.Records.{change_of};
ghost use Rattle.tlcp.specs.Bounds.{Adds, bounded_text};
ghost use Rattle.tlcp.specs.Lists.{each_piped, run_values, text_value, written_values};
ghost use Rattle.tlcp.specs.Written.{covers, field_room, list_limit, piped_limit, values_of};
ghost use Rattle.tlcp.specs.Written.{list_answer, list_placed, ReadBack};

use crate::bounded::Bounded;
use crate::class::Class;
use crate::list::UNCOVERED;
use crate::write::put;
use row::{Change, FIELD_LIMIT, Mark, Refusal, TEXT_LIMIT, Value};

// For each field a pipe and a text whose bytes are all escaped.
const PIPED_LIMIT: usize = (3 * TEXT_LIMIT + 1) * FIELD_LIMIT;

/// The bytes of the longest list that is written: no pipe stands before the first value.
pub const LIST_LIMIT: usize = PIPED_LIMIT - 1;

type Piped = Bounded<PIPED_LIMIT>;

// Each of the next three asks for the room of all that it puts, so that nothing is put in part.

// A text as a value.
fn put_text(list: &mut Piped, text: &[u8]) -> Result<(), Refusal>
    requires short { length text.now ≤ text_limit }
    requires room { length (bounded_text list.old) + 3 * text_limit ≤ piped_limit }
    ensures { Adds (bounded_text list.old) (text_value text.now) result (bounded_text list.new) }
{
    match text {
        [] => list.put(b"$"),
        [first, rest @ ..] => {
            list.append_escaped(&[*first], Class::EscapedFirst);
            list.append_escaped(rest, Class::Escaped);
            Ok(())
        }
    }
}

// A run of same, each value behind a pipe.
fn put_run(list: &mut Piped, run: usize) -> Result<(), Refusal>
    requires few { run ≤ field_limit }
    requires room { length (bounded_text list.old) + field_room * run ≤ piped_limit }
    ensures { Adds (bounded_text list.old) (each_piped (run_values run)) result
        (bounded_text list.new) }
{
    if run <= 3 {
        let pipes = [b'|'; 3];
        return list.put(&pipes[..run]);
    }
    list.put(b"|^")?;
    list.put_number(run as u64)
}

// The value of a change, behind a pipe. One that is same has none of its own.
fn put_change<R: Value>(list: &mut Piped, change: &Change<R>) -> Result<(), Refusal>
    requires { length (bounded_text list.old) + field_room ≤ piped_limit }
    ensures { Adds (bounded_text list.old)
        (each_piped (values_of (change_of R.kind change.now))) result (bounded_text list.new) }
{
    match change.mark {
        Mark::Same => Ok(()),
        Mark::Null => list.put(b"|#"),
        Mark::Value => {
            let mut text = [0; TEXT_LIMIT];
            let len = change.raw.write(&mut text);
            list.put(b"|")?;
            put_text(list, &text[..len])
        }
    }
}

// The values of a delta, each behind a pipe, put into an empty list.
fn put_values<R: Value>(list: &mut Piped, delta: &[Change<R>]) -> Result<(), Refusal>
    requires empty { bounded_text list.old ≡ [] }
    requires few { length delta.now ≤ field_limit }
    ensures { Adds (bounded_text list.old)
        (each_piped (written_values 0 (map (change_of R.kind) delta.now))) result
        (bounded_text list.new) }
{
    let mut run = 0;
    for change in delta {
        if change.is_same() {
            run += 1;
        } else {
            put_run(list, run)?;
            put_change(list, change)?;
            run = 0;
        }
    }
    put_run(list, run)
}

/// Whether a row may have so many fields: 1 to 12.
pub fn covers(fields: usize) -> bool
    ensures { result ≡ covers fields }
{
    matches!(fields, 1..=FIELD_LIMIT)
}

/// Writes the changes of the first `fields` fields of a delta as a list from the place `at` on, and
/// answers the place behind it. Refuses with 1 a delta that is not twelve changes, with 7 a row of
/// no or more than twelve fields, and with 16 a list that does not fit, and has then touched
/// nothing. A list has at most `LIST_LIMIT` bytes.
pub fn write_list<R: Value>(
    out: &mut [u8],
    at: usize,
    delta: &[Change<R>],
    fields: usize,
) -> Result<usize, Refusal>
    ensures answer { result ≡ list_answer R.kind delta.now fields at out.old }
    ensures bytes { out.new ≡ list_placed R.kind delta.now fields at out.old }
    ensures read_back { ReadBack R.kind delta.now fields }
    ensures short { IfOk result (λ end. end ≤ at + LIST_LIMIT) }
    ensures limit { LIST_LIMIT ≡ list_limit }
{
    if delta.len() != FIELD_LIMIT {
        return Err(Refusal::MEMORY);
    }
    if !covers(fields) {
        return Err(UNCOVERED);
    }
    let mut list = Piped::new();
    put_values(&mut list, &delta[..fields])?;
    put(out, at, &list.text()[1..])
}
