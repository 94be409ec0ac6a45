//! A viewer hears lines, and keeps the rows of subscribed taps.
ghost use Rattle.std.specs.Prelude.{◌≡◌, true, false, map, length, Ok, OnErr};
ghost use Rattle.row.specs.Faults.{by_numbers, refused};
ghost use Rattle.row.specs.Limits.{field_limit, tap_limit, cell_limit};
ghost use Rattle.row.specs.Records.{cell_of};
ghost use Rattle.tlcp.specs.Said.{arguments_in, piece_in, tag_in};
ghost use Rattle.viewer.specs.Effects.{effect_of};
ghost use Rattle.viewer.specs.Entries.{find_entry, find_open, has_id, closed_with};
ghost use Rattle.viewer.specs.Hearing.{set_entry, update, hear_effect, told, heard, in_memory};
ghost use Rattle.viewer.specs.Hearing.{outcome, fitting, MeansHeard, StaysCanonical};

use crate::entry::{Entry, find_entry, find_open};
use crate::rows::{clear_row, update_row};
use row::{CELL_LIMIT, Cell, Change, FIELD_LIMIT, Refusal, TAP_LIMIT, Value, blank};
use tlcp::{Notification, Part, read_line, read_list};

/// What came of a line that was accepted.
#[derive(Clone, Copy, PartialEq, Debug)]
pub enum Heard {
    /// The line was obeyed, or asks nothing of a viewer.
    Taken,
    /// The line speaks to an entry, and no entry fits it. Nothing was changed.
    Passed,
}

// cells and changes are parameters of their own: a struct over both slices would need a clause in
// each contract that it keeps their lengths, and of a generic type the checker covers no array
/// The viewer's entries, one for each tap. The cells of the taps are lent to it with each line:
/// 96 of them, the row of the tap with index i, counted from 0, being the twelve from 12 * i on.
#[derive(Drop)]
pub struct Viewer {
    entries: [Entry; TAP_LIMIT],
}

impl Viewer {
    /// A viewer whose entries hold these IDs, 0 for none, all of them closed.
    pub fn holding(ids: [u32; TAP_LIMIT]) -> Viewer
        ensures { result.entries ≡ map closed_with ids }
    {
        Viewer {
            entries: ids.map(|id| Entry { id, fields: None }),
        }
    }

    /// The entries, in the order of the taps.
    pub fn entries(&self) -> &[Entry]
        ensures value { result.now ≡ self.now.entries }
        ensures len { length result.now ≡ tap_limit }
    {
        &self.entries
    }

    // Sets the first entry with an ID anew, open or not, and makes its row null.
    fn set_entry<R: Value>(
        &mut self,
        id: u32,
        entry: Entry,
        cells: &mut [Cell<R>],
        delta: &mut [Change<R>],
    ) -> Heard
        requires { (length cells.old ≡ cell_limit) × (length delta.old ≡ field_limit) }
        ensures { outcome self.new.entries cells.new delta.new (Ok result) ≡
            in_memory R.kind self.old.entries cells.old
            (Ok (set_entry self.old.entries (map (cell_of R.kind) cells.old) entry
            (find_entry (has_id id) self.old.entries))) }
    {
        blank(delta);
        let Some(i) = find_entry(&self.entries, id) else {
            return Heard::Passed;
        };
        self.entries[i] = entry;
        clear_row(cells, i);
        Heard::Taken
    }

    // Changes the row of the first open entry with an ID by a value list.
    fn update<R: Value>(
        &self,
        id: u32,
        values: Part<'_>,
        cells: &mut [Cell<R>],
        delta: &mut [Change<R>],
    ) -> Result<Heard, Refusal>
        requires { (length cells.old ≡ cell_limit) × (length delta.old ≡ field_limit) }
        ensures { outcome self.now.entries cells.new delta.new result ≡
            in_memory R.kind self.now.entries cells.old
            (update self.now.entries (map (cell_of R.kind) cells.old) R.kind.allowed
            (piece_in values.entry) (find_open id self.now.entries)) }
    {
        let Some((i, fields)) = find_open(&self.entries, id) else {
            blank(delta);
            return Ok(Heard::Passed);
        };
        read_list(values.bytes, fields, delta).map_err(|refusal| refusal.moved_by(values.at))?;
        update_row(cells, i, delta);
        Ok(Heard::Taken)
    }

    // Does what a message asks. The changes are same where it brings none.
    fn obey<R: Value>(
        &mut self,
        says: Notification<'_>,
        cells: &mut [Cell<R>],
        delta: &mut [Change<R>],
    ) -> Result<Heard, Refusal>
        requires { (length cells.old ≡ cell_limit) × (length delta.old ≡ field_limit) }
        ensures { outcome self.new.entries cells.new delta.new result ≡
            in_memory R.kind self.old.entries cells.old
            (hear_effect self.old.entries (map (cell_of R.kind) cells.old) R.kind.allowed
            (effect_of (tag_in says.entry) (arguments_in says.entry))) }
    {
        match says {
            Notification::Subok {
                id,
                items: _,
                fields,
            } => {
                let entry = Entry {
                    id: id.value,
                    fields: Some(fields.value as usize),
                };
                Ok(self.set_entry(id.value, entry, cells, delta))
            }
            Notification::Unsub(id) => Ok(self.set_entry(id.value, Entry::CLOSED, cells, delta)),
            Notification::U {
                id,
                item: _,
                values,
            } => self.update(id.value, values, cells, delta),
            _ => {
                blank(delta);
                Ok(Heard::Taken)
            }
        }
    }

    // Hears a line, where the lent memory is of its lengths.
    fn hear_line<R: Value>(
        &mut self,
        line: &[u8],
        cells: &mut [Cell<R>],
        delta: &mut [Change<R>],
    ) -> Result<Heard, Refusal>
        requires { (length cells.old ≡ cell_limit) × (length delta.old ≡ field_limit) }
        ensures { outcome self.new.entries cells.new delta.new result ≡
            in_memory R.kind self.old.entries cells.old
            (told R.kind self.old.entries cells.old line.now) }
    {
        match read_line(line) {
            Ok(line) => self.obey(line.says, cells, delta),
            Err(refusal) => {
                blank(delta);
                Err(refusal)
            }
        }
    }

    /// Hears a line of at most 1,172 bytes, given without its end, with the taps' 96 cells and
    /// twelve changes.
    ///
    /// `SUBOK` opens the first entry with its ID, sets its field count and makes its row null.
    /// `UNSUB` makes the ID of the first entry with its ID 0, closes it and makes its row null.
    /// `U` changes the row of the first open entry with its ID. Each leaves every other entry and
    /// row as it was, and where no entry fits, the answer is `Passed` and the values are not read.
    /// All other lines are `Taken` and change nothing.
    ///
    /// After an update that was taken the changes hold its delta, with same behind the fields, and
    /// every cell of its row holds the record of its meaning; after any other line the changes are
    /// twelve same.
    ///
    /// A line that is refused changes no entry and no cell. Its refusals are 16, 5, 6, then the
    /// arguments' 4 and 3 from left to right, and of the value list 3, 4, 7 and 8, each with its
    /// offset in the line. Before all others comes 1, where the lent memory is not 96 cells and
    /// twelve changes: then nothing is touched.
    pub fn hear<R: Value>(
        &mut self,
        line: &[u8],
        cells: &mut [Cell<R>],
        delta: &mut [Change<R>],
    ) -> Result<Heard, Refusal>
        ensures entries { self.new.entries ≡
            (heard R.kind self.old.entries cells.old delta.old line.now).entries }
        ensures cells { cells.new ≡
            (heard R.kind self.old.entries cells.old delta.old line.now).cells }
        ensures changes { delta.new ≡
            (heard R.kind self.old.entries cells.old delta.old line.now).delta }
        ensures answer { result ≡
            (heard R.kind self.old.entries cells.old delta.old line.now).answer }
        ensures means { fitting R.kind cells.old delta.old ≡ true →
            MeansHeard R.kind self.old.entries cells.old line.now
            (outcome self.new.entries cells.new delta.new result) }
        ensures canonical { StaysCanonical R.kind cells.old cells.new }
        ensures refused { OnErr result
            ((self.new.entries ≡ self.old.entries) × (cells.new ≡ cells.old)) }
        ensures unfit { fitting R.kind cells.old delta.old ≡ false →
            (by_numbers result ≡ refused 1 0) × (delta.new ≡ delta.old) }
    {
        if cells.len() != CELL_LIMIT || delta.len() != FIELD_LIMIT {
            return Err(Refusal::MEMORY);
        }
        self.hear_line(line, cells, delta)
    }
}
