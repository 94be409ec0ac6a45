//! Marks: one joined delta waits for a tap, and taps wait by rising number.
ghost use Rattle.std.specs.Prelude.{◌≡◌, ◌+◌, ◌<◌, [], map, length, Ok, IfSome, MatchOption};
ghost use Rattle.row.specs.Limits.{cell_limit, tap_limit};
ghost use Rattle.row.specs.Records.{change_of};
ghost use Rattle.row.specs.Rows.{row_at};
ghost use Rattle.waiting.specs.Lists.{pair};
ghost use Rattle.waiting.specs.Policies.{first};

use crate::buffer::{OverSlice, Pair, Unfit, Waiting};
use crate::rows::{clear_row, copy_changes, filled, join_row, row_at};
use row::{CELL_LIMIT, Change, Fault, Refusal, TAP_LIMIT, Tap, Value, all_same, blank};

/// A row of the lent memory for each tap. A tap waits if its row has a change that is not same.
#[derive(Drop)]
pub struct Marks<'a, R> {
    changes: &'a mut [Change<R>],
    ghost whole: { length changes.now ≡ cell_limit },
}

impl<R: Value> Marks<'_, R> {
    ghost use Rattle.waiting.specs.Marks.{marks_of};

    // The index of the first tap that waits.
    fn first_waiting(&self) -> Option<usize>
        ensures inside { IfSome result (λ i. i < tap_limit) }
        ensures first { MatchOption result (marks_of R.kind self.now.changes.now ≡ [])
            (λ i. first (marks_of R.kind self.now.changes.now)
            ≡ Ok (pair (i + 1) (map (change_of R.kind) (row_at i self.now.changes.now)))) }
    {
        // by their index, since a row is a tap's by its place
        for i in 0..TAP_LIMIT {
            if !all_same(row_at(self.changes, i)) {
                return Some(i);
            }
        }
        None
    }
}

impl<'a, R: Value> Waiting<R> for Marks<'a, R> {
    ghost use Rattle.waiting.specs.Layouts.{Exact};
    ghost use Rattle.waiting.specs.Marks.{marks, marks_of, tap_rows};
    ghost use Rattle.waiting.specs.MarksLaws.{marks-lawful, marks-values, marks-hold};

    ghost policy = { marks };

    ghost meaning = { λ m. marks_of R.kind m.changes.now };

    ghost exact = { λ m. Exact R.kind tap_rows m.changes.now (marks_of R.kind m.changes.now) };

    ghost lent = { λ m. m.changes.ghost_name };

    ghost lawful = { marks-lawful };

    ghost keeps_values = { marks-values R.kind.allowed };

    ghost holdable = { λ m. marks-hold R.kind m.changes.now m.whole };

    fn takes(&self, _: Tap) -> bool {
        true
    }

    fn put(&mut self, tap: Tap, delta: &[Change<R>]) -> Result<(), Refusal> {
        let whole = filled(delta)?;
        join_row(self.changes, tap.index(), &whole);
        Ok(())
    }

    fn look(&self) -> Result<Pair<'_, R>, Refusal> {
        let i = self.first_waiting().ok_or(Fault::Nothing.at(0))?;
        // never refused: a row's place is a tap's
        let tap = Tap::try_from(i + 1)?;
        let delta = row_at(self.changes, i);
        Ok(Pair { tap, delta })
    }

    fn drop_first(&mut self) -> Result<(), Refusal> {
        let i = self.first_waiting().ok_or(Fault::Nothing.at(0))?;
        // never refused: there is a row for each tap
        let _ = clear_row(self.changes, i);
        Ok(())
    }

    fn forget(&mut self, tap: Tap) {
        // never refused: there is a row for each tap
        let _ = clear_row(self.changes, tap.index());
    }

    fn copy_to(&self, other: &mut Marks<'a, R>) {
        // never refused: memory of marks has one length
        let _ = copy_changes(self.changes, other.changes);
    }

    fn count(&self) -> usize {
        let mut count = 0;
        for i in 0..TAP_LIMIT {
            if !all_same(row_at(self.changes, i)) {
                count += 1;
            }
        }
        count
    }
}

impl<'a, R: Value> OverSlice<'a, R> for Marks<'a, R> {
    ghost places = { cell_limit };

    ghost memory = { λ m. m.changes.now };

    fn places() -> usize {
        CELL_LIMIT
    }

    fn new(changes: &'a mut [Change<R>]) -> Result<Marks<'a, R>, Unfit<'a, R>> {
        if changes.len() != CELL_LIMIT {
            return Err(Unfit { changes });
        }
        blank(changes);
        Ok(Marks { changes })
    }

    fn memory(&self) -> &[Change<R>] {
        self.changes
    }
}
