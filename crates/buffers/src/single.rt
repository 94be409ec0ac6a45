//! The single: one delta waits at most, and a second one is refused until the first is dropped.
ghost use Rattle.std.specs.Prelude.{◌≡◌, true, length, replicate};
ghost use Rattle.std.specs.List.{list_all};
ghost use Rattle.std.specs.Option.{option_to_list};
ghost use Rattle.row.specs.Limits.{field_limit};
ghost use Rattle.row.specs.Records.{change_record};
ghost use Rattle.row.specs.Rows.{same};
ghost use Rattle.row.specs.Taps.{is_tap};
ghost use Rattle.waiting.specs.Rows.{rows_wait};

use row::{Change, FIELD_LIMIT, Fault, Refusal, Tap, Value, all_same, blank};
use waiting::{OverSlice, Pair, Unfit, Waiting, copy_changes, filled};

// A number and no `Tap`, as in `Queue`.
/// The number of the tap whose delta waits, if one does, and the delta: all same where none waits.
#[derive(Drop)]
pub struct Single<'a, R: Value> {
    changes: &'a mut [Change<R>],
    tap: Option<usize>,
    ghost whole: { length changes.now ≡ field_limit },
    ghost known: { list_all is_tap (option_to_list tap) ≡ true },
    ghost busy: { rows_wait R.kind (length (option_to_list tap)) changes.now ≡ true },
}

impl<R: Value> Single<'_, R> {
    // Lets nothing wait.
    fn clear(&mut self)
        ensures tap { self.new.tap ≡ None }
        ensures changes { self.new.changes.now ≡ replicate field_limit (change_record R.kind same) }
        ensures lent { self.new.changes.ghost_name ≡ self.old.changes.ghost_name }
    {
        self.tap = None;
        blank(self.changes);
    }
}

impl<'a, R: Value> Waiting<R> for Single<'a, R> {
    ghost use Rattle.waiting.specs.Layouts.{Exact};
    ghost use Rattle.waiting.specs.Queues.{queue_of, pairs_in, rows_of};
    ghost use Rattle.buffers.specs.Singles.{single-lawful, single-values, single-holds};

    ghost policy = { queue_of 1 };

    ghost meaning = { λ s. pairs_in R.kind (option_to_list s.tap) s.changes.now };

    ghost exact = { λ s.
        Exact R.kind (rows_of 1) s.changes.now
        (pairs_in R.kind (option_to_list s.tap) s.changes.now) };

    ghost lent = { λ s. s.changes.ghost_name };

    ghost lawful = { single-lawful };

    ghost keeps_values = { single-values R.kind.allowed };

    ghost holdable = { λ s. single-holds R.kind s.tap s.changes.now s.whole s.known s.busy };

    fn takes(&self, _: Tap) -> bool {
        self.tap.is_none()
    }

    #[tactic(auto, using(waiting::proofs::Putting::put_same))]
    fn put(&mut self, tap: Tap, delta: &[Change<R>]) -> Result<(), Refusal> {
        let whole = filled(delta)?;
        if !self.takes(tap) {
            return Err(Fault::Full.at(0));
        }
        if all_same(&whole) {
            return Ok(());
        }
        // never refused: the memory is one row
        let _ = copy_changes(&whole, self.changes);
        self.tap = Some(tap.number());
        Ok(())
    }

    fn look(&self) -> Result<Pair<'_, R>, Refusal> {
        let number = self.tap.ok_or(Fault::Nothing.at(0))?;
        // never refused: the single's number is a tap's
        let tap = Tap::try_from(number)?;
        Ok(Pair {
            tap,
            delta: self.changes,
        })
    }

    fn drop_first(&mut self) -> Result<(), Refusal> {
        if self.count() == 0 {
            return Err(Fault::Nothing.at(0));
        }
        self.clear();
        Ok(())
    }

    fn forget(&mut self, tap: Tap) {
        if self.tap == Some(tap.number()) {
            self.clear();
        }
    }

    fn copy_to(&self, other: &mut Single<'a, R>) {
        // nothing waits in it while the changes change
        other.tap = None;
        // never refused: memory of a single has one length
        let _ = copy_changes(self.changes, other.changes);
        other.tap = self.tap;
    }

    fn count(&self) -> usize {
        usize::from(self.tap.is_some())
    }
}

impl<'a, R: Value> OverSlice<'a, R> for Single<'a, R> {
    ghost places = { field_limit };

    ghost memory = { λ s. s.changes.now };

    fn places() -> usize {
        FIELD_LIMIT
    }

    fn new(changes: &'a mut [Change<R>]) -> Result<Single<'a, R>, Unfit<'a, R>> {
        if changes.len() != FIELD_LIMIT {
            return Err(Unfit { changes });
        }
        blank(changes);
        Ok(Single { changes, tap: None })
    }

    fn memory(&self) -> &[Change<R>] {
        self.changes
    }
}
