//! The queue: deltas wait in the order in which they were put.
ghost use Rattle.std.specs.Prelude.{◌≡◌, ◌+◌, ◌≤◌, ◌<◌, true, length, remove};
ghost use Rattle.std.specs.List.{list_all};
ghost use Rattle.row.specs.Taps.{is_tap};
ghost use Rattle.waiting.specs.Limits.{pair_limit, queue_limit};
ghost use Rattle.waiting.specs.Rows.{rows_wait};

use crate::buffer::{OverSlice, Pair, Unfit, Waiting};
use crate::rows::{copy_changes, filled, remove_row, row_at, store_row};
use row::{Change, FIELD_LIMIT, Fault, Refusal, Tap, Value, all_same, blank};

/// The pairs that may wait.
pub const PAIR_LIMIT: usize = 16;

/// The changes of a queue's memory.
pub const QUEUE_LIMIT: usize = PAIR_LIMIT * FIELD_LIMIT;

// Tap numbers and no `Tap`, since a struct that holds a `&mut` may be no type argument where
// a struct in it has an invariant
/// Up to `PAIR_LIMIT` pairs: the tap of each by its number, and its delta as a row of the lent
/// memory.
#[derive(Drop)]
pub struct Queue<'a, R: Value> {
    changes: &'a mut [Change<R>],
    taps: [usize; PAIR_LIMIT],
    len: usize,
    ghost whole: { length changes.now ≡ queue_limit },
    ghost known: { list_all is_tap taps ≡ true },
    ghost few: { len ≤ pair_limit },
    ghost busy: { rows_wait R.kind len changes.now ≡ true },
}

impl<R: Value> Queue<'_, R> {
    ghost use Rattle.waiting.specs.Layouts.{Exact};
    ghost use Rattle.waiting.specs.Policies.{nothing_waits};
    ghost use Rattle.waiting.specs.Queues.{queue_rows, queued};

    // A queue where nothing waits.
    pub(crate) fn over<'a>(changes: &'a mut [Change<R>]) -> Queue<'a, R>
        requires { length changes.old ≡ queue_limit }
        ensures meaning { queued R.kind result ≡ nothing_waits }
        ensures exact { Exact R.kind queue_rows result.changes.now (queued R.kind result) }
        ensures lent { result.changes.ghost_name ≡ changes.entry.ghost_name }
    {
        blank(changes);
        Queue {
            changes,
            // any tap's number
            taps: [1; PAIR_LIMIT],
            len: 0,
        }
    }

    // Removes the pair at a place: those behind it move up.
    fn remove(&mut self, i: usize)
        requires { i < self.old.len }
        ensures len { self.new.len + 1 ≡ self.old.len }
        ensures list { queued R.kind self.new ≡ remove (queued R.kind self.old) i }
        ensures exact { Exact R.kind queue_rows self.old.changes.now (queued R.kind self.old)
            → Exact R.kind queue_rows self.new.changes.now (queued R.kind self.new) }
        ensures lent { self.new.changes.ghost_name ≡ self.old.changes.ghost_name }
    {
        self.taps[i..].rotate_left(1);
        self.len -= 1;
        remove_row(self.changes, i);
    }
}

impl<'a, R: Value> Waiting<R> for Queue<'a, R> {
    ghost use Rattle.waiting.specs.Layouts.{Exact};
    ghost use Rattle.waiting.specs.Queues.{queue, queue_rows, queued};
    ghost use Rattle.waiting.specs.QueueLaws.{queue-lawful, queue-values, queue-hold};

    ghost policy = { queue };

    ghost meaning = { queued R.kind };

    ghost exact = { λ q. Exact R.kind queue_rows q.changes.now (queued R.kind q) };

    ghost lent = { λ q. q.changes.ghost_name };

    ghost lawful = { queue-lawful };

    ghost keeps_values = { queue-values R.kind.allowed };

    ghost holdable = { λ q.
        queue-hold R.kind q.len q.taps q.changes.now q.few q.whole q.known q.busy };

    fn takes(&self, _: Tap) -> bool {
        self.len < PAIR_LIMIT
    }

    fn put(&mut self, tap: Tap, delta: &[Change<R>]) -> Result<(), Refusal> {
        let whole = filled(delta)?;
        if !self.takes(tap) {
            return Err(Fault::Full.at(0));
        }
        if all_same(&whole) {
            return Ok(());
        }
        // the row before the count: a row that is counted has a change that is not same
        let i = self.len;
        // never refused: there is a row for each pair
        let _ = store_row(self.changes, i, &whole);
        self.taps[i] = tap.number();
        self.len = i + 1;
        Ok(())
    }

    fn look(&self) -> Result<Pair<'_, R>, Refusal> {
        if self.len == 0 {
            return Err(Fault::Nothing.at(0));
        }
        // never refused: the queue's numbers are taps'
        let tap = Tap::try_from(self.taps[0])?;
        let delta = row_at(self.changes, 0);
        Ok(Pair { tap, delta })
    }

    fn drop_first(&mut self) -> Result<(), Refusal> {
        if self.len == 0 {
            return Err(Fault::Nothing.at(0));
        }
        self.remove(0);
        Ok(())
    }

    fn forget(&mut self, tap: Tap) {
        let mut i = 0;
        while i < self.len {
            if self.taps[i] == tap.number() {
                self.remove(i);
            } else {
                i += 1;
            }
        }
    }

    fn copy_to(&self, other: &mut Queue<'a, R>) {
        // no row of it waits while the rows change
        other.len = 0;
        // never refused: memory of a queue has one length
        let _ = copy_changes(self.changes, other.changes);
        other.taps = self.taps;
        other.len = self.len;
    }

    fn count(&self) -> usize {
        self.len
    }
}

impl<'a, R: Value> OverSlice<'a, R> for Queue<'a, R> {
    ghost places = { queue_limit };

    ghost memory = { λ q. q.changes.now };

    fn places() -> usize {
        QUEUE_LIMIT
    }

    fn new(changes: &'a mut [Change<R>]) -> Result<Queue<'a, R>, Unfit<'a, R>> {
        if changes.len() != QUEUE_LIMIT {
            return Err(Unfit { changes });
        }
        Ok(Queue::over(changes))
    }

    fn memory(&self) -> &[Change<R>] {
        self.changes
    }
}
