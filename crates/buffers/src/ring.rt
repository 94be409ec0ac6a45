//! The ring: a queue of 16 pairs whose rows stay where they are. A put writes behind the last row,
//! a drop goes on to the next one, and behind the memory's last row comes its first. Of rows that
//! are no longer in use nothing is promised.
ghost use Rattle.std.specs.Prelude.{◌≡◌, ◌+◌, ◌*◌, ◌≤◌, ◌<◌, ◌++◌, ◌∷◌, [], true, false, Ok};
ghost use Rattle.std.specs.Prelude.{length, map, take, drop};
ghost use Rattle.std.specs.List.{list_all};
ghost use Rattle.row.specs.Limits.{field_limit};
ghost use Rattle.row.specs.Records.{change_of};
ghost use Rattle.row.specs.Rows.{all_same};
ghost use Rattle.row.specs.Taps.{is_tap};
ghost use Rattle.waiting.specs.Limits.{pair_limit, queue_limit};
ghost use Rattle.waiting.specs.Lists.{pair, without};
ghost use Rattle.waiting.specs.Policies.{first};
ghost use Rattle.waiting.specs.Rows.{rows_wait};
ghost use Rattle.buffers.specs.Turning.{turned};

use row::{Change, FIELD_LIMIT, Fault, Refusal, Tap, Value, all_same, blank};
use waiting::{
    OverSlice, PAIR_LIMIT, Pair, QUEUE_LIMIT, Unfit, Waiting, copy_changes, filled, row_at,
    store_row,
};

// Tap numbers and no `Tap`, as in `Queue`.
/// Up to `PAIR_LIMIT` pairs in as many rows of the lent memory, from the row on where the ring
/// stands.
#[derive(Drop)]
pub struct Ring<'a, R: Value> {
    changes: &'a mut [Change<R>],
    taps: [usize; PAIR_LIMIT],
    start: usize,
    len: usize,
    ghost whole: { length changes.now ≡ queue_limit },
    ghost known: { list_all is_tap taps ≡ true },
    ghost inside: { start < pair_limit },
    ghost few: { len ≤ pair_limit },
    ghost busy: { rows_wait R.kind len (turned (field_limit * start) changes.now) ≡ true },
}

impl<R: Value> Ring<'_, R> {
    ghost use Rattle.buffers.specs.Rings.{ringed};

    // Puts a pair behind the last.
    fn push(&mut self, number: usize, row: &[Change<R>])
        requires room { self.old.len < pair_limit }
        requires known { is_tap number ≡ true }
        requires whole { length row.now ≡ field_limit }
        requires changes { all_same (map (change_of R.kind) row.now) ≡ false }
        ensures len { self.new.len ≡ self.old.len + 1 }
        ensures list { ringed R.kind self.new
            ≡ ringed R.kind self.old ++ pair number (map (change_of R.kind) row.now) ∷ [] }
        ensures lent { self.new.changes.ghost_name ≡ self.old.changes.ghost_name }
    {
        let i = (self.start + self.len) % PAIR_LIMIT;
        // never refused: there is a row for each pair
        let _ = store_row(self.changes, i, row);
        self.taps[i] = number;
        self.len += 1;
    }

    // The first pair: its tap's number, and a copy of its delta.
    fn read_first(&self) -> (usize, [Change<R>; FIELD_LIMIT])
        requires { 0 < self.now.len }
        ensures { first (ringed R.kind self.now)
            ≡ Ok (pair result.0 (map (change_of R.kind) result.1)) }
    {
        let mut row = [Change::same(); FIELD_LIMIT];
        // never refused: a row has as many places
        let _ = copy_changes(row_at(self.changes, self.start), &mut row);
        (self.taps[self.start], row)
    }

    // Takes the first pair off, and puts it behind the others if it is not the tap's.
    fn turn(&mut self, number: usize)
        requires { 0 < self.old.len }
        ensures list { ringed R.kind self.new
            ≡ drop 1 (ringed R.kind self.old) ++ without number (take 1 (ringed R.kind self.old)) }
        ensures lent { self.new.changes.ghost_name ≡ self.old.changes.ghost_name }
    {
        // lent so that the checker knows that an array of twelve changes has room
        let _room = &mut *self.changes;
        let (tap, row) = self.read_first();
        self.pop();
        if tap != number {
            self.push(tap, &row);
        }
    }

    // Takes the first pair off. Its row stays as it is.
    fn pop(&mut self)
        requires { 0 < self.old.len }
        ensures len { self.new.len + 1 ≡ self.old.len }
        ensures list { ringed R.kind self.new ≡ drop 1 (ringed R.kind self.old) }
        ensures lent { self.new.changes.ghost_name ≡ self.old.changes.ghost_name }
    {
        self.len -= 1;
        self.start = (self.start + 1) % PAIR_LIMIT;
    }
}

impl<'a, R: Value> Waiting<R> for Ring<'a, R> {
    ghost use Rattle.waiting.specs.Queues.{queue};
    ghost use Rattle.waiting.specs.QueueLaws.{queue-lawful, queue-values};
    ghost use Rattle.buffers.specs.Rings.{ringed, ring-holds};

    ghost policy = { queue };

    ghost meaning = { ringed R.kind };

    ghost exact = { λ _. Unit {0} };

    ghost lent = { λ r. r.changes.ghost_name };

    ghost lawful = { queue-lawful };

    ghost keeps_values = { queue-values R.kind.allowed };

    ghost holdable = { λ r.
        ring-holds R.kind r.start r.len r.taps r.changes.now r.few r.whole r.known r.busy };

    fn takes(&self, _: Tap) -> bool {
        self.len < PAIR_LIMIT
    }

    fn put(&mut self, tap: Tap, delta: &[Change<R>]) -> Result<(), Refusal> {
        let whole = filled(delta)?;
        if !self.takes(tap) {
            return Err(Fault::Full.at(0));
        }
        if all_same(&whole) {
            return Ok(());
        }
        // lent so that the checker knows that an array of twelve changes has room
        let _room = &mut *self.changes;
        self.push(tap.number(), &whole);
        Ok(())
    }

    fn look(&self) -> Result<Pair<'_, R>, Refusal> {
        if self.len == 0 {
            return Err(Fault::Nothing.at(0));
        }
        // never refused: the ring's numbers are taps'
        let tap = Tap::try_from(self.taps[self.start])?;
        let delta = row_at(self.changes, self.start);
        Ok(Pair { tap, delta })
    }

    fn drop_first(&mut self) -> Result<(), Refusal> {
        if self.len == 0 {
            return Err(Fault::Nothing.at(0));
        }
        self.pop();
        Ok(())
    }

    // As often as there are pairs, the first goes behind the others, unless it is the tap's.
    fn forget(&mut self, tap: Tap) {
        let mut left = self.len;
        while left > 0 {
            self.turn(tap.number());
            left -= 1;
        }
    }

    fn copy_to(&self, other: &mut Ring<'a, R>) {
        // no row of it waits while the rows change
        other.len = 0;
        // never refused: memory of a ring has one length
        let _ = copy_changes(self.changes, other.changes);
        other.taps = self.taps;
        other.start = self.start;
        other.len = self.len;
    }

    fn count(&self) -> usize {
        self.len
    }
}

impl<'a, R: Value> OverSlice<'a, R> for Ring<'a, R> {
    ghost places = { queue_limit };

    ghost memory = { λ r. r.changes.now };

    fn places() -> usize {
        QUEUE_LIMIT
    }

    fn new(changes: &'a mut [Change<R>]) -> Result<Ring<'a, R>, Unfit<'a, R>> {
        if changes.len() != QUEUE_LIMIT {
            return Err(Unfit { changes });
        }
        blank(changes);
        Ok(Ring {
            changes,
            // any tap's number
            taps: [1; PAIR_LIMIT],
            start: 0,
            len: 0,
        })
    }

    fn memory(&self) -> &[Change<R>] {
        self.changes
    }
}
