//! Cells and changes as memory holds them.
ghost use Rattle.std.specs.Prelude.{◌≡◌, true, map, length, replicate, if◌then◌else◌};
ghost use Rattle.row.specs.Records.{canonical, canonical_cell, cell_of, cell_record, change_of};
ghost use Rattle.row.specs.Records.{change_record, changed_cells, joined_changes, null_cell};
ghost use Rattle.row.specs.Records.{is_same, changed_cell, whole_changes, wholly, later, rows_fit};
ghost use Rattle.row.specs.Records.{answer_if};
ghost use Rattle.row.specs.RowLaws.{RowLaws};
ghost use Rattle.row.specs.Rows.{all_same, null, value, same, becomes, over, changed, join};

use crate::fault::Refusal;
use crate::value::Value;

/// The fields that a tap may have: the cells of its row, and the changes of a delta in memory.
pub const FIELD_LIMIT: usize = 12;

/// What a change does to its cell.
#[derive(Clone, Copy, PartialEq, Debug)]
pub enum Mark {
    /// The cell stays as it is.
    Same,
    /// The cell holds no value afterwards.
    Null,
    /// The cell holds the value of the record beside the mark.
    Value,
}

// Not an enum whose cases hold the record: memory that is lent has a record in each place, and a
// case without one could not say what its bytes are.
/// A change of one field. Where it is same or null, `raw` is the kind's rest record.
#[derive(Clone, Copy)]
pub struct Change<R> {
    /// What the change does.
    pub mark: Mark,
    /// The value's record.
    pub raw: R,
}

/// A field's state. Where it is null, `raw` is the kind's rest record.
#[derive(Clone, Copy)]
pub struct Cell<R> {
    /// Whether the field holds no value.
    pub null: bool,
    /// The value's record.
    pub raw: R,
}

impl<R: Value> Cell<R> {
    /// The cell that is null.
    pub fn null() -> Cell<R>
        ensures { result ≡ null_cell R.kind }
    {
        let raw = R::rest();
        Cell { null: true, raw }
    }

    /// Makes the cell hold the record of its meaning: the rest record where it is null, the rest
    /// value's where its record is not sound.
    pub fn canonicalize(&mut self)
        ensures record { self.new ≡ canonical_cell R.kind self.old }
        ensures means { cell_of R.kind self.new ≡ cell_of R.kind self.old }
    {
        if self.null {
            self.raw = R::rest();
        } else {
            self.raw.canonicalize();
        }
    }

    /// The cell after a change, by the record of its meaning.
    pub fn changed_by(mut self, by: Change<R>) -> Cell<R>
        ensures { result ≡ changed_cell R.kind self by }
    {
        self.step(&by);
        self
    }
}

/// The change that gives any cell this one's state, by the record of its meaning.
impl<R: Value> From<Cell<R>> for Change<R> {
    ghost from_gives = { λ cell change. change ≡ wholly R.kind cell };

    fn from(cell: Cell<R>) -> Change<R> {
        if cell.null {
            return Change::null();
        }
        Change::setting(cell.raw)
    }
}

// Of any record: whether a change is same stands in its mark alone.
impl<R: Copy> Change<R> {
    /// Whether it leaves its cell as it is.
    pub fn is_same(&self) -> bool
        ensures { result ≡ is_same self.now.mark }
    {
        self.mark == Mark::Same
    }
}

impl<R: Value> Change<R> {
    /// The change that leaves its cell as it is.
    pub fn same() -> Change<R>
        ensures { result ≡ change_record R.kind same }
    {
        Change {
            mark: Mark::Same,
            raw: R::rest(),
        }
    }

    /// The change that makes its cell null.
    pub fn null() -> Change<R>
        ensures { result ≡ change_record R.kind (becomes null) }
    {
        Change {
            mark: Mark::Null,
            raw: R::rest(),
        }
    }

    // The change that makes its cell hold what a record means.
    fn setting(mut raw: R) -> Change<R>
        ensures { result ≡ change_record R.kind (becomes (value (R.kind.text raw))) }
    {
        raw.canonicalize();
        Change {
            mark: Mark::Value,
            raw,
        }
    }

    /// The change by the record that memory holds for its meaning: the rest record where it is same
    /// or null, the rest value's where its record is not sound.
    pub fn canonical(mut self) -> Change<R>
        ensures record { result ≡ canonical R.kind self }
        ensures means { change_of R.kind result ≡ change_of R.kind self }
    {
        self.canonicalize();
        self
    }

    // The same in place.
    fn canonicalize(&mut self)
        ensures { self.new ≡ canonical R.kind self.old }
    {
        match self.mark {
            Mark::Same | Mark::Null => self.raw = R::rest(),
            Mark::Value => self.raw.canonicalize(),
        }
    }

    /// The change that stands for this one and then another, by the record of its meaning.
    pub fn then(mut self, next: Change<R>) -> Change<R>
        ensures { result ≡ later R.kind self next }
    {
        self.step(&next);
        self
    }
}

// What becomes of a place by what stands in the same place of another list.
trait Step<By>: Copy {
    ghost after: { Self → By → Self };

    fn step(&mut self, by: &By)
        ensures { self.new ≡ after self.old by.now };
}

impl<R: Value> Step<Change<R>> for Cell<R> {
    ghost after = { changed_cell R.kind };

    // In place: a viewer does this for each place of a row that a line changes, and most changes
    // are same.
    fn step(&mut self, by: &Change<R>) {
        match by.mark {
            Mark::Same => self.canonicalize(),
            Mark::Null => *self = Cell::null(),
            Mark::Value => {
                self.null = false;
                self.raw = by.raw;
                self.raw.canonicalize();
            }
        }
    }
}

impl<R: Value> Step<Change<R>> for Change<R> {
    ghost after = { later R.kind };

    fn step(&mut self, by: &Change<R>) {
        // By its fields: with the change copied whole, `join_delta` takes a quarter more time.
        if !by.is_same() {
            self.mark = by.mark;
            self.raw = by.raw;
        }
        self.canonicalize();
    }
}

impl<R: Value> Step<Cell<R>> for Change<R> {
    ghost after = { λ _ c. wholly R.kind c };

    fn step(&mut self, by: &Cell<R>) {
        self.mark = if by.null { Mark::Null } else { Mark::Value };
        self.raw = by.raw;
        self.canonicalize();
    }
}

// Each place by the one of the other list, if both have the places of a row.
fn step_all<X: Step<By>, By: Copy>(places: &mut [X], by: &[By]) -> Result<(), Refusal>
    ensures answer { result ≡ answer_if (rows_fit places.old by.now) }
    ensures places { places.new
        ≡ (if rows_fit places.old by.now then over X.after places.old by.now else places.old) }
{
    if places.len() != FIELD_LIMIT || by.len() != FIELD_LIMIT {
        return Err(Refusal::MEMORY);
    }
    // By its index, since of the elements of `iter_mut().zip(by)` the contracts of std say nothing.
    for (i, place) in places.iter_mut().enumerate() {
        place.step(&by[i]);
    }
    Ok(())
}

// As `slice::fill`, whose `clone` might fail where the type is only known to be `Copy`.
fn fill<X: Copy>(places: &mut [X], x: X)
    ensures { places.new ≡ replicate (length places.old) x }
{
    for place in places.iter_mut() {
        *place = x;
    }
}

/// Makes every change same, with the rest record beside it. Any number of changes.
pub fn blank<R: Value>(delta: &mut [Change<R>])
    ensures { delta.new ≡ replicate (length delta.old) (change_record R.kind same) }
{
    fill(delta, Change::same());
}

/// Makes every cell null, with the rest record beside it. Any number of cells.
pub fn nullify<R: Value>(row: &mut [Cell<R>])
    ensures { row.new ≡ replicate (length row.old) (null_cell R.kind) }
{
    fill(row, Cell::null());
}

/// Makes each change hold the record of its meaning, and mean what it did. Any number of changes.
pub fn canonicalize<R: Value>(delta: &mut [Change<R>])
    ensures changes { delta.new ≡ map (canonical R.kind) delta.old }
    ensures means { map (change_of R.kind) delta.new ≡ map (change_of R.kind) delta.old }
{
    for change in delta.iter_mut() {
        change.canonicalize();
    }
}

/// Whether a delta leaves each cell as it is. Any number of changes; of none it is so.
pub fn all_same<R: Value>(delta: &[Change<R>]) -> bool
    ensures { result ≡ all_same (map (change_of R.kind) delta.now) }
{
    // A loop, since of the elements of a generic type `iter().all` promises nothing.
    for change in delta {
        if !change.is_same() {
            return false;
        }
    }
    true
}

/// Changes a row by a delta, each of twelve places. Every cell then holds the record of its
/// meaning, whatever record stood there. Refused with 1, and nothing touched, where either has
/// another length.
pub fn change_row<R: Value>(row: &mut [Cell<R>], delta: &[Change<R>]) -> Result<(), Refusal>
    ensures answer { result ≡ answer_if (rows_fit row.old delta.now) }
    ensures cells { row.new ≡ (if rows_fit row.old delta.now
        then changed_cells R.kind row.old delta.now
        else row.old) }
    ensures means { map (cell_of R.kind) row.new ≡ (if rows_fit row.old delta.now
        then changed (map (cell_of R.kind) row.old) (map (change_of R.kind) delta.now)
        else map (cell_of R.kind) row.old) }
{
    step_all(row, delta)
}

/// Joins a later delta to an earlier one, in place of the earlier, each of twelve changes. Every
/// change of it then holds the record of its meaning. Refused with 1, and nothing touched, where
/// either has another length.
pub fn join_delta<R: Value>(earlier: &mut [Change<R>], next: &[Change<R>]) -> Result<(), Refusal>
    ensures answer { result ≡ answer_if (rows_fit earlier.old next.now) }
    ensures changes { earlier.new ≡ (if rows_fit earlier.old next.now
        then joined_changes R.kind earlier.old next.now
        else earlier.old) }
    ensures means { map (change_of R.kind) earlier.new ≡ (if rows_fit earlier.old next.now
        then join (map (change_of R.kind) earlier.old) (map (change_of R.kind) next.now)
        else map (change_of R.kind) earlier.old) }
{
    step_all(earlier, next)
}

/// Makes a delta of a whole row, each of twelve places: every change null or a value, by the record
/// of its meaning. Refused with 1, and nothing touched, where either has another length.
pub fn whole_row<R: Value>(row: &[Cell<R>], delta: &mut [Change<R>]) -> Result<(), Refusal>
    ensures answer { result ≡ answer_if (rows_fit row.now delta.old) }
    ensures changes { delta.new ≡ (if rows_fit row.now delta.old
        then whole_changes R.kind row.now
        else delta.old) }
    ensures means { rows_fit row.now delta.old ≡ true
        → map (change_of R.kind) delta.new ≡ map becomes (map (cell_of R.kind) row.now) }
{
    step_all(delta, row)
}

/// What changing a row and joining deltas do, field by field: a cell stays where the change is
/// same, is null after null and has the value after a value; the join keeps the later change; a row
/// changed by a join is the row changed by the one delta and then by the other. Nothing to run: the
/// contract says it.
pub fn rows_keep_their_laws()
    ensures { RowLaws }
{}
