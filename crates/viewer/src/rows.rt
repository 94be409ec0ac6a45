//! A row among the cells of all taps.
ghost use Rattle.std.specs.Prelude.{◌≡◌, ◌<◌, map, length};
ghost use Rattle.row.specs.Records.{cell_of, change_of};
ghost use Rattle.row.specs.Rows.{changed, row_at};
ghost use Rattle.row.specs.Limits.{field_limit, tap_limit, cell_limit};
ghost use Rattle.viewer.specs.Hearing.{null_cells, put_row};

use row::{Cell, Change, FIELD_LIMIT, Value, change_row, nullify};

// Makes a tap's row null.
pub(crate) fn clear_row<R: Value>(cells: &mut [Cell<R>], i: usize)
    requires { (i < tap_limit) × (length cells.old ≡ cell_limit) }
    ensures { cells.new ≡ put_row R.kind i null_cells cells.old }
{
    let at = FIELD_LIMIT * i;
    nullify(&mut cells[at..at + FIELD_LIMIT]);
}

// Changes a tap's row by a delta.
pub(crate) fn update_row<R: Value>(cells: &mut [Cell<R>], i: usize, delta: &[Change<R>])
    requires { (i < tap_limit) × (length cells.old ≡ cell_limit)
        × (length delta.now ≡ field_limit) }
    ensures { cells.new ≡ put_row R.kind i
        (changed (map (cell_of R.kind) (row_at i cells.old)) (map (change_of R.kind) delta.now))
        cells.old }
{
    let at = FIELD_LIMIT * i;
    // never refused: both have the places of a row
    let _ = change_row(&mut cells[at..at + FIELD_LIMIT], delta);
}
