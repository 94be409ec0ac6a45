//! The open rows, as they are printed at the end.
ghost use Rattle.std.specs.Prelude.{◌≡◌, ◌++◌, length, OnOk};
ghost use Rattle.row.specs.Limits.{field_limit};
ghost use Rattle.follow.specs.Answers.{row_line, row_text, rows_text};

use notify::write_update;
use row::{CELL_LIMIT, Cell, Change, FIELD_LIMIT, Value, whole_row};
use std::alloc::AllocError;
use tlcp::LINE_LIMIT;
use viewer::{Entry, Viewer};

// Appends the line that the emulator writes for a row.
fn push_row<V: Value>(
    out: &mut Vec<u8>,
    id: u32,
    row: &[Cell<V>],
    fields: usize,
) -> Result<(), AllocError>
    requires { length row.now ≡ field_limit }
    ensures { OnOk result (out.new.items ≡ out.old.items ++ row_line V.kind id row.now fields) }
{
    let mut delta = [Change::same(); FIELD_LIMIT];
    // both have the places of a row
    let _ = whole_row(row, &mut delta);
    let mut line = [0; LINE_LIMIT];
    // no entry is open whose ID or field count the writer refuses
    if let Ok(len) = write_update(&mut line, 0, id, &delta, fields) {
        out.extend_from_slice(&line[..len])?;
        out.extend_from_slice(b"\n")?;
    }
    Ok(())
}

// Appends an entry's row, if it is open.
fn push_entry<V: Value>(out: &mut Vec<u8>, entry: Entry, row: &[Cell<V>]) -> Result<(), AllocError>
    requires { length row.now ≡ field_limit }
    ensures { OnOk result (out.new.items ≡ out.old.items ++ row_text V.kind entry row.now) }
{
    match entry.fields {
        Some(fields) => push_row(out, entry.id, row, fields),
        None => Ok(()),
    }
}

// Appends the open rows, in the order of the entries.
pub(crate) fn push_rows<V: Value>(
    out: &mut Vec<u8>,
    viewer: &Viewer,
    cells: &[Cell<V>; CELL_LIMIT],
) -> Result<(), AllocError>
    ensures { OnOk result
        (out.new.items ≡ out.old.items ++ rows_text V.kind viewer.now.entries cells.now) }
{
    for (entry, row) in viewer.entries().iter().zip(cells.chunks_exact(FIELD_LIMIT)) {
        push_entry(out, *entry, row)?;
    }
    Ok(())
}
