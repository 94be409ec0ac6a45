//! Rows and deltas as memory holds them: whatever records come in, a place without a value then
//! holds the rest record, and a value the record of its text.
use row::Mark::{self, Null, Same};
use row::{
    Cell, Change, FIELD_LIMIT, TEXT_LIMIT, TextRecord, Value, change_row, join_delta, whole_row,
};
use std::test::*;

// The record of the empty text, which is the rest value.
const EMPTY: TextRecord = TextRecord {
    bytes: [0; TEXT_LIMIT],
    len: 0,
};

// Not sound, since the bytes behind its length are not zero: as a value it means the empty text.
const UNSOUND: TextRecord = TextRecord {
    bytes: [b'?'; TEXT_LIMIT],
    len: 2,
};

// The record of a text of one byte.
fn letter(byte: u8) -> TextRecord {
    let mut bytes = [0; TEXT_LIMIT];
    bytes[0] = byte;
    TextRecord { bytes, len: 1 }
}

fn cell((null, raw): (bool, TextRecord)) -> Cell<TextRecord> {
    Cell { null, raw }
}

fn change((mark, raw): (Mark, TextRecord)) -> Change<TextRecord> {
    Change { mark, raw }
}

// A cell, a change, and the cell that the change makes of it.
#[test]
fn changed(rt: HostRuntime) -> Result<(), Fail> {
    let (a, b) = (letter(b'a'), letter(b'b'));
    let table = [
        ((true, UNSOUND), (Same, UNSOUND), (true, EMPTY)),
        ((false, a), (Same, UNSOUND), (false, a)),
        ((false, UNSOUND), (Same, b), (false, EMPTY)),
        ((false, a), (Null, UNSOUND), (true, EMPTY)),
        ((true, UNSOUND), (Null, b), (true, EMPTY)),
        ((true, UNSOUND), (Mark::Value, b), (false, b)),
        ((false, a), (Mark::Value, b), (false, b)),
        ((false, a), (Mark::Value, UNSOUND), (false, EMPTY)),
    ];
    let mut row = [Cell::null(); FIELD_LIMIT];
    let mut delta = [Change::same(); FIELD_LIMIT];
    for (i, (before, by, _)) in table.iter().enumerate() {
        row[i] = cell(*before);
        delta[i] = change(*by);
    }
    assert!(rt; change_row(&mut row, &delta).is_ok());
    for (i, (_, _, after)) in table.iter().enumerate() {
        assert_eq!(rt; (row[i].null, row[i].raw), *after, "cell {i}");
    }
    Ok(())
}

// An earlier change, a later one, and their join.
#[test]
fn joined(rt: HostRuntime) -> Result<(), Fail> {
    let (a, b) = (letter(b'a'), letter(b'b'));
    let table = [
        ((Same, UNSOUND), (Same, b), (Same, EMPTY)),
        ((Null, UNSOUND), (Same, b), (Null, EMPTY)),
        ((Mark::Value, a), (Same, b), (Mark::Value, a)),
        ((Mark::Value, UNSOUND), (Same, b), (Mark::Value, EMPTY)),
        ((Mark::Value, a), (Null, b), (Null, EMPTY)),
        ((Same, UNSOUND), (Mark::Value, b), (Mark::Value, b)),
        ((Mark::Value, a), (Mark::Value, b), (Mark::Value, b)),
        ((Null, a), (Mark::Value, UNSOUND), (Mark::Value, EMPTY)),
    ];
    let mut earlier = [Change::same(); FIELD_LIMIT];
    let mut later = [Change::same(); FIELD_LIMIT];
    for (i, (first, second, _)) in table.iter().enumerate() {
        earlier[i] = change(*first);
        later[i] = change(*second);
    }
    assert!(rt; join_delta(&mut earlier, &later).is_ok());
    for (i, (_, _, join)) in table.iter().enumerate() {
        assert_eq!(rt; (earlier[i].mark, earlier[i].raw), *join, "change {i}");
    }
    Ok(())
}

// A cell, and the change that gives its state to any cell.
#[test]
fn whole(rt: HostRuntime) -> Result<(), Fail> {
    let (a, b) = (letter(b'a'), letter(b'b'));
    let table = [
        ((true, UNSOUND), (Null, EMPTY)),
        ((false, a), (Mark::Value, a)),
        ((false, UNSOUND), (Mark::Value, EMPTY)),
    ];
    let mut row = [Cell::null(); FIELD_LIMIT];
    let mut delta = [change((Mark::Value, b)); FIELD_LIMIT];
    for (i, (state, _)) in table.iter().enumerate() {
        row[i] = cell(*state);
    }
    assert!(rt; whole_row(&row, &mut delta).is_ok());
    for (i, (_, by)) in table.iter().enumerate() {
        assert_eq!(rt; (delta[i].mark, delta[i].raw), *by, "change {i}");
    }
    Ok(())
}
