//! Value lists, written and read back.
use crate::refused::number;
use row::{Change, FIELD_LIMIT, Mark, TEXT_LIMIT, TextRecord, Value};
use std::process::Abort;
use std::test::*;
use tlcp::{LIST_LIMIT, read_list, write_list};

type Row = [(Mark, &'static [u8]); FIELD_LIMIT];

// Each kind of change, with runs of four same and of three.
const MIXED: Row = [
    (Mark::Value, b"#"),
    (Mark::Value, b"a#"),
    (Mark::Null, b""),
    (Mark::Value, b""),
    (Mark::Same, b""),
    (Mark::Same, b""),
    (Mark::Same, b""),
    (Mark::Same, b""),
    (Mark::Value, b",\xff"),
    (Mark::Same, b""),
    (Mark::Same, b""),
    (Mark::Same, b""),
];

fn delta_of(row: &Row) -> [Change<TextRecord>; FIELD_LIMIT] {
    let mut delta = [Change::same(); FIELD_LIMIT];
    for (change, (mark, text)) in delta.iter_mut().zip(row.iter()) {
        if let Some(raw) = <TextRecord as Value>::read(text) {
            *change = Change { mark: *mark, raw };
        }
    }
    delta
}

// Whether a change has this mark, and its record this text.
fn says(change: &Change<TextRecord>, mark: Mark, text: &[u8]) -> bool {
    let mut bytes = [0; TEXT_LIMIT];
    let len = change.raw.write(&mut bytes);
    change.mark == mark && len == text.len() && bytes.starts_with(text)
}

// Checks the list of so many fields of a row, or the number of its refusal.
fn check_list(
    rt: &impl Abort,
    row: &Row,
    fields: usize,
    list: Result<&[u8], u8>,
) -> Result<(), Fail> {
    let mut out = [b'?'; LIST_LIMIT];
    let written = write_list(&mut out, 0, &delta_of(row), fields);
    let len = written.map_err(number);
    assert_eq!(rt; len, list.map(|list| list.len()), "{fields} fields");
    assert!(rt; out.starts_with(list.unwrap_or(b"")), "{fields} fields");
    Ok(())
}

#[test]
fn lists(rt: HostRuntime) -> Result<(), Fail> {
    let table: [(usize, Result<&[u8], u8>); 10] = [
        (0, Err(7)),
        (1, Ok(b"%23")),
        (2, Ok(b"%23|a#")),
        (4, Ok(b"%23|a#|#|$")),
        (5, Ok(b"%23|a#|#|$|")),
        (7, Ok(b"%23|a#|#|$|||")),
        (8, Ok(b"%23|a#|#|$|^4")),
        (9, Ok(b"%23|a#|#|$|^4|%2C%FF")),
        (12, Ok(b"%23|a#|#|$|^4|%2C%FF|||")),
        (13, Err(7)),
    ];
    for (fields, list) in table.iter() {
        check_list(&rt, &MIXED, *fields, *list)?;
    }
    check_list(
        &rt,
        &[(Mark::Same, b""); FIELD_LIMIT],
        FIELD_LIMIT,
        Ok(b"^12"),
    )
}

#[test]
fn read_back(rt: HostRuntime) -> Result<(), Fail> {
    let mut delta = [Change::same(); FIELD_LIMIT];
    assert!(rt; read_list(b"%23|a#|#|$|^4|%2C%FF|||", FIELD_LIMIT, &mut delta).is_ok());
    for (i, (change, (mark, text))) in delta.iter().zip(MIXED.iter()).enumerate() {
        assert!(rt; says(change, *mark, text), "field {i}");
    }
    Ok(())
}
