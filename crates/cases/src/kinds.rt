//! Values of each kind: their texts, their records, and what an unsound record means.
use row::{LogicRecord, TEXT_LIMIT, TextRecord, Value};
use std::process::Abort;
use std::test::*;

fn logic(a: u32, b: u32, width: u8) -> LogicRecord {
    LogicRecord { a, b, width }
}

fn read(text: &[u8]) -> Option<LogicRecord> {
    <LogicRecord as Value>::read(text)
}

// The record of a case is written as this text, with zeros behind it.
fn check_written<R: Value>(rt: &impl Abort, case: usize, raw: &R, text: &[u8]) -> Result<(), Fail> {
    let mut out = [b'?'; TEXT_LIMIT];
    assert_eq!(rt; raw.write(&mut out), text.len(), "case {case}");
    assert!(rt; out.starts_with(text), "case {case}");
    assert!(rt; out.iter().skip(text.len()).all(|b| *b == 0), "case {case}");
    Ok(())
}

#[test]
fn logic_texts(rt: HostRuntime) -> Result<(), Fail> {
    let table: [(&[u8], LogicRecord); 9] = [
        (b"0", logic(0, 0, 1)),
        (b"1", logic(1, 0, 1)),
        (b"x", logic(1, 1, 1)),
        (b"z", logic(0, 1, 1)),
        (b"01xz", logic(6, 3, 4)),
        (b"zx10", logic(6, 12, 4)),
        (b"00000001", logic(1, 0, 8)),
        (
            b"10xz10xz10xz10xz10xz10xz10xz10xz",
            logic(0xaaaa_aaaa, 0x3333_3333, 32),
        ),
        (
            b"xxxxxxxxxxxxxxxxxxxxxxxxxxxxxxxx",
            logic(0xffff_ffff, 0xffff_ffff, 32),
        ),
    ];
    for (i, (text, raw)) in table.iter().enumerate() {
        assert_eq!(rt; read(text), Some(*raw), "text {i}");
        check_written(&rt, i, raw, text)?;
    }
    Ok(())
}

#[test]
fn not_logic(rt: HostRuntime) -> Result<(), Fail> {
    let table: [&[u8]; 9] = [
        b"",
        b"2",
        b"X",
        b"Z",
        b" ",
        b"01 ",
        b"\x00",
        b"0b1",
        b"000000000000000000000000000000000",
    ];
    for (i, text) in table.iter().enumerate() {
        assert_eq!(rt; read(text), None, "text {i}");
    }
    Ok(())
}

// A width of 0 or above 32, or a bit at or above the width: all mean `0`.
#[test]
fn unsound_logic(rt: HostRuntime) -> Result<(), Fail> {
    let table = [
        logic(0, 0, 0),
        logic(1, 0, 0),
        logic(0, 0, 33),
        logic(1, 1, 255),
        logic(2, 0, 1),
        logic(0, 2, 1),
        logic(0x8000_0000, 0, 31),
        logic(0, 16, 4),
    ];
    for (i, raw) in table.iter().enumerate() {
        check_written(&rt, i, raw, b"0")?;
    }
    Ok(())
}

// The longest text is sound. A length of 33, or a byte behind the length: both mean the empty text.
#[test]
fn unsound_text(rt: HostRuntime) -> Result<(), Fail> {
    let bytes = [b'a'; TEXT_LIMIT];
    check_written(&rt, 0, &TextRecord { bytes, len: 32 }, &bytes)?;
    check_written(&rt, 1, &TextRecord { bytes, len: 33 }, b"")?;
    check_written(&rt, 2, &TextRecord { bytes, len: 31 }, b"")
}

#[test]
fn rest(rt: HostRuntime) -> Result<(), Fail> {
    check_written(&rt, 0, &<LogicRecord as Value>::rest(), b"0")?;
    check_written(&rt, 1, &<TextRecord as Value>::rest(), b"")
}
