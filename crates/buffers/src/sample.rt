//! Deltas with either kind of value, by texts.
use row::{Change, FIELD_LIMIT, LogicRecord, Mark, Refusal, TEXT_LIMIT, Tap, TextRecord, Value};
use std::alloc::Global;
use std::process::Abort;
use std::test::*;
use waiting::Waiting;

// A delta: a character for each field from the first on, and the fields behind are same. `.` is
// same, `#` null, `$` the rest value, `2` the value `01`, any other the value of that one
// character. In a delta that is put, `,` is also same and `!` null, with the record of `1`, and `?`
// is a value by a record that is not sound: what is stored then is `.`, `#` and `$`.
pub(crate) type Spelling<'s> = &'s [u8];

// A kind of value whose records are compared, and one of its records that is not sound.
pub(crate) trait Sample: Value + PartialEq {
    fn unsound() -> Self;
}

impl Sample for TextRecord {
    fn unsound() -> TextRecord {
        TextRecord {
            bytes: [b'1'; TEXT_LIMIT],
            len: TEXT_LIMIT as u8 - 1,
        }
    }
}

impl Sample for LogicRecord {
    fn unsound() -> LogicRecord {
        LogicRecord {
            a: 2,
            b: 0,
            width: 1,
        }
    }
}

// A change with the record of a text.
fn recorded<R: Sample>(mark: Mark, text: &[u8]) -> Result<Change<R>, Fail> {
    let Some(raw) = R::read(text) else {
        return Err(Fail::new("no value has this text"));
    };
    Ok(Change { mark, raw })
}

// The change that a character stands for.
pub(crate) fn change_of<R: Sample>(field: u8) -> Result<Change<R>, Fail> {
    match field {
        b'.' => Ok(Change::same()),
        b'#' => Ok(Change::null()),
        b'$' => Ok(Change {
            mark: Mark::Value,
            raw: R::rest(),
        }),
        b'?' => Ok(Change {
            mark: Mark::Value,
            raw: R::unsound(),
        }),
        b',' => recorded(Mark::Same, b"1"),
        b'!' => recorded(Mark::Null, b"1"),
        b'2' => recorded(Mark::Value, b"01"),
        _ => recorded(Mark::Value, &[field]),
    }
}

// Puts the delta of a text for a tap, no longer than the text, and answers what the buffer does.
pub(crate) fn put<R: Sample, W: Waiting<R>>(
    alloc: Global,
    buffer: &mut W,
    tap: usize,
    text: Spelling<'_>,
) -> Result<Result<(), Refusal>, Fail> {
    let mut delta = vec![in alloc; Change::same(); text.len()]?;
    for (change, field) in delta.iter_mut().zip(text) {
        *change = change_of(*field)?;
    }
    Ok(buffer.put(Tap::try_from(tap)?, &delta))
}

// Each change is that of the text, record and all.
pub(crate) fn check_delta<R: Sample>(
    rt: &impl Abort,
    step: usize,
    changes: &[Change<R>],
    text: Spelling<'_>,
) -> Result<(), Fail> {
    assert_eq!(rt; changes.len(), FIELD_LIMIT, "step {step}");
    for (i, change) in changes.iter().enumerate() {
        let wanted = change_of::<R>(text.get(i).copied().unwrap_or(b'.'))?;
        assert_eq!(rt; change.mark, wanted.mark, "step {step}, field {i}");
        assert!(rt; change.raw == wanted.raw, "step {step}, field {i}");
    }
    Ok(())
}
