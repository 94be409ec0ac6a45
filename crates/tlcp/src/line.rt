//! Lines from the emulator.
ghost use Rattle.std.specs.Prelude.{◌≡◌};
ghost use Rattle.tlcp.specs.Lines.{ReadsSaid, read_line};
ghost use Rattle.tlcp.specs.Said.{said};

use crate::argument::{Code, Number};
use crate::arguments::Arguments;
use crate::part::Placed;
use crate::tag::Tag;
use row::{Fault, Refusal};

/// The bytes that a line may have, without its end.
pub const LINE_LIMIT: usize = 1172;

/// A part of a line: its bytes, and the offset of the first.
pub type Part<'a> = Placed<'a, LINE_LIMIT>;

/// What a line says, a case for each tag. Numbers and codes come with the part that writes them;
/// texts and the value list of U are parts as they stand in the line, escapes and all.
#[derive(Clone, Copy)]
pub enum Notification<'a> {
    Probe,
    Sync(Number<'a>),
    Loop(Number<'a>),
    Cons(Part<'a>),
    Servname(Part<'a>),
    Clientip(Part<'a>),
    Reqok(Part<'a>),
    Unsub(Number<'a>),
    Conerr(Code<'a>, Part<'a>),
    End(Code<'a>, Part<'a>),
    Error(Code<'a>, Part<'a>),
    Eos {
        id: Number<'a>,
        item: Number<'a>,
    },
    Subok {
        id: Number<'a>,
        items: Number<'a>,
        fields: Number<'a>,
    },
    Ov {
        id: Number<'a>,
        item: Number<'a>,
        lost: Number<'a>,
    },
    Conf {
        id: Number<'a>,
        frequency: Part<'a>,
        filter: Part<'a>,
    },
    U {
        id: Number<'a>,
        item: Number<'a>,
        values: Part<'a>,
    },
    Reqerr {
        request: Part<'a>,
        code: Code<'a>,
        message: Part<'a>,
    },
    Conok {
        session: Part<'a>,
        limit: Number<'a>,
        keepalive: Number<'a>,
        link: Part<'a>,
    },
}

/// A line's tag as it stands in the line, and what the line says.
#[derive(Clone, Copy)]
pub struct Line<'a> {
    pub tag: Part<'a>,
    pub says: Notification<'a>,
}

/// Reads a line, given without its end. Refuses, in this order: with 16 one of more than
/// `LINE_LIMIT` bytes; with 5 an unknown tag; with 6 a missing argument, at the line's end, or one
/// of PROBE, at its offset; and then, from left to right, with 4 a number or code, at its offset,
/// and with 3 a text, at the `%` that begins no escape. The value list of U is not read.
pub fn read_line(line: &[u8]) -> Result<Line<'_>, Refusal>
    ensures answer { said result ≡ read_line line.now }
    ensures said { ReadsSaid }
{
    if line.len() > LINE_LIMIT {
        return Err(Fault::Length.at(0));
    }
    let (name, left) = Part { bytes: line, at: 0 }.cut(b',');
    let tag = Tag::of(name.bytes).ok_or(Fault::Unknown.at(0))?;
    let arguments = Arguments {
        left,
        end: line.len(),
    };
    Ok(Line {
        tag: name,
        says: arguments.says(tag)?,
    })
}
