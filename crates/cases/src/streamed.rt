//! A stream of lines, cut into blocks, and answered from a reader to a writer.
ghost use Rattle.std.specs.Prelude.{ℕ};
ghost use Rattle.cases.specs.Echoes.{echoes, echoes-enough};

use row::Fault;
use std::alloc::AllocError;
use std::cell::Cell;
use std::io::{self, ErrorKind, Read, Write};
use std::process::Abort;
use std::test::*;
use streams::{Hear, Stream, answer_all, hold, push_refusal};

// Repeats each line of up to five bytes.
#[derive(Drop)]
struct Echo;

impl Hear for Echo {
    ghost LIMIT = { 7 };

    const LIMIT: usize = 7;

    ghost hearing = { echoes };

    fn hear(&mut self, line: &[u8], out: &mut Vec<u8>) -> Result<(), AllocError> {
        if line.len() > 5 {
            return out.extend_from_slice(b" long");
        }
        out.extend_from_slice(b" ")?;
        out.extend_from_slice(line)
    }

    fn close(&self, out: &mut Vec<u8>) -> Result<(), AllocError> {
        out.extend_from_slice(b".")
    }

    ghost enough = { echoes-enough };
}

// Lines end with LF or CR LF, an empty one counts, a long one is
// told by its first seven bytes, and the last needs no end.
const INPUT: &[u8] = b"ab\r\nc\n\nseventh\r\nlast\r";

const OUTPUT: &[u8] = b"1 ab\n2 c\n3 \n4 long\n5 last\r\n.";

// The input, cut in several ways.
const CUTS: [&[&[u8]]; 4] = [
    &[INPUT],
    &[b"ab\r", b"\nc\n\nseven", b"th\r\nlast\r"],
    &[
        b"a",
        b"b",
        b"\r",
        b"\n",
        b"c\n",
        b"\nseventh\r\nlas",
        b"t\r",
    ],
    &[b"ab\r\n", b"c\n", b"\n", b"seventh\r\n", b"last\r"],
];

#[test]
fn streamed_in_blocks(rt: HostRuntime) -> Result<(), Fail> {
    for (i, blocks) in CUTS.iter().enumerate() {
        let mut stream = Stream::new(rt.alloc(), Echo);
        let mut out = Vec::new(rt.alloc());
        for block in *blocks {
            stream.feed(block, &mut out)?;
        }
        stream.finish(&mut out)?;
        assert_eq!(rt; out.as_slice(), OUTPUT, "cut {i}");
    }
    Ok(())
}

#[test]
fn streamed_from_a_reader(rt: HostRuntime) -> Result<(), Fail> {
    let mut input = INPUT;
    let mut output = Vec::new(rt.alloc());
    answer_all(&rt, Echo, &mut input, &mut output)?;
    assert_eq!(rt; output.as_slice(), OUTPUT);
    Ok(())
}

// What is said of an input that comes in one block.
fn check_streamed(rt: &(impl Abort + AllocGlobal), input: &[u8], text: &[u8]) -> Result<(), Fail> {
    let mut left = input;
    let mut output = Vec::new(rt.alloc());
    answer_all(rt, Echo, &mut left, &mut output)?;
    assert_eq!(rt; output.as_slice(), text);
    Ok(())
}

// A last line without an end counts if it has a byte, and its CR is its own.
#[test]
fn last_lines(rt: HostRuntime) -> Result<(), Fail> {
    check_streamed(&rt, b"", b".")?;
    check_streamed(&rt, b"a", b"1 a\n.")?;
    check_streamed(&rt, b"\r", b"1 \r\n.")?;
    check_streamed(&rt, b"a\nb", b"1 a\n2 b\n.")?;
    check_streamed(&rt, b"\r\n", b"1 \n.")
}

// An input that waits for answers: each block comes when just so many bytes have been written.
#[derive(Drop)]
struct Waiting<'a> {
    blocks: &'a [(usize, &'a [u8])],
    written: &'a Cell<usize>,
}

impl Read for Waiting<'_> {
    fn read(&mut self, out: &mut [u8]) -> io::Result<usize> {
        let [(answered, block), rest @ ..] = self.blocks else {
            return Err(ErrorKind::UnexpectedEof.into());
        };
        if self.written.get() != *answered || block.len() > out.len() {
            return Err(ErrorKind::WouldBlock.into());
        }
        out[..block.len()].copy_from_slice(block);
        self.blocks = rest;
        Ok(block.len())
    }
}

// Counts the bytes that are written.
#[derive(Drop)]
struct Counting<'a> {
    written: &'a Cell<usize>,
}

impl Write for Counting<'_> {
    fn write(&mut self, bytes: &[u8]) -> io::Result<usize> {
        self.written
            .set(self.written.get().saturating_add(bytes.len()));
        Ok(bytes.len())
    }

    fn flush(&mut self) -> io::Result<()> {
        Ok(())
    }
}

// Whatever a block ends is answered before the next one is asked for.
#[test]
fn answered_before_the_next_block(rt: HostRuntime) -> Result<(), Fail> {
    let written = Cell::new(0);
    let mut input = Waiting {
        blocks: &[
            (0, b"ab\r\nc\n"),
            (9, b"d"),
            (9, b"\n"),
            (13, b"e"),
            (13, b""),
        ],
        written: &written,
    };
    let mut output = Counting { written: &written };
    answer_all(&rt, Echo, &mut input, &mut output)?;
    assert_eq!(rt; written.get(), 18);
    Ok(())
}

#[test]
fn refusals_and_held_bytes(rt: HostRuntime) -> Result<(), Fail> {
    let mut out = Vec::new(rt.alloc());
    push_refusal(&mut out, Fault::Cover.at(6))?;
    assert_eq!(rt; out.as_slice(), b" no 7 6".as_slice());
    hold(&mut out, b", it is", 9)?;
    assert_eq!(rt; out.as_slice(), b" no 7 6, ".as_slice());
    Ok(())
}
