//! The lines of a stream, cut from its blocks and heard one after another.
ghost use Rattle.std.specs.Prelude.{◌≡◌, ℕ, [], OnOk};
ghost use Rattle.streams.specs.Feeding.{fresh, keep, hear_line, ended, fed, last_line, finished};
ghost use Rattle.streams.specs.Feeding.{CutAnywhere, FedAsOne, PrintsAll};
ghost use Rattle.streams.specs.LineTable.{LineTable};
ghost use Rattle.streams.specs.Long.{EnoughBeyond};
ghost use Rattle.streams.specs.Streams.{Fed, HeardLine, state_of, state_with};

use crate::ends::split_line;
use crate::hear::Hear;
use crate::held::{front, hold, without_cr};
use crate::print::push_number;
use std::alloc::{AllocError, Global};

// What hears the lines, and how many it has heard.
#[derive(Drop)]
struct Counted<H> {
    listener: H,
    count: u64,
}

impl<H: Hear> Counted<H> {
    // Hears a line, given without its end, and appends its number and the answer.
    fn hear(&mut self, line: &[u8], out: &mut Vec<u8>) -> Result<(), AllocError>
        ensures { OnOk result
            (HeardLine (hear_line H.LIMIT H.hearing (state_with self.old []) line.now)
            self.new out.old.items out.new.items) }
    {
        self.count = self.count.saturating_add(1);
        push_number(out, self.count)?;
        self.listener.hear(line, out)?;
        out.extend_from_slice(b"\n")?;
        Ok(())
    }
}

/// What hears the lines, and the first bytes of a line that has not ended.
#[derive(Drop)]
pub struct Stream<H> {
    counted: Counted<H>,
    held: Vec<u8>,
}

impl<H: Hear> Stream<H> {
    /// A stream before its first byte. How an input is cut into blocks makes no difference, and
    /// what all its blocks and its end append is what is printed of its lines. `LineTable` has some
    /// inputs and their lines. A listener to whom all lines of more than `n` bytes are one has
    /// heard enough of a line with `n + 2` bytes.
    pub fn new(heap: Global, listener: H) -> Stream<H>
        ensures state { state_of result ≡ fresh listener }
        ensures blocks { CutAnywhere H.LIMIT H.hearing }
        ensures as_one { FedAsOne H.LIMIT H.hearing }
        ensures prints { PrintsAll H.LIMIT H.hearing }
        ensures lines { LineTable }
        ensures beyond { (n : ℕ) → EnoughBeyond H.hearing n }
    {
        Stream {
            counted: Counted { listener, count: 0 },
            held: Vec::new(heap),
        }
    }

    // Hears the line whose last bytes these are. One that came whole need not be held.
    fn end_line(&mut self, bytes: &[u8], out: &mut Vec<u8>) -> Result<(), AllocError>
        ensures { OnOk result
            (Fed (ended H.LIMIT H.hearing (keep H.LIMIT H.hearing (state_of self.old) bytes.now))
            self.new out.old.items out.new.items) }
    {
        if self.held.is_empty() {
            return self.counted.hear(without_cr(front(bytes, H::LIMIT)), out);
        }
        hold(&mut self.held, bytes, H::LIMIT)?;
        self.counted.hear(without_cr(&self.held), out)?;
        self.held.clear();
        Ok(())
    }

    /// Takes some bytes of the input, and appends the answers to the lines that end in them.
    pub fn feed(&mut self, block: &[u8], out: &mut Vec<u8>) -> Result<(), AllocError>
        ensures { OnOk result
            (Fed (fed H.LIMIT H.hearing (state_of self.old) block.now)
            self.new out.old.items out.new.items) }
    {
        let mut left = block;
        loop {
            let (line, rest) = split_line(left);
            let Some(rest) = rest else {
                hold(&mut self.held, line, H::LIMIT)?;
                return Ok(());
            };
            self.end_line(line, out)?;
            left = rest;
        }
    }

    // Hears a last line that has no end, if there is one.
    fn last_line(&mut self, out: &mut Vec<u8>) -> Result<(), AllocError>
        ensures { OnOk result
            (Fed (last_line H.LIMIT H.hearing (state_of self.old))
            self.new out.old.items out.new.items) }
    {
        if !self.held.is_empty() {
            self.counted.hear(&self.held, out)?;
            self.held.clear();
        }
        Ok(())
    }

    /// The input has ended: answers a last line that has no end, if there is one, and appends what
    /// is said at the end.
    pub fn finish(&mut self, out: &mut Vec<u8>) -> Result<(), AllocError>
        ensures { OnOk result
            (Fed (finished H.LIMIT H.hearing (state_of self.old))
            self.new out.old.items out.new.items) }
    {
        self.last_line(out)?;
        self.counted.listener.close(out)
    }
}
