//! What hears the lines of a stream.
ghost use Rattle.std.specs.Prelude.{◌≡◌, ℕ, ◌++◌, OnOk};
ghost use Rattle.streams.specs.Answers.{Enough, Hearing};
ghost use Rattle.streams.specs.Heard.{Heard};

use std::alloc::AllocError;

/// What hears the lines of an input, one after another, and answers each.
pub trait Hear: Drop {
    // So many bytes of a line are held.
    ghost LIMIT: { ℕ };

    /// So many bytes of a line are held, 1 or more. Those behind them are not heard, so the first
    /// ones have to tell the answer to the whole line: this is a law of the trait.
    const LIMIT: usize;

    // What comes of a line, of whatever length it is, and what is said at the end.
    ghost hearing: { Hearing Self };

    /// Hears a line, given without its end, and appends the answer.
    fn hear(&mut self, line: &[u8], out: &mut Vec<u8>) -> Result<(), AllocError>
        ensures { OnOk result
            (Heard hearing self.old self.new line.now out.old.items out.new.items) };

    /// Appends what is said at the end of the input.
    fn close(&self, out: &mut Vec<u8>) -> Result<(), AllocError>
        ensures { OnOk result (out.new.items ≡ out.old.items ++ hearing.closing self.now) };

    ghost enough: { Enough LIMIT hearing };
}
