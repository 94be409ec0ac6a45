//! Requests checked line by line, as the listener of a stream.
ghost use Rattle.std.specs.Prelude.{◌≡◌};
ghost use Rattle.request.specs.Feeding.{checker, hearing};
ghost use Rattle.request.specs.Limits.{held_limit};
ghost use Rattle.request.specs.LongLines.{checker-enough};
ghost use Rattle.request.specs.Same.{ShowsSame};
ghost use Rattle.request.specs.Spelling.{ReadsSpelled};
ghost use Rattle.request.specs.SpellingTable.{SpellingTable};

use crate::answer::{SPELLED_LIMIT, push_answer};
use std::alloc::AllocError;
use streams::Hear;

/// The session whose requests are checked.
#[derive(Drop)]
pub struct Checker {
    session: u32,
}

impl Checker {
    /// What checks the requests for a session. What it shows of a request is that request again,
    /// and what it spells on a line stands for the same bytes. `SpellingTable` has lines byte by
    /// byte, with what they stand for, and which are refused with 2 or 16.
    pub fn new(session: u32) -> Checker
        ensures session { result ≡ checker session }
        ensures same { ShowsSame }
        ensures back { ReadsSpelled }
        ensures table { SpellingTable }
    {
        Checker { session }
    }
}

impl Hear for Checker {
    ghost LIMIT = { held_limit };

    // Enough to tell a line that is too long, whether CR LF ends it or LF: any such line is refused
    // with 16, whatever it spells.
    const LIMIT: usize = SPELLED_LIMIT + 2;

    ghost hearing = { hearing };

    fn hear(&mut self, line: &[u8], out: &mut Vec<u8>) -> Result<(), AllocError> {
        push_answer(out, line, self.session)
    }

    fn close(&self, _out: &mut Vec<u8>) -> Result<(), AllocError> {
        Ok(())
    }

    ghost enough = { checker-enough };
}
