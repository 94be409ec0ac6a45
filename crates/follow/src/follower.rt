//! A viewer of values of a kind, as the listener of a stream.
ghost use Rattle.std.specs.Prelude.{◌≡◌};
ghost use Rattle.follow.specs.Feeding.{held_limit, hearing, opened};
ghost use Rattle.follow.specs.LongLines.{follower-enough};

use crate::print::push_answer;
use crate::rows::push_rows;
use row::{CELL_LIMIT, Cell, Change, FIELD_LIMIT, Value};
use std::alloc::AllocError;
use streams::Hear;
use tlcp::LINE_LIMIT;
use viewer::Viewer;

/// A viewer with its memory: the cells of all taps, and the changes that it is lent for a line.
#[derive(Drop)]
pub struct Follower<V> {
    viewer: Viewer,
    cells: [Cell<V>; CELL_LIMIT],
    delta: [Change<V>; FIELD_LIMIT],
}

impl<V: Value> Follower<V> {
    /// A viewer whose entries hold the IDs 1 to 8, closed, and nothing heard.
    pub fn new() -> Follower<V>
        ensures { result ≡ opened V.kind }
    {
        Follower {
            viewer: Viewer::holding([1, 2, 3, 4, 5, 6, 7, 8]),
            cells: [Cell::null(); CELL_LIMIT],
            delta: [Change::same(); FIELD_LIMIT],
        }
    }
}

impl<V: Value> Hear for Follower<V> {
    ghost LIMIT = { held_limit };

    // Enough to tell a line that is too long, whether CR LF ends it or LF: any such line is refused
    // with 16, whatever it holds.
    const LIMIT: usize = LINE_LIMIT + 2;

    ghost hearing = { hearing V.kind };

    fn hear(&mut self, line: &[u8], out: &mut Vec<u8>) -> Result<(), AllocError> {
        let answer = self.viewer.hear(line, &mut self.cells, &mut self.delta);
        push_answer(out, answer)
    }

    // The open rows.
    fn close(&self, out: &mut Vec<u8>) -> Result<(), AllocError> {
        push_rows(out, &self.viewer, &self.cells)
    }

    ghost enough = { follower-enough V.kind };
}
