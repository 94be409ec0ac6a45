//! The parts of a request, written into lent bytes.
ghost use Rattle.std.specs.Prelude.{◌≡◌};
ghost use Rattle.tlcp.specs.Written.{end_or, placed_or};
ghost use Rattle.compose.specs.Assignments.{assignment_in};
ghost use Rattle.compose.specs.Written.{head_text, joint_text, pair_text, padded_or};

use crate::assignment::Assignment;
use requests::Name;
use row::{Fault, Refusal};
use tlcp::{Class, Worded, put, put_escaped};

// Zeros the bytes and begins them with the name and CR LF, if these fit, and answers the place
// behind them.
pub(crate) fn put_head(out: &mut [u8], name: Name) -> Result<usize, Refusal>
    ensures answer { result ≡ end_or 0 (head_text name) out.old }
    ensures bytes { out.new ≡ padded_or (head_text name) out.old }
{
    // the end first: where it fits, so does the word before it
    let word = name.word();
    let end = put(out, word.len(), b"\r\n")?;
    put(out, 0, word)?;
    out[end..].fill(0);
    Ok(end)
}

// What stands before a pair.
fn joint(first: bool) -> &'static [u8]
    ensures { result.now ≡ joint_text first }
{
    if first { b"" } else { b"&" }
}

// Writes a pair from the place `at` on, with `&` before it unless it is the first, if it fits, and
// answers the place behind it.
pub(crate) fn put_pair(
    out: &mut [u8],
    at: usize,
    first: bool,
    pair: Assignment<'_>,
) -> Result<usize, Refusal>
    ensures answer { result ≡ end_or at (pair_text first (assignment_in pair.entry)) out.old }
    ensures bytes { out.new ≡ placed_or at (pair_text first (assignment_in pair.entry)) out.old }
{
    let before = joint(first);
    let word = pair.parameter.word();
    if at > out.len() {
        return Err(Fault::Length.at(0));
    }
    // the value first: where it fits, so does what stands before it, and a pair that does not fit
    // leaves no part of itself
    let start = at + before.len() + word.len() + 1;
    let end = put_escaped(out, start, pair.value, Class::Reserved)?;
    let named = put(out, at, before)?;
    let divided = put(out, named, word)?;
    put(out, divided, b"=")?;
    Ok(end)
}
