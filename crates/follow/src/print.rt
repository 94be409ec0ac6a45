//! The answers to lines, as they are printed.
ghost use Rattle.std.specs.Prelude.{◌≡◌, ◌++◌, OnOk};
ghost use Rattle.follow.specs.Answers.{answer_text};

use row::Refusal;
use std::alloc::AllocError;
use streams::push_refusal;
use viewer::Heard;

// Appends an answer.
// ` ok` and ` passed` are bytes: with `write!` for every line `follow` takes longer (bench/run).
#[inline(always)]
pub(crate) fn push_answer(
    out: &mut Vec<u8>,
    answer: Result<Heard, Refusal>,
) -> Result<(), AllocError>
    ensures { OnOk result (out.new.items ≡ out.old.items ++ answer_text answer) }
{
    match answer {
        Ok(Heard::Taken) => out.extend_from_slice(b" ok")?,
        Ok(Heard::Passed) => out.extend_from_slice(b" passed")?,
        Err(refusal) => push_refusal(out, refusal)?,
    }
    Ok(())
}
