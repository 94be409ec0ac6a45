//! Hears a TLCP stream on standard input, says what came of each line, and prints the open rows at
//! the end. Its argument names the kind of the values, `text` or `logic`; without one it is text.
#![tactic(auto)]

ghost use Rattle.std.specs.Prelude.{OnOk};
ghost use Rattle.streams.specs.Answered.{AnswersAll, AnswersSoFar, OnReadFailure};
ghost use Rattle.follow.specs.Feeding.{hearing};
ghost use Rattle.follow.specs.PrintedRows.{PrintsWhole, RowsHeard};

mod follower;
mod kind;
mod print;
mod rows;

use anyhow::{Context, ensure};
use follower::Follower;
use kind::Kind;
use row::{LogicRecord, TextRecord, Value};
use std::env;
use std::io::{Read, Write};
use streams::{Failure, answer_all};

// What is said of any other arguments.
const USAGE: &str = "the kind of value is text or logic";

// The kind that the program's arguments name, behind its own name: text where they name none.
// Like `chosen` of `request`: one function for both would take a default, a usage and a closure,
// for these five lines.
fn chosen(rt: &HostRuntime) -> anyhow::Result<Kind> {
    let mut words = env::args(rt)?;
    let _ = words.next();
    let Some(word) = words.next() else {
        return Ok(Kind::Text);
    };
    ensure!(words.next().is_none(), "{USAGE}");
    Kind::named(&word).context(USAGE)
}

/// Answers the lines of an input with values of a kind, and prints the open rows behind its end,
/// each as the line that the emulator writes for it.
pub fn follow<V: Value, R: Read, W: Write>(
    rt: &impl AllocGlobal,
    follower: Follower<V>,
    input: &mut R,
    output: &mut W,
) -> Result<(), Failure>
    ensures rows { PrintsWhole V.kind }
    ensures heard { RowsHeard V.kind }
    ensures all { OnOk result
        (AnswersAll (hearing V.kind) follower (R.remaining input.old) (R.remaining input.new)
        (W.contents output.old) (W.contents output.new)) }
    ensures so_far { OnReadFailure result
        (AnswersSoFar (hearing V.kind) follower (R.remaining input.old) (R.remaining input.new)
        (W.contents output.old) (W.contents output.new)) }
{
    answer_all(rt, follower, input, output)
}

fn main(rt: HostRuntime) -> anyhow::Result<()> {
    let kind = chosen(&rt)?;
    let (input, output) = (&mut rt.stdin(), &mut rt.stdout());
    match kind {
        Kind::Text => follow(&rt, Follower::<TextRecord>::new(), input, output)?,
        Kind::Logic => follow(&rt, Follower::<LogicRecord>::new(), input, output)?,
    }
    Ok(())
}
