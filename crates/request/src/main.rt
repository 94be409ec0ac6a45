//! Checks requests, one on each line of standard input, as the emulator would read them. Its
//! argument is the session's number, 1 to 99999; without one it is 1.
#![tactic(auto)]

ghost use Rattle.std.specs.Prelude.{OnOk};
ghost use Rattle.streams.specs.Answered.{AnswersAll, AnswersSoFar, OnReadFailure};
ghost use Rattle.request.specs.Feeding.{checker, hearing};

mod anew;
mod answer;
mod checker;
mod numbered;
mod print;
mod session;
mod unspell;

use anyhow::{Context, ensure};
use checker::Checker;
use session::session_named;
use std::env;
use std::io::{Read, Write};
use streams::{Failure, answer_all};

// What is said of any other arguments.
const USAGE: &str = "the session's number is 1 to 99999";

// The session that the program's arguments name, behind its own name: the first where they name
// none. Like `chosen` of `follow`: one function for both would take a default, a usage and a
// closure, for these five lines.
fn chosen(rt: &HostRuntime) -> anyhow::Result<u32> {
    let mut words = env::args(rt)?;
    let _ = words.next();
    let Some(word) = words.next() else {
        return Ok(1);
    };
    ensure!(words.next().is_none(), "{USAGE}");
    session_named(&word).context(USAGE)
}

/// Answers the lines of an input as requests for a session.
pub fn check<R: Read, W: Write>(
    rt: &impl AllocGlobal,
    session: u32,
    input: &mut R,
    output: &mut W,
) -> Result<(), Failure>
    ensures all { OnOk result
        (AnswersAll hearing (checker session) (R.remaining input.old) (R.remaining input.new)
        (W.contents output.old) (W.contents output.new)) }
    ensures so_far { OnReadFailure result
        (AnswersSoFar hearing (checker session) (R.remaining input.old) (R.remaining input.new)
        (W.contents output.old) (W.contents output.new)) }
{
    answer_all(rt, Checker::new(session), input, output)
}

fn main(rt: HostRuntime) -> anyhow::Result<()> {
    let session = chosen(&rt)?;
    check(&rt, session, &mut rt.stdin(), &mut rt.stdout())?;
    Ok(())
}
