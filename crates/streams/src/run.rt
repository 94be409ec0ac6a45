//! An input answered to its end.
ghost use Rattle.std.specs.Prelude.{◌≡◌, OnOk};
ghost use Rattle.std.specs.Io.KnownBytes.{Appends};
ghost use Rattle.streams.specs.Answered.{AnswersAll, AnswersSoFar, OnReadFailure};
ghost use Rattle.streams.specs.Feeding.{fed, finished};
ghost use Rattle.streams.specs.Streams.{state_of};

use crate::failure::Failure;
use crate::hear::Hear;
use crate::stream::Stream;
use std::alloc::Global;
use std::io::{Read, Write};

const BLOCK: usize = 65536;

/// Answers a block of the input: the answers to all lines that end in it are in the output when
/// this returns, so that a caller who waits for more input owes none. `text` is room for the
/// answers; what it held is gone.
pub fn answer_block<H: Hear, W: Write>(
    stream: &mut Stream<H>,
    block: &[u8],
    text: &mut Vec<u8>,
    output: &mut W,
) -> Result<(), Failure>
    ensures state { OnOk result
        (state_of stream.new ≡ (fed H.LIMIT H.hearing (state_of stream.old) block.now).state) }
    ensures written { OnOk result
        (Appends (W.contents output.old) (W.contents output.new)
        (fed H.LIMIT H.hearing (state_of stream.old) block.now).text) }
    ensures reads_nothing { OnReadFailure result ⊥ }
{
    text.clear();
    stream.feed(block, text).map_err(Failure::Memory)?;
    output.write_all(text).map_err(Failure::Write)
}

// Answers a last line that has no end, if there is one, and says what there is to say at the end.
fn answer_end<H: Hear, W: Write>(
    heap: Global,
    stream: &mut Stream<H>,
    output: &mut W,
) -> Result<(), Failure>
    ensures written { OnOk result
        (Appends (W.contents output.old) (W.contents output.new)
        (finished H.LIMIT H.hearing (state_of stream.old)).text) }
    ensures reads_nothing { OnReadFailure result ⊥ }
{
    let mut text = Vec::new(heap);
    stream.finish(&mut text).map_err(Failure::Memory)?;
    output.write_all(&text).map_err(Failure::Write)
}

/// Answers the lines of an input, in order and each with its number, and says what there is to say
/// at its end. Each block that is read is answered before the next read, which may wait for input:
/// where a read fails, all lines that had ended before are answered.
pub fn answer_all<H: Hear, R: Read, W: Write>(
    rt: &impl AllocGlobal,
    listener: H,
    input: &mut R,
    output: &mut W,
) -> Result<(), Failure>
    ensures all { OnOk result
        (AnswersAll H.hearing listener (R.remaining input.old) (R.remaining input.new)
        (W.contents output.old) (W.contents output.new)) }
    ensures so_far { OnReadFailure result
        (AnswersSoFar H.hearing listener (R.remaining input.old) (R.remaining input.new)
        (W.contents output.old) (W.contents output.new)) }
{
    let mut stream = Stream::new(rt.alloc(), listener);
    let mut text = Vec::new(rt.alloc());
    let mut block = [0u8; BLOCK];
    // A reader may never end, and each loop has to.
    for _ in 0..u64::MAX {
        let n = match input.read(&mut block) {
            Ok(0) => break,
            Ok(n) => n,
            Err(error) => return Err(Failure::Read(error)),
        };
        answer_block(&mut stream, &block[..n], &mut text, output)?;
    }
    answer_end(rt.alloc(), &mut stream, output)
}
