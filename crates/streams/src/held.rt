//! The bytes of a line that has not ended. Of a long line only the first are held.
ghost use Rattle.std.specs.Prelude.{◌≡◌, take, OnOk};
ghost use Rattle.streams.specs.Held.{held_with};
ghost use Rattle.streams.specs.Lines.{bare};

use std::alloc::AllocError;

/// Holds further bytes behind those held, as long as there are no more than the limit, so that a
/// line of any length takes constant memory.
pub fn hold(held: &mut Vec<u8>, bytes: &[u8], limit: usize) -> Result<(), AllocError>
    ensures { OnOk result (held.new.items ≡ held_with limit held.old.items bytes.now) }
{
    held.extend_from_slice(front(bytes, limit.saturating_sub(held.len())))?;
    Ok(())
}

/// The first bytes of a line, no more than the limit.
pub fn front(line: &[u8], limit: usize) -> &[u8]
    ensures { result.now ≡ take limit line.now }
{
    &line[..line.len().min(limit)]
}

/// A line without the CR at its end, if it has one.
pub fn without_cr(line: &[u8]) -> &[u8]
    ensures { result.now ≡ bare line.now }
{
    match line {
        [front @ .., b'\r'] => front,
        _ => line,
    }
}
