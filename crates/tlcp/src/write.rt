//! Bytes and numbers written into lent memory. A writer takes the memory and a place, and answers
//! the place behind what it wrote, from which its caller goes on.
ghost use Rattle.std.specs.Prelude.{◌≡◌, ◌+◌, ◌≤◌, decimal, length};
ghost use Rattle.tlcp.specs.Written.{end_or, placed, placed_or};

use itoa::Buffer;
use row::{Fault, Refusal};

// Writes bytes that have room from the place `at` on, and answers the place behind them.
pub(crate) fn place(out: &mut [u8], at: usize, bytes: &[u8]) -> usize
    requires { at + length bytes.now ≤ length out.old }
    ensures end { result ≡ at + length bytes.now }
    ensures bytes { out.new ≡ placed at bytes.now out.old }
{
    let end = at + bytes.len();
    out[at..end].copy_from_slice(bytes);
    end
}

/// Writes `bytes` from the place `at` on, and answers the place behind them. Refuses with 16 where
/// they do not fit, and has then touched nothing.
pub fn put(out: &mut [u8], at: usize, bytes: &[u8]) -> Result<usize, Refusal>
    ensures answer { result ≡ end_or at bytes.now out.old }
    ensures bytes { out.new ≡ placed_or at bytes.now out.old }
{
    if at > out.len() || bytes.len() > out.len() - at {
        return Err(Fault::Length.at(0));
    }
    let end = place(out, at, bytes);
    Ok(end)
}

/// Writes a number in decimal, as `put` writes bytes.
pub fn write_number(out: &mut [u8], at: usize, n: u64) -> Result<usize, Refusal>
    ensures answer { result ≡ end_or at (decimal n) out.old }
    ensures bytes { out.new ≡ placed_or at (decimal n) out.old }
{
    put(out, at, Buffer::new().format(n).as_bytes())
}
