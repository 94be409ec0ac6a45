//! Numbers and refusals, as they are printed.
ghost use Rattle.std.specs.Prelude.{◌≡◌, ◌++◌, codes, decimal, OnOk};
ghost use Rattle.row.specs.Faults.{printed};

use itoa::Buffer;
use row::Refusal;
use std::alloc::AllocError;

// Appends a number in decimal.
// With `write!`, which takes 200 instructions more a line, `follow` takes longer (bench/run).
#[inline(always)]
pub(crate) fn push_number(out: &mut Vec<u8>, n: u64) -> Result<(), AllocError>
    ensures { OnOk result (out.new.items ≡ out.old.items ++ decimal n) }
{
    out.extend_from_slice(Buffer::new().format(n).as_bytes())?;
    Ok(())
}

/// Appends a refusal as the answer to a line: ` no `, its number and its place.
pub fn push_refusal(out: &mut Vec<u8>, refusal: Refusal) -> Result<(), AllocError>
    ensures { OnOk result (out.new.items ≡ out.old.items ++ (codes " no " ++ printed refusal)) }
{
    out.extend_from_slice(b" no ")?;
    push_number(out, u64::from(u8::from(refusal.fault)))?;
    out.extend_from_slice(b" ")?;
    push_number(out, refusal.place as u64)
}
