//! Bytes, as they are spelled on one line.
ghost use Rattle.std.specs.Prelude.{◌≡◌, ◌++◌, OnOk};
ghost use Rattle.request.specs.Spelling.{spelled, spelled_byte};

use std::alloc::AllocError;
use tlcp::hex_digits;

fn push_byte(out: &mut Vec<u8>, b: u8) -> Result<(), AllocError>
    ensures { OnOk result (out.new.items ≡ out.old.items ++ spelled_byte b) }
{
    match b {
        b'\r' => out.extend_from_slice(b"\\r"),
        b'\n' => out.extend_from_slice(b"\\n"),
        b'\\' => out.extend_from_slice(b"\\\\"),
        b' '..=b'~' => out.extend_from_slice(&[b]),
        _ => {
            let [high, low] = hex_digits(b);
            out.extend_from_slice(&[b'\\', b'x', high, low])
        }
    }
}

// Appends bytes as they are spelled on one line.
pub(crate) fn push_spelled(out: &mut Vec<u8>, text: &[u8]) -> Result<(), AllocError>
    ensures { OnOk result (out.new.items ≡ out.old.items ++ spelled text.now) }
{
    for b in text {
        push_byte(out, *b)?;
    }
    Ok(())
}
