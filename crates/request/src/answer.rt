//! The answer to a line.
ghost use Rattle.std.specs.Prelude.{◌≡◌, ◌++◌, take, replicate, OnOk};
ghost use Rattle.std.specs.Result.{result_map_both};
ghost use Rattle.requests.specs.Limits.{request_limit};
ghost use Rattle.request.specs.Checking.{answer_text, checked};

use crate::anew::write_anew;
use crate::print::push_spelled;
use crate::unspell::unspell;
use arrayvec::ArrayVec;
use requests::{REQUEST_LIMIT, read_request};
use row::{Fault, Refusal};
use std::alloc::AllocError;
use streams::{front, push_refusal};

/// The bytes that a line may have, without its end.
pub const SPELLED_LIMIT: usize = 8192;

// Reads the request that a line spells, and writes it anew.
fn check(line: &[u8], session: u32, text: &mut [u8]) -> Result<usize, Refusal>
    requires { text.old ≡ replicate request_limit 0 }
    ensures { result_map_both (λ n. take n text.new) (λ e. e) result ≡ checked session line.now }
{
    if line.len() > SPELLED_LIMIT {
        return Err(Fault::Length.at(0));
    }
    let mut bytes = ArrayVec::new();
    unspell(line, &mut bytes).ok_or(Fault::Shape.at(0))?;
    let request = read_request(&bytes, session)?;
    write_anew(text, request, session)
}

// Appends the answer to a line, given without its end.
pub(crate) fn push_answer(out: &mut Vec<u8>, line: &[u8], session: u32) -> Result<(), AllocError>
    ensures { OnOk result
        (out.new.items ≡ out.old.items ++ answer_text (checked session line.now)) }
{
    // the request writer allocates nothing: it writes into bytes that it is lent
    let mut text = [0u8; REQUEST_LIMIT];
    match check(line, session, &mut text) {
        Ok(len) => {
            out.extend_from_slice(b" ok ")?;
            push_spelled(out, front(&text, len))?;
        }
        Err(refusal) => push_refusal(out, refusal)?,
    }
    Ok(())
}
