//! Whole requests, of assignments that the caller has at hand.
ghost use Rattle.std.specs.Prelude.{◌≡◌};
ghost use Rattle.compose.specs.Composed.{ComposesAll, composing, zeroed_or};
ghost use Rattle.compose.specs.Drafts.{bytes_or, length_or};
ghost use Rattle.compose.specs.Assignments.{assignments_in};

use crate::assignment::Assignment;
use crate::request::RequestWriter;
use requests::Name;
use row::Refusal;

/// Writes a request into lent bytes, zeros behind it, and answers its length. Refused as
/// `RequestWriter` refuses: with 16 where the name does not fit, the bytes then as they were; with
/// 6 or 16 for the first pair that it does not take, and with 6 where there is none, the bytes
/// then zeros.
pub fn compose(out: &mut [u8], name: Name, pairs: &[Assignment<'_>]) -> Result<usize, Refusal>
    ensures answer { result ≡ length_or (composing name (assignments_in pairs.now) out.old) }
    ensures bytes { out.new
        ≡ bytes_or (zeroed_or name out.old) (composing name (assignments_in pairs.now) out.old) }
    ensures rooms { ComposesAll }
{
    let mut request = RequestWriter::new(out, name);
    for pair in pairs {
        request.add(pair.parameter, pair.value)?;
    }
    Ok(request.finish()?.len)
}
