//! A request that is being written into lent bytes.
ghost use Rattle.std.specs.Prelude.{◌≡◌, ◌≤◌, List, [], length, is_some, true, IfOk, ◌==◌};
ghost use Rattle.std.specs.Result.{result_map_both};
ghost use Rattle.requests.specs.Limits.{request_limit};
ghost use Rattle.compose.specs.Written as written;
ghost use Rattle.compose.specs.Written.{assign, head_text};
ghost use Rattle.compose.specs.Drafts.{add_answer, add_to, begin, closed, ending, request_len};
ghost use Rattle.compose.specs.Drafts.{left_by, length_or};
ghost use Rattle.compose.specs.Made.{Made, len_of};
ghost use Rattle.compose.specs.Held.{Holds, WithinLimit, finish_answer, finish_bytes, pairs_after};
ghost use Rattle.compose.specs.ReadBack.{ReadsBack};
ghost use Rattle.compose.specs.Refused.{Refusals};

use crate::assignment::Assignment;
use crate::part::{put_head, put_pair};
use requests::{Name, PARAMETER_COUNT, Parameter, VALUE_LIMIT, is_in};
use row::{Fault, Refusal};
use tlcp::Worded;

// How much of a request is written, and which parameters it has, each marked at its index.
#[derive(Clone, Copy)]
struct Begun {
    len: usize,
    given: [bool; PARAMETER_COUNT],
}

impl Begun {
    // Whether only the name and its CR LF are written.
    fn is_bare(&self, name: Name) -> bool
        ensures { result ≡ (self.now.len == length (head_text name)) }
    {
        self.len == name.word().len() + 2
    }
}

// The length of a request, if it is one: its name fitted, and it has a pair.
fn request_len(begun: Option<Begun>, name: Name) -> Result<usize, Refusal>
    ensures { result ≡ request_len name (is_some begun) (len_of begun) }
{
    let begun = begun.ok_or(Fault::Length.at(0))?;
    if begun.is_bare(name) {
        return Err(Fault::Parts.at(0));
    }
    Ok(begun.len)
}

/// A writer of one request, which holds the lent bytes until the request is finished.
///
/// `new` zeroes the bytes and writes the name, `add` adds one pair after another, and `finish`
/// hands the bytes back with the request in them. A password may be among the pairs, so a writer
/// that goes before it is finished leaves only zeros.
pub struct RequestWriter<'a> {
    out: &'a mut [u8],
    name: Name,
    // none where the bytes are too few for the name: nothing is written to them then
    begun: Option<Begun>,
    // set by `finish` alone
    kept: bool,
    // whatever was called, what is begun holds some pairs as a writer takes them
    ghost made: { Made name begun },
}

/// The receipt of a finished request: how many of the bytes it takes, from the first on. The bytes
/// behind it are zeros.
#[derive(Clone, Copy)]
pub struct Finished {
    pub len: usize,
}

impl Drop for RequestWriter<'_> {
    ghost use Rattle.compose.specs.Writers.{draft_of};

    /// Zeroes all the lent bytes, unless `finish` set the kept flag or nothing was written.
    fn drop(self)
        ensures { self.exit.0.now ≡ left_by (draft_of self.entry) }
    {
        let RequestWriter {
            out,
            name: _,
            begun,
            kept,
        } = self;
        if begun.is_some() && !kept {
            out.fill(0);
        }
    }
}

// `lent`, in two contracts, says that the writer still holds the bytes that it was made over; by
// it a caller knows what its own bytes are when the writer is gone.
impl<'a> RequestWriter<'a> {
    ghost use Rattle.compose.specs.Writers.{draft_of};

    /// A writer of a request with this name. It zeroes the lent bytes and begins them with the
    /// name and CR LF; bytes that are too few for these it never touches, and each later call is
    /// refused with 16. The clause `refusals` is a table of what the writer refuses, by number.
    pub fn new(out: &'a mut [u8], name: Name) -> RequestWriter<'a>
        ensures draft { draft_of result ≡ begin name out.old }
        ensures pairs { (draft_of result).begun ≡ true → Holds (draft_of result) [] }
        ensures lent { result.out.ghost_name ≡ out.entry.ghost_name }
        ensures refusals { Refusals }
    {
        let begun = put_head(out, name).ok().map(|len| Begun {
            len,
            given: [false; PARAMETER_COUNT],
        });
        RequestWriter {
            out,
            name,
            begun,
            kept: false,
        }
    }

    /// Adds a pair behind those before it, the value with all but its unreserved bytes escaped.
    ///
    /// Refused with 16 where the name did not fit the bytes, with 6 for a parameter that is none of
    /// the name's or was added before, and then with 16 for a value of more than `VALUE_LIMIT`
    /// bytes or a pair that does not fit. A refused pair changes nothing.
    pub fn add(&mut self, parameter: Parameter, value: &[u8]) -> Result<(), Refusal>
        ensures answer { result ≡ add_answer (draft_of self.old) (assign parameter value.now) }
        ensures draft { draft_of self.new
            ≡ add_to (draft_of self.old) (assign parameter value.now) }
        ensures pairs { (xs : List written.Assignment) → Holds (draft_of self.old) xs
            → Holds (draft_of self.new) (pairs_after result xs (assign parameter value.now)) }
        ensures lent { self.new.out.ghost_name ≡ self.old.out.ghost_name }
    {
        let mut begun = self.begun.ok_or(Fault::Length.at(0))?;
        let i = parameter.index();
        if begun.given[i] || !is_in(parameter, self.name.parameters()) {
            return Err(Fault::Parts.at(0));
        }
        if value.len() > VALUE_LIMIT {
            return Err(Fault::Length.at(0));
        }
        let first = begun.is_bare(self.name);
        begun.len = put_pair(
            self.out,
            begun.len,
            first,
            Assignment::new(parameter, value),
        )?;
        begun.given[i] = true;
        self.begun = Some(begun);
        Ok(())
    }

    /// Ends the request: the bytes are the lender's again, with the request in them and zeros
    /// behind it. A request takes at most `requests::REQUEST_LIMIT` bytes.
    ///
    /// Refused with 16 where the name did not fit the bytes, which are then as they were, and with
    /// 6 where no pair was added; the bytes are then zeros.
    pub fn finish(self) -> Result<Finished, Refusal>
        ensures answer { result_map_both (λ f. f.len) (λ e. e) result
            ≡ length_or (ending (draft_of self.entry)) }
        ensures bytes { self.exit.0.now ≡ left_by (closed (draft_of self.entry)) }
        ensures pairs { (xs : List written.Assignment) → Holds (draft_of self.entry) xs
            → (result_map_both (λ f. f.len) (λ e. e) result ≡ finish_answer self.entry.name xs)
            × (self.exit.0.now ≡ finish_bytes self.entry.name xs (length self.entry.out.now)) }
        ensures limit { IfOk result (λ f. f.len ≤ request_limit) }
        ensures within { WithinLimit }
        ensures reads { ReadsBack }
    {
        let RequestWriter {
            out,
            name,
            begun,
            kept: _,
        } = self;
        let answer = request_len(begun, name);
        // let go when this returns, and leaves the bytes of a finished request
        let _closing = RequestWriter {
            out,
            name,
            begun,
            kept: answer.is_ok(),
        };
        answer.map(|len| Finished { len })
    }
}
