//! Requests.
ghost use Rattle.std.specs.Prelude.{◌≡◌, ◌≤◌, length, true, if◌then◌else◌, Err, MatchOption};
ghost use Rattle.tlcp.specs.Lines.{and_then};
ghost use Rattle.row.specs.Faults.{refusal};
ghost use Rattle.std.specs.Result.{result_map_both};
ghost use Rattle.row.specs.declared.fault.Fault.TheVariants.{Parts};
ghost use Rattle.requests.specs.Answers.{asked, request_in};
ghost use Rattle.requests.specs.Asked.{ReadsAsked};
ghost use Rattle.requests.specs.Limits.{request_limit};
ghost use Rattle.requests.specs.Read.{occurrences_in};
ghost use Rattle.requests.specs.Names.{first_needs, needs};
ghost use Rattle.requests.specs.Requests.{form_of, lacks, read_form, read_named, read_request};

use crate::name::{Form, Name, Parameter};
use crate::occurrences::{Occurrences, read_pairs};
use crate::whole::Whole;
use crate::word::Word;
use row::{Fault, Refusal};
use tlcp::{Placed, find_end};

/// How many bytes a request has at most: its name, CR LF and its pairs.
pub const REQUEST_LIMIT: usize = 2048;

// A part of a request.
pub(crate) type Part<'a> = Placed<'a, REQUEST_LIMIT>;

/// What a request asks for, with its values decoded and checked. A group's number may be of any
/// size, so it stays the text that it is.
#[derive(Clone, Copy)]
pub enum Request {
    Create {
        cid: Word,
        user: Option<Word>,
        password: Option<Word>,
    },
    Bind,
    Add {
        request: Word,
        subscription: u32,
        group: Word,
    },
    Delete {
        request: Word,
        subscription: u32,
    },
    ForceRebind {
        request: Word,
    },
}

impl Occurrences {
    // The form of a request of this name, if its first needs are given.
    fn form(&self, name: Name, end: usize) -> Result<Form, Refusal>
        ensures { result ≡ (if lacks (first_needs name) (occurrences_in self.now)
            then Err (refusal Parts end) else form_of name (occurrences_in self.now)) }
    {
        if self.lack(name.first_needs()) {
            return Err(Fault::Parts.at(end));
        }
        match name {
            Name::CreateSession => Ok(Form::Create),
            Name::BindSession => Ok(Form::Bind),
            Name::Control => {
                let operation = self.given(Parameter::Operation);
                Form::of_operation(operation.word.text()).ok_or(Fault::Value.at(operation.value_at))
            }
        }
    }

    // These pairs with a form, if all that it needs is given.
    fn whole(&self, form: Form) -> Option<Whole<'_>>
        ensures { MatchOption result (lacks (needs form) (occurrences_in self.now) ≡ true)
            (λ w. (w.form ≡ form) × (w.pairs.now ≡ self.now)) }
    {
        // no `then`: a closure that makes a `Whole` would have to say by a clause of its own that
        // nothing is missing
        if self.lack(form.needs()) {
            return None;
        }
        Some(Whole { pairs: self, form })
    }

    // What the pairs ask for in this form, if they are just what it takes.
    fn read_form(&self, form: Form, end: usize, session: u32) -> Result<Request, Refusal>
        ensures { result_map_both request_in (λ e. e) result
            ≡ read_form session end (occurrences_in self.now) form }
    {
        let whole = self.whole(form).ok_or(Fault::Parts.at(end))?;
        if let Some(at) = self.unfit(form.takes()) {
            return Err(Fault::Parts.at(at));
        }
        whole.request(session)
    }

    // What the pairs ask for under this name.
    fn read_named(&self, name: Name, end: usize, session: u32) -> Result<Request, Refusal>
        ensures { result_map_both request_in (λ e. e) result
            ≡ read_named session end name (occurrences_in self.now) }
    {
        self.read_form(self.form(name, end)?, end, session)
    }
}

/// Reads a request as it is read in the session with this number: a name, CR LF, and one or more
/// pairs `parameter=value` in any order, joined by `&`.
///
/// Refused at the place of the first fault: 16 for a text of more than `REQUEST_LIMIT` bytes, 2
/// where there is no CR LF, 5 for another name; then the pairs from left to right, each with 2, 6,
/// 3, 8 or 16; then 6 for what the name needs, 8 for another operation, 6 for what the operation
/// needs and for what it does not have; and 4 or 8 for a value that its parameter does not take.
/// `request_tables` has each of these.
pub fn read_request(text: &[u8], session: u32) -> Result<Request, Refusal>
    ensures answer { asked result ≡ read_request session text.now }
    ensures grammar { ReadsAsked }
{
    if text.len() > REQUEST_LIMIT {
        return Err(Fault::Length.at(0));
    }
    let end = find_end(text).ok_or(Fault::Shape.at(text.len()))?;
    let name = Name::of(&text[..end]).ok_or(Fault::Unknown.at(0))?;
    let at = end + 2;
    let body = Part {
        bytes: &text[at..],
        at,
    };
    let pairs = read_pairs(body, name)?;
    pairs.read_named(name, text.len(), session)
}
