//! The pairs of a request, read from left to right and kept by their parameters.
ghost use Rattle.std.specs.Prelude.{◌≡◌, true, Some};
ghost use Rattle.std.specs.Option.{option_map};
ghost use Rattle.std.specs.Result.{result_map_both};
ghost use Rattle.requests.specs.Read.{occurrence_in, occurrences_in, word_text};
ghost use Rattle.tlcp.specs.Dividing.{divided_by};
ghost use Rattle.requests.specs.Requests.{no_occurrences, occurrence_of, read_pair, read_pairs};
ghost use Rattle.requests.specs.Requests.{given_text, is_given, lacks, unfit_of, unfit, parameters};

use crate::name::{Name, PARAMETER_COUNT, Parameter, is_in};
use crate::request::Part;
use crate::word::{Word, read_value};
use row::{Fault, Refusal};

// A parameter that occurs in a request: where its pair stands, where its value stands, and the
// value.
#[derive(Clone, Copy)]
pub(crate) struct Occurrence {
    at: usize,
    pub(crate) value_at: usize,
    pub(crate) word: Word,
}

// The parameters that have occurred so far, each at its index.
#[derive(Clone, Copy)]
pub(crate) struct Occurrences {
    // an array, since a request is read without allocating
    slots: [Option<Occurrence>; PARAMETER_COUNT],
}

const PARAMETERS: [Parameter; PARAMETER_COUNT] = [
    Parameter::Cid,
    Parameter::User,
    Parameter::Password,
    Parameter::Session,
    Parameter::RequestId,
    Parameter::Operation,
    Parameter::SubscriptionId,
    Parameter::Group,
    Parameter::Schema,
    Parameter::Mode,
    Parameter::Snapshot,
];

impl Occurrences {
    pub(crate) const NONE: Occurrences = Occurrences {
        slots: [None; PARAMETER_COUNT],
    };

    pub(crate) fn get(&self, parameter: Parameter) -> Option<Occurrence>
        ensures { option_map occurrence_in result
            ≡ occurrence_of parameter (occurrences_in self.now) }
    {
        self.slots[parameter.index()]
    }

    // Reads a pair.
    pub(crate) fn add(&mut self, name: Name, pair: Part<'_>) -> Result<(), Refusal>
        ensures { result_map_both (λ _. occurrences_in self.new) (λ e. e) result
            ≡ read_pair name pair.entry.at pair.entry.bytes.now (occurrences_in self.old) }
    {
        let (word, value) = pair.cut(b'=');
        let value = value.ok_or(Fault::Shape.at(pair.at))?;
        let unfit = Fault::Parts.at(pair.at);
        let parameter = Parameter::of(name, word.bytes).ok_or(unfit)?;
        if self.get(parameter).is_some() {
            return Err(unfit);
        }
        self.slots[parameter.index()] = Some(Occurrence {
            at: pair.at,
            value_at: value.at,
            word: read_value(value)?,
        });
        Ok(())
    }

    // The value of a parameter, if it is given.
    pub(crate) fn word(&self, parameter: Parameter) -> Option<Word>
        ensures { option_map word_text result ≡ given_text parameter (occurrences_in self.now) }
    {
        self.get(parameter).map(|pair| pair.word)
    }

    // The pair of a parameter that is given.
    pub(crate) fn given(&self, parameter: Parameter) -> Occurrence
        requires { is_given parameter (occurrences_in self.now) ≡ true }
        ensures { Some (occurrence_in result) ≡ occurrence_of parameter (occurrences_in self.now) }
    {
        self.get(parameter).unwrap()
    }

    // Whether one of these is missing.
    pub(crate) fn lack(&self, some: &[Parameter]) -> bool
        ensures { result ≡ lacks some.now (occurrences_in self.now) }
    {
        some.iter().any(|p| self.get(*p).is_none())
    }

    // Where the pair of a parameter stands, if it is given and none of these.
    fn unfit_at(&self, taken: &[Parameter], parameter: Parameter) -> Option<usize>
        ensures { result ≡ unfit_of taken.now (occurrences_in self.now) parameter }
    {
        if is_in(parameter, taken) {
            return None;
        }
        self.get(parameter).map(|pair| pair.at)
    }

    // Where the leftmost pair stands that is none of these.
    pub(crate) fn unfit(&self, taken: &[Parameter]) -> Option<usize>
        ensures { result ≡ unfit taken.now (occurrences_in self.now) parameters }
    {
        // `min` by a closure of its own, so that a must-fail edit can turn the choice alone
        PARAMETERS
            .iter()
            .filter_map(|p| self.unfit_at(taken, *p))
            .reduce(|a, b| a.min(b))
    }
}

// Reads the pairs of a request's body.
pub(crate) fn read_pairs(body: Part<'_>, name: Name) -> Result<Occurrences, Refusal>
    ensures { result_map_both occurrences_in (λ e. e) result
        ≡ read_pairs name body.entry.at (divided_by 38 body.entry.bytes.now) no_occurrences }
{
    let mut pairs = Occurrences::NONE;
    let mut left = Some(body);
    while let Some(part) = left {
        let (pair, rest) = part.cut(b'&');
        pairs.add(name, pair)?;
        left = rest;
    }
    Ok(pairs)
}
