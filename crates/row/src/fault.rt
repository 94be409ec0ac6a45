//! Why a text, a line or a call is refused.
ghost use Rattle.std.specs.Prelude.{◌≡◌, ◌∷◌, ◌++◌, decimal, Some};
ghost use Rattle.row.specs.FaultNumbers.{FaultNumbers};
ghost use Rattle.row.specs.Faults.{moved, number_of, printed, refusal, saturated};

use std::fmt;

/// What is wrong, by the number under which it is known: 1 to 16.
#[derive(Clone, Copy, PartialEq, Debug)]
pub enum Fault {
    /// lent memory is not of its stated length
    Memory = 1,
    /// not a name line and pairs
    Shape,
    /// `%` without two hexadecimal digits
    Escape,
    /// a number malformed or beyond its limit
    Number,
    /// unknown tag or request
    Unknown,
    /// a part missing, repeated or unknown
    Parts,
    /// the row is not covered exactly
    Cover,
    /// a value that is not allowed there
    Value,
    /// the session is in another state
    State,
    /// no such tap or subscription
    Absent,
    /// the subscription ID is not the last accepted plus 1
    Order,
    /// the tap is subscribed already
    Subscribed,
    /// the waiting buffer takes no more
    Full,
    /// the lines do not fit the wire
    Wire,
    /// nothing waits, on the wire or saved
    Nothing,
    /// a text over its limit or its buffer
    Length,
}

// The number by which a fault is known.
impl From<Fault> for u8 {
    ghost from_gives = { λ fault n. n ≡ number_of fault };

    fn from(fault: Fault) -> u8 {
        fault as u8
    }
}

impl Fault {
    /// The refusal for this fault, at a place.
    pub fn at(self, place: usize) -> Refusal
        ensures { result ≡ refusal self place }
    {
        Refusal { fault: self, place }
    }
}

// Always two numbers, so that programs print both and tests compare both; 0 stands where a fault
// has no place.
/// A refusal: a fault and its place, an offset in bytes from 0 in the text for faults 2 to 8,
/// otherwise 0.
#[derive(Clone, Copy, PartialEq, Debug)]
pub struct Refusal {
    /// What is wrong.
    pub fault: Fault,
    /// Where it is wrong.
    pub place: usize,
}

impl Refusal {
    /// Lent memory is not of its stated length.
    pub const MEMORY: Refusal = Refusal {
        fault: Fault::Memory,
        place: 0,
    };

    /// The refusal of a part, as one of the text in which the part begins at this place.
    pub fn moved_by(self, start: usize) -> Refusal
        ensures { result ≡ saturated (moved start self) }
    {
        Refusal {
            place: start.saturating_add(self.place),
            ..self
        }
    }
}

// The fault's number and the place.
impl fmt::Display for Refusal {
    ghost output = { λ r. Some (printed r) };

    fn fmt<W: fmt::Write>(&self, f: &mut fmt::Formatter<W>) -> fmt::Result {
        write!(f, "{} {}", u8::from(self.fault), self.place)
    }
}

/// The number of each fault, from 1 to 16, and which numbers are no tap's. Nothing to run: the
/// contract says it.
pub fn faults_have_numbers()
    ensures { FaultNumbers }
{}
