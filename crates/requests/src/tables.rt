//! What requests are, and how they are refused, as tables of theorems on the definitions.
ghost use Rattle.requests.specs.Refused.{Refusals};
ghost use Rattle.requests.specs.Words.{Words};

/// Nothing to run: the contract is the two tables. `refusals` has each refusal of a request with
/// its number and place, and which of two faults is told; `words` has the names, parameters and
/// operations byte by byte, and what each request needs and may have.
pub fn request_tables()
    ensures refusals { Refusals }
    ensures words { Words }
{}
