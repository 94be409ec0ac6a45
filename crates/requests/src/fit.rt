//! The values that parameters take.
ghost use Rattle.std.specs.Prelude.{◌≡◌};
ghost use Rattle.row.specs.Texts.{every};
ghost use Rattle.requests.specs.Values.{fault_of, fitting, is_group, is_numeral, is_request_id};
ghost use Rattle.requests.specs.Values.{session_name};
ghost use Rattle.tlcp.specs.Lines.{same_bytes};

use crate::name::Parameter;
use row::Fault;
use tlcp::{Class, Limits, all_of, is_word, read_number};

/// How many letters or digits the value of `LS_reqId` has at most; it has at least one.
pub const REQUEST_ID_LIMIT: usize = 8;

// A session's number is compared with the one that the reader is given, which it takes as it is.
const SESSION_NUMBERS: Limits = Limits {
    low: 0,
    high: u32::MAX,
};

// A number from 1 up, of any size.
fn is_numeral(digits: &[u8]) -> bool
    ensures { result ≡ is_numeral digits.now }
{
    !matches!(digits, [] | [b'0', ..]) && all_of(digits, Class::Digit)
}

fn is_group(text: &[u8]) -> bool
    ensures { result ≡ is_group text.now }
{
    matches!(text, [b't', digits @ ..] if is_numeral(digits))
}

fn is_request_id(text: &[u8]) -> bool
    ensures { result ≡ is_request_id text.now }
{
    matches!(text.len(), 1..=REQUEST_ID_LIMIT) && all_of(text, Class::Alphanumeric)
}

fn is_session(text: &[u8], session: u32) -> bool
    ensures { result ≡ same_bytes text.now (session_name session) }
{
    matches!(text, [b'S', digits @ ..] if read_number(digits, SESSION_NUMBERS) == Some(session))
}

impl Parameter {
    // Whether a parameter takes a value, in a request for this session.
    pub(crate) fn fits(self, text: &[u8], session: u32) -> bool
        ensures { result ≡ fitting session self text.now }
    {
        match self {
            Parameter::Cid | Parameter::User | Parameter::Password | Parameter::Operation => true,
            Parameter::Session => is_session(text, session),
            Parameter::RequestId => is_request_id(text),
            Parameter::SubscriptionId => read_number(text, Limits::ID).is_some(),
            Parameter::Group => is_group(text),
            Parameter::Schema => is_word(text, b"all"),
            Parameter::Mode => is_word(text, b"MERGE"),
            Parameter::Snapshot => is_word(text, b"true"),
        }
    }

    // What is wrong with another value.
    pub(crate) fn fault(self) -> Fault
        ensures { result ≡ fault_of self }
    {
        match self {
            Parameter::SubscriptionId => Fault::Number,
            _ => Fault::Value,
        }
    }
}
