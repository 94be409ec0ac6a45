//! Requests from the viewer, as the emulator reads them.
#![tactic(auto)]

mod fit;
mod name;
mod occurrences;
mod request;
mod tables;
mod whole;
mod word;

pub use fit::REQUEST_ID_LIMIT;
pub use name::{Form, Name, PARAMETER_COUNT, Parameter, is_in};
pub use request::{REQUEST_LIMIT, Request, read_request};
pub use tables::request_tables;
pub use word::{VALUE_LIMIT, Word};
