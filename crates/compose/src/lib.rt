//! Requests, written by the viewer into lent bytes.
#![tactic(auto)]

mod assignment;
mod part;
mod request;
mod whole;

pub use assignment::Assignment;
pub use request::{Finished, RequestWriter};
pub use whole::compose;
