//! Lines cut from blocks of input, heard one after another and answered. A line ends with LF or
//! CR LF; what stands behind the last LF is a line if it has a byte. Each answer is printed as one
//! line, behind the line's number, counted from 1.
#![tactic(auto)]

mod ends;
mod failure;
mod hear;
mod held;
mod print;
mod run;
mod stream;

pub use ends::split_line;
pub use failure::Failure;
pub use hear::Hear;
pub use held::{front, hold, without_cr};
pub use print::push_refusal;
pub use run::{answer_all, answer_block};
pub use stream::Stream;
