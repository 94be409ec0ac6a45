//! The emulator's lines, written: a message of any tag by `write_line`, and a row's update by
//! `write_update`. What was written is read by `tlcp::read_line` as the same message.
#![tactic(auto)]

mod draft;
mod examples;
mod message;
mod write;

pub use examples::worked_lines;
pub use message::Message;
pub use write::{write_line, write_update};
