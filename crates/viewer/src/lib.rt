//! A viewer: eight entries that follow the rows of subscribed taps by hearing lines.
#![tactic(auto)]

mod entry;
mod hear;
mod laws;
mod rows;

pub use entry::Entry;
pub use hear::{Heard, Viewer};
pub use laws::hearing_keeps_its_laws;
