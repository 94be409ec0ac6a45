//! Rows of fields: cells, changes and their joining, taps, the kinds of value, and the numbered
//! refusals.
#![tactic(auto)]

mod change;
mod fault;
mod logic;
mod tap;
mod text;
mod value;

pub use change::{
    Cell, Change, FIELD_LIMIT, Mark, all_same, blank, canonicalize, change_row, join_delta,
    nullify, rows_keep_their_laws, whole_row,
};
pub use fault::{Fault, Refusal, faults_have_numbers};
pub use logic::{Logic, LogicRecord};
pub use tap::{CELL_LIMIT, TAP_LIMIT, Tap};
pub use text::{TEXT_LIMIT, Text, TextRecord};
pub use value::{Value, records_stand_for_values};
