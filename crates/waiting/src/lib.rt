//! Waiting buffers: what waits to be sent, in memory that is lent to them.
#![tactic(auto)]

mod buffer;
mod joins;
mod lender;
mod marks;
mod queue;
mod refusals;
mod rows;

pub use buffer::{OverSlice, Pair, Unfit, Waiting};
pub use joins::joins_keep_their_laws;
pub use lender::put_alone;
pub use marks::Marks;
pub use queue::{PAIR_LIMIT, QUEUE_LIMIT, Queue};
pub use refusals::buffers_refuse_by_number;
pub use rows::{clear_row, copy_changes, filled, row_at, store_row};
