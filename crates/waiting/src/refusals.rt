//! The refusals of waiting buffers, as a table of theorems on the definitions.
ghost use Rattle.waiting.specs.Refused.{Refusals};

/// Nothing to run: the contract is the table. A delta of more than twelve changes is refused with
/// 1, a put into a queue where 16 pairs wait with 13, looking and dropping where nothing waits with
/// 15; marks refuse no delta of up to twelve changes. A queue has memory for 192 changes, and marks
/// for 96.
pub fn buffers_refuse_by_number()
    ensures { Refusals }
{}
