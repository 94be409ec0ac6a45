//! A refusal, as it stands in a table.
use row::Refusal;

// The number of its fault, and its place. Tables have the numbers of docs/protocol.md, which names
// of faults would not test.
pub(crate) type Numbered = (u8, usize);

pub(crate) fn number(refusal: Refusal) -> u8 {
    refusal.fault.into()
}

pub(crate) fn numbered(refusal: Refusal) -> Numbered {
    (number(refusal), refusal.place)
}
