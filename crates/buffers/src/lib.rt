//! Waiting buffers: scripted runs of all kinds, as tests; two kinds of its own, a ring and a
//! buffer of one pair; and what no kind may be.
#![tactic(auto)]

mod impostors;
#[cfg(test)]
mod player;
mod ring;
#[cfg(test)]
mod sample;
#[cfg(test)]
mod scripts;
mod single;

pub use impostors::laws_refuse_impostors;
pub use ring::Ring;
pub use single::Single;
