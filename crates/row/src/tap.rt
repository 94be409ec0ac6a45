//! A tap: an observed point, known by its number.
ghost use Rattle.std.specs.Prelude.{◌≡◌, ◌-◌, true};
ghost use Rattle.std.specs.Result.{result_map_both};
ghost use Rattle.row.specs.Taps.{is_tap, tap_numbered};

use crate::change::FIELD_LIMIT;
use crate::fault::{Fault, Refusal};

/// The taps.
pub const TAP_LIMIT: usize = 8;

/// A place for each field of each tap.
pub const CELL_LIMIT: usize = TAP_LIMIT * FIELD_LIMIT;

/// An observed point, numbered from 1 to `TAP_LIMIT`.
#[derive(Clone, Copy, PartialEq, Debug)]
pub struct Tap {
    number: usize,
    ghost known: { is_tap number ≡ true },
}

/// Refused with 10 where the number is no tap's.
impl TryFrom<usize> for Tap {
    type Error = Refusal;

    ghost try_from_gives = { λ number tap.
        result_map_both (λ t. t.number) (λ e. e) tap ≡ tap_numbered number };

    fn try_from(number: usize) -> Result<Tap, Refusal> {
        if number == 0 || number > TAP_LIMIT {
            return Err(Fault::Absent.at(0));
        }
        Ok(Tap { number })
    }
}

impl Tap {
    /// The tap's number, from 1 to `TAP_LIMIT`.
    pub fn number(self) -> usize
        ensures { result ≡ self.number }
    {
        self.number
    }

    /// The tap's place among all taps, from 0.
    pub fn index(self) -> usize
        ensures { result ≡ self.number - 1 }
    {
        self.number - 1
    }
}
