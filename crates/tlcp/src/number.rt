//! Numbers in decimal, without sign or leading zero, and codes, which may be negative.
ghost use Rattle.std.specs.Prelude.{◌≡◌, ℕ, ◌≤◌, ◌||◌, length, ℤ, IfSome, ◌==◌};
ghost use Rattle.tlcp.specs.Numbers.{leading_zero, read_number, read_code};
ghost use Rattle.tlcp.specs.Parts.{is_nil};
ghost use Rattle.tlcp.specs.Holding.{hold};

use crate::class::{Class, is_of};
use row::FIELD_LIMIT;

/// The highest subscription ID.
pub const ID_LIMIT: u32 = 9999;

/// The highest count.
pub const COUNT_LIMIT: u32 = 999_999_999;

/// The largest magnitude of a code.
pub const CODE_LIMIT: u32 = 999_999;

/// The numbers that a place takes: from `low` to `high`, both included.
#[derive(Clone, Copy)]
pub struct Limits {
    pub low: u32,
    pub high: u32,
}

impl Limits {
    /// a subscription ID
    pub const ID: Limits = Limits {
        low: 1,
        high: ID_LIMIT,
    };
    /// an item, and how many there are
    pub const SINGLE: Limits = Limits { low: 1, high: 1 };

    /// a row's number of fields
    pub const FIELDS: Limits = Limits {
        low: 1,
        high: FIELD_LIMIT as u32,
    };

    /// a count
    pub const COUNT: Limits = Limits {
        low: 0,
        high: COUNT_LIMIT,
    };

    /// Whether a number is within the limits.
    pub fn hold(self, n: u32) -> bool
        ensures { result ≡ hold self n }
    {
        (self.low..=self.high).contains(&n)
    }
}

// The magnitudes of the codes below zero, and of the others.
const BELOW_ZERO: Limits = Limits {
    low: 1,
    high: CODE_LIMIT,
};

const FROM_ZERO: Limits = Limits {
    low: 0,
    high: CODE_LIMIT,
};

// Empty, or with a zero before other digits.
fn is_misshapen(s: &[u8]) -> bool
    ensures { result ≡ (is_nil s.now || leading_zero s.now) }
{
    matches!(s, [] | [b'0', _, ..])
}

// The library's `parse` takes a sign and leading zeros.
/// The number that `s` writes; none where it is empty, has another byte than digits or a zero
/// before other digits, or is beyond the limits.
pub fn read_number(s: &[u8], limits: Limits) -> Option<u32>
    ensures value { result ≡ read_number limits.low limits.high s.now }
    ensures bound { IfSome result (λ n. (limits.low ≤ n) × (n ≤ limits.high)) }
{
    if is_misshapen(s) {
        return None;
    }
    let Limits { low, high } = limits;
    let mut value = 0u64;
    for b in s {
        if !is_of(*b, Class::Digit) {
            return None;
        }
        value = value * 10 + u64::from(*b - b'0');
        if value > u64::from(high) {
            return None;
        }
    }
    (u64::from(low) <= value).then_some(value as u32)
}

/// The code that `s` writes: a number up to `CODE_LIMIT`, or one below zero with a minus before it.
/// None where it is neither; `-0` is none.
pub fn read_code(s: &[u8]) -> Option<i32>
    ensures { result ≡ read_code s.now }
{
    match s {
        [b'-', digits @ ..] => read_number(digits, BELOW_ZERO).map(|n| -(n as i32)),
        _ => read_number(s, FROM_ZERO).map(|n| n as i32),
    }
}
