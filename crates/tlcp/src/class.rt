//! The classes of bytes that reading and writing ask for.
ghost use Rattle.std.specs.Prelude.{◌≡◌};
ghost use Rattle.row.specs.Texts.{every};
ghost use Rattle.tlcp.specs.Bytes.{bit_of, in_class};

// Each is its bit in the entries of the table below.
/// A class of bytes. A byte may be of several.
#[derive(Clone, Copy)]
pub enum Class {
    /// `0` to `9`
    Digit = 1,
    /// a hexadecimal digit of either case
    Hex = 2,
    /// written with an escape wherever it stands in a value
    Escaped = 4,
    /// written with an escape as a value's first byte
    EscapedFirst = 8,
    /// written with an escape in a request
    Reserved = 16,
    /// a letter or a digit
    Alphanumeric = 32,
    /// stands in a request's value, by itself or as the start of an escape
    Plain = 64,
}

const CLASSES: [u8; 256] = [
    28, 28, 28, 28, 28, 28, 28, 28, 28, 28, 28, 28, 28, 28, 28, 28, 28, 28, 28, 28, 28, 28, 28, 28,
    28, 28, 28, 28, 28, 28, 28, 28, 16, 16, 16, 24, 24, 92, 16, 16, 16, 16, 16, 16, 28, 64, 64, 16,
    99, 99, 99, 99, 99, 99, 99, 99, 99, 99, 16, 16, 16, 16, 16, 16, 16, 98, 98, 98, 98, 98, 98, 96,
    96, 96, 96, 96, 96, 96, 96, 96, 96, 96, 96, 96, 96, 96, 96, 96, 96, 96, 96, 16, 16, 16, 24, 64,
    16, 98, 98, 98, 98, 98, 98, 96, 96, 96, 96, 96, 96, 96, 96, 96, 96, 96, 96, 96, 96, 96, 96, 96,
    96, 96, 96, 16, 28, 16, 64, 28, 28, 28, 28, 28, 28, 28, 28, 28, 28, 28, 28, 28, 28, 28, 28, 28,
    28, 28, 28, 28, 28, 28, 28, 28, 28, 28, 28, 28, 28, 28, 28, 28, 28, 28, 28, 28, 28, 28, 28, 28,
    28, 28, 28, 28, 28, 28, 28, 28, 28, 28, 28, 28, 28, 28, 28, 28, 28, 28, 28, 28, 28, 28, 28, 28,
    28, 28, 28, 28, 28, 28, 28, 28, 28, 28, 28, 28, 28, 28, 28, 28, 28, 28, 28, 28, 28, 28, 28, 28,
    28, 28, 28, 28, 28, 28, 28, 28, 28, 28, 28, 28, 28, 28, 28, 28, 28, 28, 28, 28, 28, 28, 28, 28,
    28, 28, 28, 28, 28, 28, 28, 28, 28, 28, 28, 28, 28, 28, 28, 28,
];

impl Class {
    fn bit(self) -> u8
        ensures { result ≡ bit_of self }
    {
        self as u8
    }
}

/// Whether a byte is of a class.
pub fn is_of(b: u8, class: Class) -> bool
    ensures { result ≡ in_class class b }
{
    CLASSES[b as usize] & class.bit() != 0
}

/// Whether all bytes of a text are of a class.
pub fn all_of(s: &[u8], class: Class) -> bool
    ensures { result ≡ every (in_class class) s.now }
{
    s.iter().all(|b| is_of(*b, class))
}
