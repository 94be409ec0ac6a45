//! The kinds of value that the program hears, by the words for them.
ghost use Rattle.std.specs.Prelude.{◌≡◌};
ghost use Rattle.follow.specs.Words.{kind_named, kind_word};

use tlcp::{Worded, first_with};

/// A kind of value that the program can be told to hear.
#[derive(Clone, Copy, PartialEq, Debug)]
pub enum Kind {
    /// Texts of up to 32 bytes: the word `text`.
    Text,
    /// Logic values of 1 to 32 bits: the word `logic`.
    Logic,
}

const KINDS: [Kind; 2] = [Kind::Text, Kind::Logic];

impl Worded for Kind {
    ghost word_of = { kind_word };

    fn word(self) -> &'static [u8] {
        match self {
            Kind::Text => b"text",
            Kind::Logic => b"logic",
        }
    }
}

impl Kind {
    // An `Option` says all there is; an error of `TryFrom` would say no more.
    /// The kind that a word stands for.
    pub fn named(word: &str) -> Option<Kind>
        ensures { result ≡ kind_named word.now }
    {
        first_with(&KINDS, word.as_bytes())
    }
}
