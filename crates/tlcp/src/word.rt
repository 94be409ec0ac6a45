//! Things that words of the protocol stand for.
ghost use Rattle.std.specs.Prelude.{◌≡◌, ℕ, List};
ghost use Rattle.tlcp.specs.Dividing.{first_with};

use crate::text::is_word;

/// A thing that a word stands for.
pub trait Worded: Copy {
    ghost word_of: { Self → List ℕ };

    /// The word.
    fn word(self) -> &'static [u8]
        ensures { result.now ≡ word_of self };
}

/// The first of some things that has this word, byte for byte, if one has it.
pub fn first_with<W: Worded>(all: &[W], word: &[u8]) -> Option<W>
    ensures { result ≡ first_with W.word_of all.now word.now }
{
    all.iter().copied().find(|x| is_word(word, x.word()))
}
