//! The tags of lines.
ghost use Rattle.std.specs.Prelude.{◌≡◌};
ghost use Rattle.tlcp.specs.Lines.{tag_of, word};

use crate::text::is_word;
use crate::word::Worded;

/// What a line's first word may be. Other words, those of the protocol's other notifications among
/// them, are unknown.
#[derive(Clone, Copy, PartialEq, Debug)]
pub enum Tag {
    U,
    Probe,
    Sync,
    Loop,
    Cons,
    Servname,
    Clientip,
    Reqok,
    Unsub,
    Conerr,
    End,
    Error,
    Eos,
    Subok,
    Ov,
    Conf,
    Reqerr,
    Conok,
}

// The first of some tags that a word stands for, compared with one after another. Not by
// `first_with` on a table: a word that is known when this is compiled is compared in a few
// instructions, and a line's tag is asked for before all else of it.
macro_rules! first_of {
    ($word:expr; $($tag:ident)*) => {{
        $(
            if is_word($word, Tag::$tag.word()) {
                return Some(Tag::$tag);
            }
        )*
        None
    }};
}

impl Worded for Tag {
    ghost word_of = { word };

    fn word(self) -> &'static [u8] {
        match self {
            Tag::U => b"U",
            Tag::Probe => b"PROBE",
            Tag::Sync => b"SYNC",
            Tag::Loop => b"LOOP",
            Tag::Cons => b"CONS",
            Tag::Servname => b"SERVNAME",
            Tag::Clientip => b"CLIENTIP",
            Tag::Reqok => b"REQOK",
            Tag::Unsub => b"UNSUB",
            Tag::Conerr => b"CONERR",
            Tag::End => b"END",
            Tag::Error => b"ERROR",
            Tag::Eos => b"EOS",
            Tag::Subok => b"SUBOK",
            Tag::Ov => b"OV",
            Tag::Conf => b"CONF",
            Tag::Reqerr => b"REQERR",
            Tag::Conok => b"CONOK",
        }
    }
}

impl Tag {
    /// The tag that a word stands for, in capital letters as it is written; none for other words.
    pub fn of(word: &[u8]) -> Option<Tag>
        ensures { result ≡ tag_of word.now }
    {
        first_of!(word; U Probe Sync Loop Cons Servname Clientip Reqok Unsub Conerr End Error Eos
            Subok Ov Conf Reqerr Conok)
    }
}
