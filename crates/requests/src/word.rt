//! The value of a parameter.
ghost use Rattle.std.specs.Prelude.{◌≡◌};
ghost use Rattle.std.specs.Result.{result_map_both};
ghost use Rattle.requests.specs.Read.{word_text};
ghost use Rattle.requests.specs.Values.{read_value};

use crate::request::Part;
use row::{Fault, Refusal};
use tlcp::{Bounded, Class, all_of};

/// How many bytes the value of a parameter stands for at most, its escapes decoded.
pub const VALUE_LIMIT: usize = 64;

/// The value of a parameter as the bytes that it stands for, at most `VALUE_LIMIT` of them.
pub type Word = Bounded<VALUE_LIMIT>;

pub(crate) fn read_value(raw: Part<'_>) -> Result<Word, Refusal>
    ensures { result_map_both word_text (λ e. e) result
        ≡ read_value raw.entry.at raw.entry.bytes.now }
{
    let word = Word::decoded(raw.bytes).map_err(|refusal| refusal.moved_by(raw.at))?;
    if !all_of(raw.bytes, Class::Plain) {
        return Err(Fault::Value.at(raw.at));
    }
    word.ok_or(Fault::Length.at(0))
}
