//! Sessions by their number.
ghost use Rattle.std.specs.Prelude.{◌≡◌};
ghost use Rattle.request.specs.Arguments.{session_named};

use tlcp::{Limits, read_number};

const SESSIONS: Limits = Limits {
    low: 1,
    high: 99_999,
};

// An `Option` says all there is; `TryFrom` would want a type for a session's number, and an error
// that says no more.
/// The session that a word names.
pub fn session_named(word: &str) -> Option<u32>
    ensures { result ≡ session_named word.now }
{
    read_number(word.as_bytes(), SESSIONS)
}
