//! Texts divided at a byte, and compared.
ghost use Rattle.std.specs.Prelude.{◌≡◌, ◌+◌, ◌<◌, ◌≤◌, length, position, IfSome, MatchOption};
ghost use Rattle.std.specs.Prelude.{◌==◌};
ghost use Rattle.std.specs.Option.{option_map};
ghost use Rattle.tlcp.specs.Lines.{same_bytes};
ghost use Rattle.tlcp.specs.Parts.{before, behind};

/// The offset of the first `b`, if there is one.
pub fn find(s: &[u8], b: u8) -> Option<usize>
    ensures value { result ≡ position (λ x. x == b) s.now }
    ensures within { IfSome result (λ i. i < length s.now) }
{
    s.iter().position(|x| *x == b)
}

/// What stands before the first `b`, and what stands behind it; all, and nothing, where no `b`
/// stands in it.
pub fn split(s: &[u8], b: u8) -> (&[u8], Option<&[u8]>)
    ensures front { result.0.now ≡ before b s.now }
    ensures back { option_map (λ x. x.now) result.1 ≡ behind b s.now }
    ensures within { length result.0.now ≤ length s.now }
    ensures sizes { MatchOption result.1 (length result.0.now ≡ length s.now)
        (λ t. length result.0.now + (length t.now + 1) ≡ length s.now) }
{
    match find(s, b) {
        Some(end) => (&s[..end], Some(&s[end + 1..])),
        None => (s, None),
    }
}

// Inlined, since most callers compare with a word that the compiler knows: no call, then.
/// Whether a text is this word.
#[inline(always)]
pub fn is_word(s: &[u8], word: &[u8]) -> bool
    ensures { result ≡ same_bytes s.now word.now }
{
    s == word
}
