//! Where lines end. A block is searched part by part, and within a part with no branch on what a
//! byte is: a wrong guess at where a line ends costs more than the rest of the part.
ghost use Rattle.std.specs.Prelude.{◌≡◌, ◌+◌, ◌≤◌, length, position, MatchOption, ◌==◌};
ghost use Rattle.std.specs.List.{list_any};
ghost use Rattle.std.specs.Option.{option_map};
ghost use Rattle.tlcp.specs.Parts.{place_of, before, behind};
ghost use Rattle.streams.specs.Ends.{line_feed};

use tlcp::find;

// The bytes that are looked at together.
const PART: usize = 16;

const LINE_FEED: u8 = b'\n';

// Whether a line ends in the part.
// `any` would leave by a branch; `bench/run` shows some percent more time for `follow` then.
fn has_end(part: &[u8]) -> bool
    ensures { result ≡ list_any (λ b. b == line_feed) part.now }
{
    part.iter().fold(false, |any, b| any | (*b == LINE_FEED))
}

// The place of the first end in the part, or the part's length where there is none.
// `position` would leave by a branch, and the search, on which the speed of `follow` hangs, takes a
// third longer then.
fn end_in(part: &[u8]) -> usize
    ensures value { result ≡ place_of line_feed part.now }
    ensures within { result ≤ length part.now }
{
    let mut end = 0;
    // 1 before the first end, 0 from there on
    let mut step = 1;
    for b in part {
        if *b == LINE_FEED {
            step = 0;
        }
        end += step;
    }
    end
}

// The place of the first end, as the parts have it.
fn find_end(s: &[u8]) -> Option<usize>
    ensures { result ≡ position (λ b. b == line_feed) s.now }
{
    let parts = s.chunks_exact(PART);
    let rest = parts.remainder();
    for (i, part) in parts.enumerate() {
        if has_end(part) {
            return Some(PART * i + end_in(part));
        }
    }
    let end = find(rest, LINE_FEED)?;
    Some(s.len() - rest.len() + end)
}

/// What stands before the first LF, and what stands behind it; all and `None`, if there is no LF.
#[inline(always)]
pub fn split_line(s: &[u8]) -> (&[u8], Option<&[u8]>)
    ensures front { result.0.now ≡ before line_feed s.now }
    ensures back { option_map (λ x. x.now) result.1 ≡ behind line_feed s.now }
    ensures sizes { MatchOption result.1 (length result.0.now ≡ length s.now)
        (λ t. length result.0.now + (length t.now + 1) ≡ length s.now) }
{
    match find_end(s) {
        Some(end) => (&s[..end], Some(&s[end + 1..])),
        None => (s, None),
    }
}
