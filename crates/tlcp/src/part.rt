//! Parts of a text.
ghost use Rattle.std.specs.Prelude.{◌+◌, ◌≤◌, length};

/// A part of a text of no more than `LIMIT` bytes, and the offset of its first byte in that text.
#[derive(Clone, Copy)]
pub struct Placed<'a, const LIMIT: usize> {
    pub bytes: &'a [u8],
    pub at: usize,
    ghost within: { at + length bytes.now ≤ LIMIT },
}
