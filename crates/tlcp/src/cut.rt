//! Parts of a text, cut at a byte.
ghost use Rattle.std.specs.Prelude.{◌≡◌};
ghost use Rattle.std.specs.Option.{option_map};
ghost use Rattle.tlcp.specs.Lines.{front_at, rest_at};
ghost use Rattle.tlcp.specs.Said.{piece_in};

use crate::part::Placed;
use crate::text::split;

impl<'a, const LIMIT: usize> Placed<'a, LIMIT> {
    /// What stands before the first `b`, and what stands behind it; all, and nothing, where no `b`
    /// stands in it.
    pub fn cut(self, b: u8) -> (Placed<'a, LIMIT>, Option<Placed<'a, LIMIT>>)
        ensures front { piece_in result.0 ≡ front_at b (piece_in self.entry) }
        ensures rest { option_map piece_in result.1 ≡ rest_at b (piece_in self.entry) }
    {
        let (front, rest) = split(self.bytes, b);
        let front = Placed {
            bytes: front,
            at: self.at,
        };
        // no closure: its result would have the parameter `LIMIT`, which nothing that it takes
        // names
        match rest {
            Some(rest) => {
                let at = self.at + (front.bytes.len() + 1);
                (front, Some(Placed { bytes: rest, at }))
            }
            None => (front, None),
        }
    }
}
