//! What stands behind a line's tag, divided into arguments. The last takes the rest of the line,
//! commas included.
ghost use Rattle.std.specs.Prelude.{◌≡◌};
ghost use Rattle.std.specs.Option.{option_and_then, option_map};
ghost use Rattle.tlcp.specs.Lines.{front, rest};
ghost use Rattle.tlcp.specs.Said.{piece_in};

use crate::line::Part;

/// The arguments that are left of a line, as one part that is not divided yet, and the line's
/// length, which is the place of what is missing.
#[derive(Clone, Copy)]
pub(crate) struct Arguments<'a> {
    pub(crate) left: Option<Part<'a>>,
    pub(crate) end: usize,
}

impl<'a> Arguments<'a> {
    /// The next argument, up to a comma or the end of what is left; none where nothing is left. The
    /// last argument of a line is not cut: it is all that is left.
    pub(crate) fn next(&mut self) -> Option<Part<'a>>
        ensures answer { option_map piece_in result
            ≡ option_map front (option_map piece_in self.old.left) }
        ensures left { option_map piece_in self.new.left
            ≡ option_and_then rest (option_map piece_in self.old.left) }
        ensures end { self.new.end ≡ self.old.end }
    {
        let (front, rest) = self.left?.cut(b',');
        self.left = rest;
        Some(front)
    }
}
