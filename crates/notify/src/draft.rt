//! A line composed argument by argument.
ghost use Rattle.std.specs.Prelude.{◌≡◌, true, ◌∷◌, length};
ghost use Rattle.row.specs.Limits.{field_limit};
ghost use Rattle.tlcp.specs.Lines.{word};
ghost use Rattle.tlcp.specs.Written.{changes_of, covers, end_or, placed_or};
ghost use Rattle.std.specs.Result.{result_map_both};
ghost use Rattle.notify.specs.Back.{Bytes};
ghost use Rattle.notify.specs.Given.{code, list, number, spell, text};
ghost use Rattle.notify.specs.Composed.{lengthened, drafted};

use row::{Change, Refusal, Value};
use tlcp::{Bounded, Class, LINE_LIMIT, Tag, Worded, put};

// The line so far.
#[derive(Drop)]
pub(crate) struct Draft {
    line: Bounded<LINE_LIMIT>,
}

impl Draft {
    // A line that begins with a tag's word.
    pub(crate) fn of(tag: Tag) -> Draft
        ensures { drafted result ≡ word tag }
    {
        let mut line = Bounded::new();
        // every word has room
        let _ = line.put(tag.word());
        Draft { line }
    }

    // Each argument stands behind a comma.
    pub(crate) fn number(mut self, n: u32) -> Result<Draft, Refusal>
        ensures { result_map_both drafted (λ e. e) result
            ≡ lengthened (drafted self) (44 ∷ spell (number n)) }
    {
        self.line.put(b",")?;
        self.line.put_number(u64::from(n))?;
        Ok(self)
    }

    pub(crate) fn code(mut self, n: i32) -> Result<Draft, Refusal>
        ensures { result_map_both drafted (λ e. e) result
            ≡ lengthened (drafted self) (44 ∷ spell (code n)) }
    {
        self.line.put(if n < 0 { b",-" } else { b"," })?;
        self.line.put_number(u64::from(n.unsigned_abs()))?;
        Ok(self)
    }

    // A text is given by the bytes that it means.
    pub(crate) fn text(mut self, meant: &[u8]) -> Result<Draft, Refusal>
        ensures line { result_map_both drafted (λ e. e) result
            ≡ lengthened (drafted self) (44 ∷ spell (text meant.now)) }
        ensures bytes { Bytes meant.now }
    {
        self.line.put(b",")?;
        self.line.put_escaped(meant, Class::Escaped)?;
        Ok(self)
    }

    // The changes of the first fields of a delta, as a value list.
    pub(crate) fn list<R: Value>(
        mut self,
        delta: &[Change<R>],
        fields: usize,
    ) -> Result<Draft, Refusal>
        requires whole { length delta.now ≡ field_limit }
        requires covered { covers fields ≡ true }
        ensures { result_map_both drafted (λ e. e) result
            ≡ lengthened (drafted self) (44 ∷ spell (list (changes_of R.kind delta.now fields))) }
    {
        self.line.put(b",")?;
        self.line.put_list(delta, fields)?;
        Ok(self)
    }

    // Writes the line from the place `at` on, if it fits, and answers the place behind it.
    pub(crate) fn put(&self, out: &mut [u8], at: usize) -> Result<usize, Refusal>
        ensures answer { result ≡ end_or at (drafted self.now) out.old }
        ensures bytes { out.new ≡ placed_or at (drafted self.now) out.old }
    {
        put(out, at, self.line.text())
    }
}
