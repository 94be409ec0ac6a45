//! Bytes appended up to a limit.
ghost use Rattle.std.specs.Prelude.{◌≡◌, ◌+◌, ◌<◌, ◌≤◌, [], ◌++◌, length, IfErr, take, Some, None};
ghost use Rattle.std.specs.Prelude.{if◌then◌else◌, nat_le, decimal};
ghost use Rattle.std.specs.Option.{option_map};
ghost use Rattle.tlcp.specs.Bytes.{in_class};
ghost use Rattle.tlcp.specs.Escapes.{encoded_by};
ghost use Rattle.std.specs.Result.{result_map_both};
ghost use Rattle.tlcp.specs.Bounds.{decoded_within, extended, list_extended, list_room_answer};
ghost use Rattle.tlcp.specs.Bounds.{bounded_text, room_answer};

use crate::bounded::Bounded;
use crate::class::Class;
use crate::encode::{place_escaped, put_escaped};
use crate::escape::decode;
use crate::list_write::write_list;
use crate::write::{put, write_number};
use row::{Change, Refusal, Value};

impl<const N: usize> Bounded<N> {
    /// No bytes.
    pub fn new() -> Bounded<N>
        ensures { bounded_text result ≡ [] }
    {
        Bounded {
            bytes: [0; N],
            len: 0,
        }
    }

    /// The first `len` of some bytes; none where `len` is more than `N`.
    pub fn of(bytes: [u8; N], len: usize) -> Option<Bounded<N>>
        ensures { option_map bounded_text result
            ≡ (if nat_le len N then Some (take len bytes.entry) else None) }
    {
        // no closure: its result would have the parameter `N`, which nothing that it takes names
        if len <= N {
            Some(Bounded { bytes, len })
        } else {
            None
        }
    }

    /// The bytes that a text with escapes stands for; none where they are more than `N`. Refuses
    /// with 3 what `decode` refuses, however many bytes there are.
    pub fn decoded(text: &[u8]) -> Result<Option<Bounded<N>>, Refusal>
        ensures answer { result_map_both (option_map bounded_text) (λ e. e) result
            ≡ decoded_within N text.now }
        ensures within { IfErr result (λ r. r.place < length text.now) }
    {
        let mut bytes = [0; N];
        let len = decode(text, &mut bytes)?;
        Ok(Bounded::of(bytes, len))
    }

    /// The bytes that are held, 0 to `N` of them.
    pub fn text(&self) -> &[u8]
        ensures { result.now ≡ bounded_text self.now }
    {
        &self.bytes[..self.len]
    }

    /// Appends bytes. Refuses with 16 where they are too many for `N`, and then holds what it held.
    pub fn put(&mut self, bytes: &[u8]) -> Result<(), Refusal>
        ensures answer { result ≡ room_answer N (bounded_text self.old) bytes.now }
        ensures text { bounded_text self.new ≡ extended N (bounded_text self.old) bytes.now }
    {
        self.len = put(&mut self.bytes, self.len, bytes)?;
        Ok(())
    }

    /// Appends a number in decimal. Refuses with 16 for want of room, and then holds what it held.
    pub fn put_number(&mut self, n: u64) -> Result<(), Refusal>
        ensures answer { result ≡ room_answer N (bounded_text self.old) (decimal n) }
        ensures text { bounded_text self.new ≡ extended N (bounded_text self.old) (decimal n) }
    {
        self.len = write_number(&mut self.bytes, self.len, n)?;
        Ok(())
    }

    /// Appends a text, its bytes of the class escaped. Refuses with 16 for want of room, and then
    /// holds what it held.
    pub fn put_escaped(&mut self, text: &[u8], class: Class) -> Result<(), Refusal>
        ensures answer { result
            ≡ room_answer N (bounded_text self.old) (encoded_by (in_class class) text.now) }
        ensures text { bounded_text self.new
            ≡ extended N (bounded_text self.old) (encoded_by (in_class class) text.now) }
    {
        self.len = put_escaped(&mut self.bytes, self.len, text, class)?;
        Ok(())
    }

    // Appends a text that has room, its bytes of the class escaped. `put_escaped` first walks the
    // text to see whether it has.
    pub(crate) fn append_escaped(&mut self, text: &[u8], class: Class)
        requires { length (bounded_text self.old) + length (encoded_by (in_class class) text.now)
            ≤ N }
        ensures { bounded_text self.new
            ≡ bounded_text self.old ++ encoded_by (in_class class) text.now }
    {
        self.len = place_escaped(&mut self.bytes, self.len, text, class);
    }

    /// Appends the changes of the first `fields` fields of a delta as a value list. Refuses with 1
    /// a delta that is not twelve changes, with 7 a row of no or more than twelve fields, and with
    /// 16 for want of room; it then holds what it held.
    pub fn put_list<R: Value>(&mut self, delta: &[Change<R>], fields: usize) -> Result<(), Refusal>
        ensures answer { result
            ≡ list_room_answer R.kind N (bounded_text self.old) delta.now fields }
        ensures text { bounded_text self.new
            ≡ list_extended R.kind N (bounded_text self.old) delta.now fields }
    {
        self.len = write_list(&mut self.bytes, self.len, delta, fields)?;
        Ok(())
    }
}
