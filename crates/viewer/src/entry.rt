//! The entries of a viewer.
ghost use Rattle.std.specs.Prelude.{◌≡◌, ◌<◌, length, IfSome};
ghost use Rattle.viewer.specs.Entries.{find_entry, find_open, has_id, open_with};

// a viewer can be made with any IDs, so of an `Option` both `None` and `Some(0)` would be no ID
/// What a viewer knows of a tap. The tap's cells do not stand here, since they lie in memory that
/// is lent to the viewer for each line.
#[derive(Clone, Copy, PartialEq, Debug)]
pub struct Entry {
    /// The subscription ID, 0 for none.
    pub id: u32,
    /// How many fields the tap's row has, 1 to 12, while the entry is open; `None` where it is
    /// closed.
    pub fields: Option<usize>,
}

impl Entry {
    /// No ID, and closed.
    pub const CLOSED: Entry = Entry {
        id: 0,
        fields: None,
    };
}

// The index of the first entry with an ID.
pub(crate) fn find_entry(entries: &[Entry], id: u32) -> Option<usize>
    ensures value { result ≡ find_entry (has_id id) entries.now }
    ensures within { IfSome result (λ i. i < length entries.now) }
{
    entries.iter().position(|entry| entry.id == id)
}

// The index of the first open entry with an ID, and its field count.
pub(crate) fn find_open(entries: &[Entry], id: u32) -> Option<(usize, usize)>
    ensures value { result ≡ find_open id entries.now }
    ensures within { IfSome result (λ found. found.0 < length entries.now) }
{
    // the library equates `position` with the list's first index, but says of `find_map` only what
    // a run of its iterator gave
    let i = find_open_index(entries, id)?;
    let fields = entries[i].fields?;
    Some((i, fields))
}

fn find_open_index(entries: &[Entry], id: u32) -> Option<usize>
    ensures value { result ≡ find_entry (open_with id) entries.now }
    ensures within { IfSome result (λ i. i < length entries.now) }
{
    entries
        .iter()
        .position(|entry| entry.id == id && entry.fields.is_some())
}
