//! The kinds of waiting buffer: what each has to keep.
ghost use Rattle.std.specs.Prelude.{◌≡◌, ℕ, true, List, length, map, ◌==◌, IfOk, IfErr, is_ok};
ghost use Rattle.std.specs.Result.{result_map_both};
ghost use Rattle.std.specs.Borrow.{GName};
ghost use Rattle.row.specs.Limits.{field_limit};
ghost use Rattle.row.specs.Records.{change_of, memory_refusal};
ghost use Rattle.waiting.specs.Pairs.{pair_of};
ghost use Rattle.waiting.specs.Policies.{Policy, Meaning, Lawful, KeepsValues, nothing_waits};
ghost use Rattle.waiting.specs.Policies.{listed, first, put_answer, drop_answer, after_put};
ghost use Rattle.waiting.specs.Policies.{after_drop, after_forget};

use row::{Change, Refusal, Tap, Value};

/// A tap and its delta, twelve changes.
#[derive(Clone, Copy)]
pub struct Pair<'a, R> {
    /// The tap whose row the delta changes.
    pub tap: Tap,
    /// Twelve changes, a part of the buffer's memory.
    pub delta: &'a [Change<R>],
}

/// Memory that is not of its stated length, handed back as it was. As a refusal it is 1.
#[derive(Drop)]
pub struct Unfit<'a, R> {
    /// The memory that was lent.
    pub changes: &'a mut [Change<R>],
}

impl<R> From<Unfit<'_, R>> for Refusal {
    ghost from_gives = { λ _ refusal. refusal ≡ memory_refusal };

    fn from(_: Unfit<'_, R>) -> Refusal {
        Refusal::MEMORY
    }
}

/// What waits to be sent: a list of pairs of a tap and a delta, in sending order.
///
/// A kind says by its `policy`, on lists alone, what it takes and how it lists it, and proves the
/// laws of every kind. Where it keeps its pairs, and what its memory holds, is its own.
pub trait Waiting<R: Value>: Drop {
    // What the kind takes, and what a put leaves.
    ghost policy: { Policy };

    // What a buffer means: its waiting list.
    ghost meaning: { Self → Meaning };

    // What the kind promises of its memory, of its own and in its own words.
    ghost exact: { Self → Type 0 };

    // The memory that is lent to it, by the name that it keeps; any name for a kind that owns its
    // memory.
    ghost lent: { Self → GName };

    /// Whether it takes a delta for a tap.
    fn takes(&self, tap: Tap) -> bool
        ensures { result ≡ policy.takes (meaning self.now) tap.number };

    /// Puts a delta of up to twelve changes, with same behind them. Refused with 1 where there are
    /// more, then with 13 exactly where `takes` says no; the buffer is then as it was, its memory
    /// too.
    fn put(&mut self, tap: Tap, delta: &[Change<R>]) -> Result<(), Refusal>
        ensures answer { result
            ≡ put_answer policy (meaning self.old) tap.number (map (change_of R.kind) delta.now) }
        ensures meaning { meaning self.new
            ≡ after_put policy (meaning self.old) tap.number (map (change_of R.kind) delta.now) }
        ensures refused { IfErr result (λ _. self.new ≡ self.old) }
        ensures exact { exact self.old → exact self.new }
        ensures lent { lent self.new ≡ lent self.old };

    /// Shows the first pair. Refused with 15 exactly where nothing waits.
    fn look(&self) -> Result<Pair<'_, R>, Refusal>
        ensures long { IfOk result (λ p. length p.delta.now ≡ field_limit) }
        ensures pair { result_map_both (pair_of R.kind) (λ e. e) result
            ≡ first (listed (meaning self.now)) };

    /// Removes the first pair. Refused with 15 exactly where nothing waits; the buffer is then as
    /// it was, its memory too.
    fn drop_first(&mut self) -> Result<(), Refusal>
        ensures answer { result ≡ drop_answer (listed (meaning self.old)) }
        ensures meaning { meaning self.new ≡ after_drop (meaning self.old) }
        ensures refused { IfErr result (λ _. self.new ≡ self.old) }
        ensures exact { exact self.old → exact self.new }
        ensures lent { lent self.new ≡ lent self.old };

    /// Removes a tap's pairs, and leaves the others in order.
    fn forget(&mut self, tap: Tap)
        ensures meaning { meaning self.new ≡ after_forget tap.number (meaning self.old) }
        ensures exact { exact self.old → exact self.new }
        ensures lent { lent self.new ≡ lent self.old };

    /// Makes another buffer of the kind mean what this one means.
    fn copy_to(&self, other: &mut Self)
        ensures meaning { meaning other.new ≡ meaning self.now }
        ensures exact { exact self.now → exact other.new }
        ensures lent { lent other.new ≡ lent other.old };

    /// How many pairs wait.
    fn count(&self) -> usize
        ensures { result ≡ length (listed (meaning self.now)) };

    ghost lawful: { Lawful policy };

    // What waits are deltas of the kind of value.
    ghost keeps_values: { KeepsValues R.kind.allowed policy };

    // What each buffer means is what its kind can hold.
    ghost holdable: { (w : Self) → policy.holds (meaning w) ≡ true };
}

// Apart from `Waiting`, since a struct with ghost fields may have no bound whose trait has a
// lifetime.
/// A kind of waiting buffer over a lent slice of changes.
pub trait OverSlice<'a, R: Value>: Waiting<R> {
    ghost use Rattle.row.specs.declared.change.Change.{Change};

    // How many changes its memory has.
    ghost places: { ℕ };

    // The changes in its memory.
    ghost memory: { Self → List (Change R) };

    /// How many changes its memory has.
    fn places() -> usize
        ensures { result ≡ places };

    /// A buffer where nothing waits. Memory that has not `places()` changes is handed back as it
    /// was.
    fn new(changes: &'a mut [Change<R>]) -> Result<Self, Unfit<'a, R>>
        ensures answer { is_ok result ≡ (length changes.old == places) }
        ensures meaning { IfOk result (λ w. Self.meaning w ≡ nothing_waits) }
        ensures exact { IfOk result Self.exact }
        ensures lent { IfOk result (λ w. Self.lent w ≡ changes.entry.ghost_name) }
        ensures untouched { IfErr result (λ unfit. unfit.changes.now ≡ changes.old) }
        ensures returned { IfErr result
            (λ unfit. unfit.changes.ghost_name ≡ changes.entry.ghost_name) };

    /// The changes in its memory, as they stand.
    fn memory(&self) -> &[Change<R>]
        ensures { result.now ≡ memory self.now };
}
