//! The trait of a value that keeps a history of what was done to it.

ghost use Rattle.std.specs.Prelude.{◌≡◌, ℕ, List, length};

/// A value with a history, which only grows from each of its states to the next, and a base, which never changes.
/// What it holds of each of its slots is a part of it.
pub trait Chronicle: Drop {
    /// One entry of the history.
    type Entry;

    /// What stays the same over the whole history.
    type Base;

    /// All that a value holds of one slot.
    type Part;

    /// The entries, the oldest first.
    ghost history: { Self → List Self.Entry };

    /// What stays the same over the whole history.
    ghost base: { Self → Self.Base };

    /// The slots whose owners were ever condemned.
    ghost gone: { Self → List ℕ };

    /// All that the value holds of a slot.
    ghost part: { Self → ℕ → Self.Part };

    /// Whether the second part may come of the first without its owner.
    ghost later: { Self.Part → Self.Part → Type 0 };

    /// How many entries the history has. It takes no memory, and the cost is constant.
    fn length(&self) -> u64
        ensures { result ≡ length (history self.now) };

    /// A part that stays is later than itself.
    ghost later_same: { (a : Self.Part) → later a a };

    /// What is later than a later part is later.
    ghost later_again: { (a b c : Self.Part) → later a b → later b c → later a c };
}
