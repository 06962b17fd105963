//! Too many entries parted into two nodes, by Guttman's quadratic split: the two entries that would waste most as a pair are the
//! first of either part; then the entry is taken that prefers one of the parts most, and goes to the part whose cover grows less.
//! It touches no cell.
ghost use Rattle.std.specs.Prelude.{◌≡◌, ◌+◌, ◌<◌, ◌≤◌, [], ◌∷◌, ◌++◌, length, true, false, IsPermutation};
ghost use Rattle.rdb_cells.specs.RtreeFormat.{most_entries};
ghost use Rattle.rdb_rtree.specs.Trees.{least_entries};

use crate::boxes::{growth, joined, size};
use crate::entry::{Entries, Entry, LEAST_ENTRIES};
use rdb_base::value::Rect;

/// A part of the entries, with the box that covers it.
#[derive(Drop)]
struct Part {
    entries: Entries,
    cover: Rect,
}

impl Part {
    /// Returns the part that has one entry.
    fn of(entry: Entry) -> Part
        ensures { result.entries.items ≡ entry ∷ [] }
    {
        let mut entries = Entries::new();
        entries.push(entry);
        Part {
            entries,
            cover: entry.cover,
        }
    }

    /// Adds an entry.
    fn add(&mut self, entry: Entry)
        requires { length self.old.entries.items < 14 }
        ensures { self.new.entries.items ≡ self.old.entries.items ++ entry ∷ [] }
    {
        self.cover = joined(&self.cover, &entry.cover);
        self.entries.push(entry);
    }
}

/// Returns how much of the box that covers two is in neither of them: less than nothing where they overlap.
fn waste(a: &Rect, b: &Rect) -> i128 {
    i128::from(size(&joined(a, b))) - i128::from(size(a)) - i128::from(size(b))
}

/// Returns the places of the two entries that would waste most as a pair, the lower one first.
fn seeds(entries: &[Entry]) -> (usize, usize)
    requires { 1 < length entries.now }
    ensures order { result.0 < result.1 }
    ensures within { result.1 < length entries.now }
{
    let mut pair = (0, 1);
    let mut most = waste(&entries[0].cover, &entries[1].cover);
    for upper in 1..entries.len() {
        for lower in 0..upper {
            let own = waste(&entries[lower].cover, &entries[upper].cover);
            if own > most {
                pair = (lower, upper);
                most = own;
            }
        }
    }
    pair
}

/// Returns the place of the entry that prefers one of two covers most: whose growth they differ most in.
fn most_decided(entries: &[Entry], left: &Rect, right: &Rect) -> usize
    requires { 0 < length entries.now }
    ensures { result < length entries.now }
{
    let mut best = 0;
    let mut most = 0;
    for (place, entry) in entries.iter().enumerate() {
        let own = growth(left, &entry.cover).abs_diff(growth(right, &entry.cover));
        if own > most {
            best = place;
            most = own;
        }
    }
    best
}

/// Returns whether the left part is the better one for an entry: its cover grows less, or is smaller, or it has fewer entries.
fn prefers_left(left: &Part, right: &Part, entry: &Entry) -> bool {
    let to_left = (
        growth(&left.cover, &entry.cover),
        size(&left.cover),
        left.entries.len(),
    );
    let to_right = (
        growth(&right.cover, &entry.cover),
        size(&right.cover),
        right.entries.len(),
    );
    to_left <= to_right
}

/// Returns whether the next entry goes to the left part. A part gets all that are left where it needs them to have enough.
fn goes_left(left: &Part, right: &Part, entry: &Entry, rest: &Entries) -> bool
    requires { 8 ≤ length left.now.entries.items + length right.now.entries.items + length rest.now.items }
    ensures left { result ≡ true → least_entries ≤ length right.now.entries.items + length rest.now.items }
    ensures right { result ≡ false → least_entries ≤ length left.now.entries.items + length rest.now.items }
{
    if left.entries.len() + rest.len() < LEAST_ENTRIES {
        return true;
    }
    if right.entries.len() + rest.len() < LEAST_ENTRIES {
        return false;
    }
    prefers_left(left, right, entry)
}

/// Parts the entries into two nodes.
pub(crate) fn split(entries: Entries) -> (Entries, Entries)
    requires { most_entries < length entries.items }
    ensures all { IsPermutation entries.items (result.0.items ++ result.1.items) }
    ensures left { (least_entries ≤ length result.0.items) × (length result.0.items ≤ most_entries) }
    ensures right { (least_entries ≤ length result.1.items) × (length result.1.items ≤ most_entries) }
{
    let mut rest = entries;
    let (lower, upper) = seeds(rest.as_slice());
    let mut right = Part::of(rest.remove(upper));
    let mut left = Part::of(rest.remove(lower));
    while !rest.is_empty() {
        let place = most_decided(rest.as_slice(), &left.cover, &right.cover);
        let entry = rest.remove(place);
        if goes_left(&left, &right, &entry, &rest) {
            left.add(entry);
        } else {
            right.add(entry);
        }
    }
    (left.entries, right.entries)
}
