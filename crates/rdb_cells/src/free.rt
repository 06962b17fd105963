//! The search for the lowest free cell of cells that lie over others. It reads, and takes no memory.
ghost use Rattle.std.specs.Prelude.{◌≡◌, ℕ, Option, IsTrue, true, ◌↔◌, map};
ghost use Rattle.rdb_cells.specs.Free.{IsLowestAmong, sooner_of};
ghost use Rattle.rdb_cells.specs.Images.{Image, IsCell, IsFree};
ghost use Rattle.rdb_cells.specs.Records.{names, some_names};

use crate::cells::Cells;
use crate::pairs::{HasPairs, Pair};
use crate::undo::Undo;
use rdb_pages::CellRef;

/// Cells that lie over others, of which a few differ.
pub(crate) trait Layer {
    ghost image: { Self → Image };

    ghost class_of: { Self → ℕ → Option ℕ };

    /// Returns whether the cell is free in the class.
    fn is_free(&self, class: u32, at: CellRef) -> bool
        requires { IsCell (image self.now) at.number }
        ensures { IsTrue result ↔ IsFree (image self.now) (class_of self.now) class at.number };
}

/// Returns the lower of the two.
pub(crate) fn sooner(one: Option<CellRef>, other: Option<CellRef>) -> Option<CellRef>
    ensures { result ≡ sooner_of one other }
{
    match one {
        None => other,
        Some(first) => match other {
            None => Some(first),
            Some(second) => {
                if second.number < first.number {
                    Some(second)
                } else {
                    Some(first)
                }
            }
        },
    }
}

/// Returns the cell if it is free and stands above `above`.
fn this_one<L: Layer>(layer: &L, class: u32, above: CellRef, at: CellRef) -> Option<CellRef>
    requires { IsCell (L.image layer.now) at.number }
    ensures { IsLowestAmong (L.image layer.now) (L.class_of layer.now) class above.number (λ n. n ≡ at.number) result }
{
    if above.number < at.number && layer.is_free(class, at) {
        Some(at)
    } else {
        None
    }
}

/// Returns the lowest free cell above `above` of those that the pairs name. The cost grows with their number.
pub(crate) fn lowest_named<L: Layer>(
    layer: &L,
    class: u32,
    above: CellRef,
    pairs: &[Pair],
) -> Option<CellRef>
    requires { (n : ℕ) → names pairs.now n ≡ true → IsCell (L.image layer.now) n }
    ensures { IsLowestAmong (L.image layer.now) (L.class_of layer.now) class above.number (λ n. names pairs.now n ≡ true) result }
{
    let mut best = None;
    for pair in pairs {
        best = sooner(best, this_one(layer, class, above, pair.at));
    }
    best
}

/// Returns the lowest free cell above `above` of those that the records name. The cost grows with their pairs.
pub(crate) fn lowest_logged<L: Layer>(
    layer: &L,
    class: u32,
    above: CellRef,
    records: &[&Undo],
) -> Option<CellRef>
    requires { (n : ℕ) → some_names (map (λ r. r.now.pairs) records.now) n ≡ true → IsCell (L.image layer.now) n }
    ensures { IsLowestAmong (L.image layer.now) (L.class_of layer.now) class above.number (λ n. some_names (map
        (λ r. r.now.pairs) records.now) n ≡ true) result }
{
    let mut best = None;
    for record in records {
        best = sooner(best, lowest_named(layer, class, above, record.as_slice()));
    }
    best
}

/// Returns the lowest free cell above `above` of those that are free below the layer too. The cost is that of one search
/// there for it, and for each free cell that the layer fills before it.
pub(crate) fn lowest_below<L: Layer, C: Cells>(
    layer: &L,
    below: &C,
    class: u32,
    above: CellRef,
) -> Option<CellRef>
    requires { (n : ℕ) → IsFree (C.image below.now) (C.class_of below.now) class n → IsCell (L.image layer.now) n }
    ensures { IsLowestAmong (L.image layer.now) (L.class_of layer.now) class above.number (IsFree (C.image below.now)
        (C.class_of below.now) class) result }
{
    let mut last = above;
    while let Some(next) = below.free_after(class, last) {
        if layer.is_free(class, next) {
            return Some(next);
        }
        last = next;
    }
    None
}
