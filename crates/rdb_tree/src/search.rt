//! Where a version, or a place, would stand among the keys of a node.
ghost use Rattle.std.specs.Prelude.{◌≡◌, ◌+◌, ◌≤◌, length, true, Some, Contains};
ghost use Rattle.std.specs.List.{prefix_len};
ghost use Rattle.rdb_cells.specs.Keys.{HasKey, says};
ghost use Rattle.rdb_tree.specs.Lookups.{goes_near, is_near, PlaceFits};
ghost use Rattle.rdb_tree.specs.Order.{is_before, goes};

use rdb_base::operation::Place;
use rdb_base::steps::Steps;
use rdb_base::value::Row;
use rdb_cells::{Cells, Keys};
use rdb_pages::CellRef;
use std::cmp::Ordering;
use std::sync::ledger::Ledger;

/// Returns how many of the versions, from the first on, go before the version.
pub(crate) fn count_before<C: Cells, K: Keys>(
    cells: &C,
    keys: &K,
    versions: &[CellRef],
    version: CellRef,
) -> usize
    requires keyed { (r : CellRef) → Contains versions.now r → HasKey (K.meaning keys.now) (C.image cells.now) r }
    requires version { HasKey (K.meaning keys.now) (C.image cells.now) version }
    ensures { result ≡ prefix_len (is_before (says (K.meaning keys.now) (C.image cells.now)) version) versions.now }
{
    for (place, own) in versions.iter().enumerate() {
        match keys.order(cells, *own, version) {
            Ordering::Less => {}
            _ => return place,
        }
    }
    versions.len()
}

/// Returns whether a version that goes so against a place is on its near side.
fn is_near_side(order: Ordering, up: bool) -> bool
    ensures { result ≡ goes_near up order }
{
    match order {
        Ordering::Less => true,
        Ordering::Equal => up,
        Ordering::Greater => false,
    }
}

/// Returns how many of the versions, from the first on, are on the near side of a key and an id: those that go before them,
/// and upwards those that are level with them, too.
fn count_near_key<C: Cells, K: Keys, L: Ledger>(
    cells: &C,
    keys: &K,
    versions: &[CellRef],
    key: &Row,
    id: u64,
    up: bool,
    steps: &mut Steps<L>,
) -> usize
    requires keyed { (r : CellRef) → Contains versions.now r → HasKey (K.meaning keys.now) (C.image cells.now) r }
    requires key { (K.meaning keys.now).fits key.now ≡ true }
    ensures count { result ≡ prefix_len (goes (goes_near up) (says (K.meaning keys.now) (C.image cells.now)) key.now (Some id))
        versions.now }
    ensures steps { steps.new ≤ steps.old + length versions.now }
{
    for (place, own) in versions.iter().enumerate() {
        let order = keys.against(cells, *own, key, Some(id), steps);
        if !is_near_side(order, up) {
            return place;
        }
    }
    versions.len()
}

/// Returns how many of the versions, from the first on, are on the near side of a place that is sought upwards or downwards.
pub(crate) fn count_near<C: Cells, K: Keys, L: Ledger>(
    cells: &C,
    keys: &K,
    versions: &[CellRef],
    place: &Place,
    up: bool,
    steps: &mut Steps<L>,
) -> usize
    requires keyed { (r : CellRef) → Contains versions.now r → HasKey (K.meaning keys.now) (C.image cells.now) r }
    requires place { PlaceFits (K.meaning keys.now) place.now }
    ensures count { result ≡ prefix_len (is_near (says (K.meaning keys.now) (C.image cells.now)) place.now up) versions.now }
    ensures steps { steps.new ≤ steps.old + length versions.now }
{
    match place {
        Place::Start => 0,
        Place::End => versions.len(),
        Place::At { key, id } => count_near_key(cells, keys, versions, key, *id, up, steps),
    }
}
