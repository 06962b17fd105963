//! What the tree lists: all versions, those with a key, and the first past a place. It only reads.
ghost use Rattle.std.specs.Prelude.{◌≡◌, ◌+◌, ◌*◌, ◌≤◌, ◌<◌, ◌++◌, ℕ, length, slice_get, None, OnOk, Contains, true};
ghost use Rattle.std.specs.List.{last_or, filter};
ghost use Rattle.std.specs.Option.{unwrap_or};
ghost use Rattle.rdb_cells.specs.Keys.{says, HasKey};
ghost use Rattle.rdb_cells.specs.TreeFormat.{most_keys};
ghost use Rattle.rdb_cells.specs.Words.{no_ref};
ghost use Rattle.rdb_tree.specs.Lookups.{first_past, has_key, PlaceFits, first_of, key_beyond};
ghost use Rattle.rdb_tree.specs.Nature.{IsRootedAt};
ghost use Rattle.rdb_tree.specs.Order.{AreKeyed};
ghost use Rattle.rdb_tree.specs.Trees.{Tree, BTree, IsTreeAt, versions, versions_of, levels_of, children_in};

use crate::node::{MAX_LEVELS, children_of, keys_of, node_at};
use crate::search::count_near;
use rdb_base::list::NoMemory;
use rdb_base::operation::Place;
use rdb_base::steps::Steps;
use rdb_base::value::Row;
use rdb_cells::{Cells, Keys, NONE, Refs, TreeNode};
use rdb_pages::CellRef;
use std::cmp::Ordering;
use std::sync::ledger::Ledger;

/// Appends the versions of a tree with fewer levels above its leaves than this, in order. The only error is want of memory.
pub(crate) fn gather_versions<C: Cells>(
    cells: &C,
    at: CellRef,
    levels: u32,
    refs: &mut Refs,
) -> Result<(), NoMemory>
    requires { (h : ℕ) × (t : BTree h) × IsTreeAt (C.image cells.now) at levels h t }
    ensures { OnOk result ((h : ℕ) (t : BTree h) → IsTreeAt (C.image cells.now) at levels h t → refs.new ≡ refs.old ++ versions h t) }
{
    let node = node_at(cells, at);
    let own = keys_of(&node);
    if node.leaf {
        return refs.extend_from_slice(own);
    }
    let children = children_of(&node);
    for place in 0..own.len() {
        gather_versions(cells, children[place], levels - 1, refs)?;
        refs.push(own[place])?;
    }
    gather_versions(cells, children[own.len()], levels - 1, refs)
}

/// Appends the versions with the key, in order, of a tree with fewer levels above its leaves than this. The only error is want
/// of memory.
pub(crate) fn gather_equal<C: Cells, K: Keys, L: Ledger>(
    cells: &C,
    keys: &K,
    key: &Row,
    at: CellRef,
    levels: u32,
    refs: &mut Refs,
    steps: &mut Steps<L>,
) -> Result<(), NoMemory>
    requires tree { (h : ℕ) × (t : BTree h) × IsTreeAt (C.image cells.now) at levels h t
        × AreKeyed (says (K.meaning keys.now) (C.image cells.now)) (versions h t) }
    requires key { (K.meaning keys.now).fits key.now ≡ true }
    ensures { OnOk result ((h : ℕ) (t : BTree h) → IsTreeAt (C.image cells.now) at levels h t →
        AreKeyed (says (K.meaning keys.now) (C.image cells.now)) (versions h t) →
        refs.new ≡ refs.old ++ filter (has_key (says (K.meaning keys.now) (C.image cells.now)) key.now) (versions h t)) }
{
    let node = node_at(cells, at);
    let own = keys_of(&node);
    if node.leaf {
        return push_equal(cells, keys, key, own, refs, steps);
    }
    let children = children_of(&node);
    for place in 0..own.len() {
        match keys.against(cells, own[place], key, None, steps) {
            Ordering::Less => {}
            Ordering::Equal => {
                gather_equal(cells, keys, key, children[place], levels - 1, refs, steps)?;
                refs.push(own[place])?;
            }
            Ordering::Greater => {
                return gather_equal(cells, keys, key, children[place], levels - 1, refs, steps);
            }
        }
    }
    gather_equal(
        cells,
        keys,
        key,
        children[own.len()],
        levels - 1,
        refs,
        steps,
    )
}

/// Appends those of the versions that have the key.
fn push_equal<C: Cells, K: Keys, L: Ledger>(
    cells: &C,
    keys: &K,
    key: &Row,
    own: &[CellRef],
    refs: &mut Refs,
    steps: &mut Steps<L>,
) -> Result<(), NoMemory>
    requires keyed { (r : CellRef) → Contains own.now r → HasKey (K.meaning keys.now) (C.image cells.now) r }
    requires key { (K.meaning keys.now).fits key.now ≡ true }
    ensures { OnOk result (refs.new ≡ refs.old ++ filter (has_key (says (K.meaning keys.now) (C.image cells.now)) key.now) own.now) }
{
    for place in 0..own.len() {
        match keys.against(cells, own[place], key, None, steps) {
            Ordering::Equal => refs.push(own[place])?,
            _ => {}
        }
    }
    Ok(())
}

/// Returns the first version past the place, upwards or downwards, of a tree with this root.
pub(crate) fn seek_from<C: Cells, K: Keys, L: Ledger>(
    cells: &C,
    keys: &K,
    place: &Place,
    up: bool,
    root: CellRef,
    steps: &mut Steps<L>,
) -> Option<CellRef>
    requires rooted { (tree : Tree) × IsRootedAt (says (K.meaning keys.now) (C.image cells.now)) (C.image cells.now) root tree }
    requires place { PlaceFits (K.meaning keys.now) place.now }
    ensures first { (tree : Tree) → IsRootedAt (says (K.meaning keys.now) (C.image cells.now)) (C.image cells.now) root tree →
        result ≡ first_past (says (K.meaning keys.now) (C.image cells.now)) place.now up (versions_of tree) }
    ensures bound { (tree : Tree) → IsRootedAt (says (K.meaning keys.now) (C.image cells.now)) (C.image cells.now) root tree →
        steps.new ≤ steps.old + 7 * levels_of tree }
{
    let mut at = root;
    let mut best = None;
    for _ in 0..MAX_LEVELS {
        if at == NONE {
            return best;
        }
        let node = node_at(cells, at);
        let versions = keys_of(&node);
        let near = count_near(cells, keys, versions, place, up, steps);
        best = nearest(versions, near, up, best);
        at = child_at(&node, near);
    }
    unreachable!()
}

/// Returns the version next to those on the near side, upwards the first behind them and downwards the last of them; or else
/// the best so far.
fn nearest(versions: &[CellRef], near: usize, up: bool, best: Option<CellRef>) -> Option<CellRef>
    requires { near ≤ length versions.now }
    ensures { result ≡ first_of (key_beyond up near versions.now) best }
{
    let own = if up {
        versions.get(near).copied()
    } else {
        last_of(&versions[..near])
    };
    own.or(best)
}

/// Returns the last version, if there is one.
fn last_of(versions: &[CellRef]) -> Option<CellRef>
    ensures { result ≡ last_or None versions.now }
{
    versions.last().copied()
}

/// Returns the child at a place, and none of a leaf.
pub(crate) fn child_at(node: &TreeNode, place: usize) -> CellRef
    requires { node.now.count ≤ most_keys }
    ensures { result ≡ unwrap_or (slice_get (children_in node.now) place) no_ref }
{
    children_of(node).get(place).copied().unwrap_or(NONE)
}
