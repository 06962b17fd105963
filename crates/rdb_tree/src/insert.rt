//! A version put into the tree: into a leaf, and a node that has one key too many is split on the way up. It writes nodes, free
//! cells and the head, in this order on each level: the new right half, then the node. The fourth key goes up.
ghost use Rattle.std.specs.Prelude.{◌≡◌, ◌≤◌, ◌<◌, ◌+◌, ◌∷◌, [], Bool, List, length, take, drop, slice_get, Some};
ghost use Rattle.rdb_pages.specs.declared.cell.CellRef.{CellRef as RefValue};
ghost use Rattle.rdb_cells.specs.Images.{IsCell};
ghost use Rattle.rdb_cells.specs.TreeFormat.{most_children};
ghost use Rattle.rdb_cells.specs.Parts.{tree_part};
ghost use Rattle.rdb_cells.specs.Work.{work, reading, HasLeft};
ghost use Rattle.rdb_tree.specs.Changes.{IsNodeAt, FitsKeys, CanTake, HasPlaces, IsLowest, PutsInto, IsNewRoot, split_work, raised_keys, raised_children, FitsPlace};
ghost use Rattle.rdb_tree.specs.Trees.{most_refs};
ghost use Rattle.rdb_cells.specs.Keys.{HasKey, says};
ghost use Rattle.rdb_tree.specs.Nature.{IsTree, IsRootedAt, path_places};
ghost use Rattle.rdb_tree.specs.Order.{is_before};
ghost use Rattle.rdb_tree.specs.Growth.{IsWayDown, IsPutUpTo, IsTreePut};
ghost use Rattle.rdb_tree.specs.Ways.{GoesOnTo};
ghost use Rattle.rdb_tree.specs.Trees.{Tree as TreeValue, Empty};

use crate::lookup::child_at;
use crate::node::{MAX_LEVELS, Row, children_of, joined, keys_of, node_at, node_of, with_one};
use crate::path::{Path, Step};
use crate::search::count_before;
use crate::tree::Tree;
use rdb_cells::{Cells, IndexHead, Keys, NONE, Overlay, TREE_KEYS};
use rdb_pages::CellRef;

/// Which key of an overfull node goes up: as many stay before it.
const MIDDLE: usize = 3;

/// A key that goes up a level, with the node that stands behind it: none below a leaf.
#[derive(Clone, Copy)]
struct Raised {
    key: CellRef,
    right: CellRef,
}

/// Puts the version, which isn't listed, into the tree.
pub(crate) fn put<C: Cells, K: Keys>(
    tree: &Tree,
    cells: &mut Overlay<C>,
    keys: &K,
    version: CellRef,
)
    requires standing { (listed : _) × (nodes : _)
        × IsTree tree.now.head.number (says (K.meaning keys.now) (reading (work C.Cells cells.old)))
        (reading (work C.Cells cells.old)) listed nodes }
    requires version { HasKey (K.meaning keys.now) (reading (work C.Cells cells.old)) version }
    requires free { HasLeft (work C.Cells cells.old) tree_part }
    requires places { HasPlaces (work C.Cells cells.old) 24 }
    ensures put { (listed : _) (nodes : _) →
        (is : IsTree tree.now.head.number (says (K.meaning keys.now) (reading (work C.Cells cells.old)))
        (reading (work C.Cells cells.old)) listed nodes) →
        IsTreePut (work C.Cells cells.old) (work C.Cells cells.new)
        (is_before (says (K.meaning keys.now) (reading (work C.Cells cells.old))) version) version tree.now.head.number is.tree }
    ensures below { (cells.new.cells ≡ cells.old.cells) × (cells.new.class ≡ cells.old.class) }
{
    let root = IndexHead::root_in(cells.planned(tree.head), 0);
    let mut path = Path::new(tree.alloc);
    descend(&*cells, keys, version, root, &mut path);
    let Some(raised) = climb(cells, &mut path, version) else {
        return;
    };
    if root == NONE {
        grow(cells, tree.head, raised.key, &[]);
        return;
    }
    grow(cells, tree.head, raised.key, &[root, raised.right]);
}

/// Puts the version into the leaf at the end of a path, and what is raised into the nodes above it. Returns what is raised
/// from the root, if anything.
fn climb<C: Cells>(cells: &mut Overlay<C>, path: &mut Path, version: CellRef) -> Option<Raised>
    requires way { (near : RefValue → Bool) × (whole : TreeValue) × IsWayDown (reading (work C.Cells cells.old)) near whole path.old.items }
    requires free { HasLeft (work C.Cells cells.old) tree_part }
    requires places { HasPlaces (work C.Cells cells.old) 24 }
    ensures climbs { (near : RefValue → Bool) (whole : TreeValue) → IsWayDown (reading (work C.Cells cells.old)) near whole path.old.items →
        IsPutUpTo (work C.Cells cells.old) (work C.Cells cells.new) near version whole [] result }
    ensures below { (cells.new.cells ≡ cells.old.cells) × (cells.new.class ≡ cells.old.class) }
{
    let mut raised = Raised {
        key: version,
        right: NONE,
    };
    while let Some(step) = path.pop() {
        match put_into(cells, step, raised) {
            Some(higher) => raised = higher,
            None => return None,
        }
    }
    Some(raised)
}

/// Appends the steps from the root down to the place in a leaf where the version belongs. It takes no memory.
fn descend<C: Cells, K: Keys>(
    cells: &Overlay<C>,
    keys: &K,
    version: CellRef,
    root: CellRef,
    path: &mut Path,
)
    requires rooted { (tree : TreeValue) × IsRootedAt (says (K.meaning keys.now) (reading (work C.Cells cells.now)))
        (reading (work C.Cells cells.now)) root tree }
    requires version { HasKey (K.meaning keys.now) (reading (work C.Cells cells.now)) version }
    requires fresh { path.old.items ≡ [] }
    requires room { path.old.capacity ≡ path_places }
    ensures way { (tree : TreeValue) → IsRootedAt (says (K.meaning keys.now) (reading (work C.Cells cells.now)))
        (reading (work C.Cells cells.now)) root tree →
        GoesOnTo (is_before (says (K.meaning keys.now) (reading (work C.Cells cells.now))) version)
        path.old.items path.new.items tree Empty }
    ensures room { path.new.capacity ≡ path_places }
{
    let mut at = root;
    for _ in 0..MAX_LEVELS {
        if at == NONE {
            return;
        }
        let node = node_at(cells, at);
        let place = count_before(cells, keys, keys_of(&node), version);
        path.push_reserved(Step { at, place });
        at = child_at(&node, place);
    }
    unreachable!()
}

/// Puts what was raised into a node. Where the node is full, its right half goes into a new cell, and the middle key is
/// raised.
fn put_into<C: Cells>(cells: &mut Overlay<C>, step: Step, raised: Raised) -> Option<Raised>
    requires node { (keys : List RefValue) × (children : List RefValue)
        × IsNodeAt (reading (work C.Cells cells.old)) step.at keys children × (step.place ≤ length keys) }
    requires free { CanTake (work C.Cells cells.old) }
    requires places { HasPlaces (work C.Cells cells.old) 2 }
    ensures work { (keys children : List RefValue) → IsNodeAt (reading (work C.Cells cells.old)) step.at keys children →
        PutsInto (work C.Cells cells.old) (work C.Cells cells.new) step.at (raised_keys step.place raised.key keys)
        (raised_children step.place raised.right children) result }
    ensures below { (cells.new.cells ≡ cells.old.cells) × (cells.new.class ≡ cells.old.class) }
{
    let node = node_at(&*cells, step.at);
    let versions = with_one(keys_of(&node), step.place, raised.key);
    let children = with_child(children_of(&node), step.place, raised.right);
    if versions.as_slice().len() <= TREE_KEYS {
        let node = node_of(versions.as_slice(), children.as_slice());
        cells.put(step.at, node.to_cell());
        return None;
    }
    Some(split(cells, step.at, versions.as_slice(), children.as_slice()))
}

/// Returns the children of a node with one more behind a place, and none of a leaf.
fn with_child(children: &[CellRef], place: usize, right: CellRef) -> Row
    requires place { FitsPlace place children.now }
    requires room { length children.now < most_refs }
    ensures { result ≡ raised_children place right children.now }
{
    if children.is_empty() {
        joined(&[], &[], &[])
    } else {
        with_one(children, place + 1, right)
    }
}

/// Writes the right half of an overfull node into a new cell, and the left half into the node's, and raises the key between.
fn split<C: Cells>(
    cells: &mut Overlay<C>,
    at: CellRef,
    versions: &[CellRef],
    children: &[CellRef],
) -> Raised
    requires node { IsCell (reading (work C.Cells cells.old)) at.number }
    requires versions { length versions.now ≡ 8 }
    requires children { FitsKeys versions.now children.now }
    requires free { CanTake (work C.Cells cells.old) }
    requires places { HasPlaces (work C.Cells cells.old) 2 }
    ensures key { slice_get versions.now 3 ≡ Some result.key }
    ensures lowest { IsLowest (work C.Cells cells.old) result.right }
    ensures work { work C.Cells cells.new ≡ split_work (work C.Cells cells.old) result.right at versions.now children.now }
    ensures below { (cells.new.cells ≡ cells.old.cells) × (cells.new.class ≡ cells.old.class) }
{
    let (left_children, right_children) = halves_of(children);
    let (_, right_versions) = versions.split_at(MIDDLE + 1);
    let (left_versions, _) = versions.split_at(MIDDLE);
    let right = cells.take();
    let behind = node_of(right_versions, right_children);
    cells.put(right, behind.to_cell());
    let before = node_of(left_versions, left_children);
    cells.put(at, before.to_cell());
    Raised {
        key: versions[MIDDLE],
        right,
    }
}

/// Lends the children that stay in the left half of an overfull node, and those that go to the right one: none of a leaf.
fn halves_of(children: &[CellRef]) -> (&[CellRef], &[CellRef])
    ensures left { result.0.now ≡ take 4 children.now }
    ensures right { result.1.now ≡ drop 4 children.now }
{
    if children.len() <= MIDDLE {
        (children, &[])
    } else {
        children.split_at(MIDDLE + 1)
    }
}

/// Makes a new root with one key above these nodes, or none.
fn grow<C: Cells>(cells: &mut Overlay<C>, head: CellRef, key: CellRef, children: &[CellRef])
    requires head { IsCell (reading (work C.Cells cells.old)) head.number }
    requires children { length children.now ≤ most_children }
    requires free { CanTake (work C.Cells cells.old) }
    requires places { HasPlaces (work C.Cells cells.old) 2 }
    ensures root { IsNewRoot (work C.Cells cells.old) (work C.Cells cells.new) head (key ∷ []) children.now }
    ensures below { (cells.new.cells ≡ cells.old.cells) × (cells.new.class ≡ cells.old.class) }
{
    let top = cells.take();
    let node = node_of(&[key], children);
    cells.put(top, node.to_cell());
    cells.put(head, IndexHead::rooted(top).to_cell());
}
