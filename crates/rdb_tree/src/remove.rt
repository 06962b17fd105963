//! A version taken out of the tree: from a leaf, whose last version replaces it where it stands in an inner node; and a node
//! with too few keys is mended on the way up, by a key of a sibling that can spare one, or else by merging. It writes nodes and
//! the head.
ghost use Rattle.std.specs.Prelude.{◌≡◌, ◌≤◌, ◌<◌, ◌+◌, ◌*◌, ℕ, suc, List, length, nat_lt, nat_le};
ghost use Rattle.std.specs.Option.{unwrap_or};
ghost use Rattle.std.specs.Prelude.{slice_get, Some, true, false, ◌≢◌, Contains};
ghost use Rattle.rdb_pages.specs.declared.cell.CellRef.{CellRef as RefValue};
ghost use Rattle.rdb_cells.specs.Images.{IsCell};
ghost use Rattle.rdb_cells.specs.TreeFormat.{most_keys, most_children};
ghost use Rattle.rdb_cells.specs.Words.{no_ref};
ghost use Rattle.rdb_cells.specs.Work.{work, reading};
ghost use Rattle.rdb_tree.specs.Changes.{IsNodeAt, HasPlaces, Siblings, shared_left, shared_right, merged, with_cell, cell_of};
ghost use Rattle.rdb_cells.specs.Keys.{says};
ghost use Rattle.rdb_tree.specs.Losses.{IsShort, HasMended, IsBranch, IsHome, HasLost, HasLostLast, IsTreeRemoved, LowersRoot};
ghost use Rattle.rdb_tree.specs.Nature.{IsTree};
ghost use Rattle.rdb_tree.specs.Trees.{least_keys, node_with, keys_in};
ghost use Rattle.rdb_tree.specs.Trees.{BTree as TreeOf};

use crate::lookup::child_at;
use crate::node::{
    LEAST_KEYS, MAX_LEVELS, children_of, joined, keys_of, node_at, node_of, with_one, with_other,
    without_one,
};
use crate::search::count_before;
use crate::tree::Tree;
use rdb_cells::{Cells, IndexHead, Keys, NONE, Overlay, TreeNode};
use rdb_pages::{Cell, CellRef};

/// Takes the version, which is listed, out of the tree.
pub(crate) fn remove<C: Cells, K: Keys>(
    tree: &Tree,
    cells: &mut Overlay<C>,
    keys: &K,
    version: CellRef,
)
    requires standing { (listed : _) × (nodes : _)
        × IsTree tree.now.head.number (says (K.meaning keys.now) (reading (work C.Cells cells.old)))
        (reading (work C.Cells cells.old)) listed nodes
        × Contains listed version }
    requires places { HasPlaces (work C.Cells cells.old) 36 }
    ensures removed { (listed : _) (nodes : _) →
        (is : IsTree tree.now.head.number (says (K.meaning keys.now) (reading (work C.Cells cells.old)))
        (reading (work C.Cells cells.old)) listed nodes) →
        Contains listed version → IsTreeRemoved (work C.Cells cells.old) (work C.Cells cells.new) version tree.now.head.number is.tree }
    ensures below { (cells.new.cells ≡ cells.old.cells) × (cells.new.class ≡ cells.old.class) }
{
    let root = IndexHead::root_in(cells.planned(tree.head), 0);
    take_out(cells, keys, root, version, MAX_LEVELS);
    lower_root(cells, tree.head, root);
}

/// Takes the version out of a tree with fewer levels above its leaves than this: out of a leaf, or the last version before it
/// takes its place. The root keeps its cell, and may be left with a key less.
fn take_out<C: Cells, K: Keys>(
    cells: &mut Overlay<C>,
    keys: &K,
    at: CellRef,
    version: CellRef,
    levels: u32,
)
    requires tree { (h : ℕ) × (t : TreeOf h)
        × IsHome (says (K.meaning keys.now) (reading (work C.Cells cells.old))) (reading (work C.Cells cells.old))
        version at h t × (h < levels) }
    requires places { HasPlaces (work C.Cells cells.old) (3 * levels) }
    ensures lost { (h : ℕ) (t : TreeOf h) →
        IsHome (says (K.meaning keys.now) (reading (work C.Cells cells.old))) (reading (work C.Cells cells.old)) version at h t →
        HasLost (work C.Cells cells.old) (work C.Cells cells.new) version (3 * h + 2) h t }
    ensures below { (cells.new.cells ≡ cells.old.cells) × (cells.new.class ≡ cells.old.class) }
{
    let node = node_at(&*cells, at);
    let place = count_before(&*cells, keys, keys_of(&node), version);
    if node.leaf {
        let rest = without_one(keys_of(&node), place);
        put_node(cells, at, rest.as_slice(), &[]);
        return;
    }
    let child = child_at(&node, place);
    if is_at(keys_of(&node), place, version) {
        let last = take_last(cells, child, levels - 1);
        let versions = with_other(keys_of(&node), place, last);
        put_node(cells, at, versions.as_slice(), children_of(&node));
        mend(cells, at, place);
        return;
    }
    take_out(cells, keys, child, version, levels - 1);
    mend(cells, at, place);
}

/// Returns whether the version stands at a place among these.
fn is_at(versions: &[CellRef], place: usize, version: CellRef) -> bool
    ensures yes { result ≡ true → slice_get versions.now place ≡ Some version }
    ensures no { result ≡ false → slice_get versions.now place ≢ Some version }
{
    match versions.get(place) {
        Some(own) => *own == version,
        None => false,
    }
}

/// Returns the key at a place of a node, and none past the last.
fn key_at(node: &TreeNode, place: usize) -> CellRef
    requires { node.now.count ≤ most_keys }
    ensures { result ≡ unwrap_or (slice_get (keys_in node.now) place) no_ref }
{
    keys_of(node).get(place).copied().unwrap_or(NONE)
}

/// Takes the last version out of a tree with fewer levels above its leaves than this, and returns it. The root keeps its cell,
/// and may be left with a key less.
fn take_last<C: Cells>(cells: &mut Overlay<C>, at: CellRef, levels: u32) -> CellRef
    requires tree { (h : ℕ) × (t : TreeOf h) × IsBranch (reading (work C.Cells cells.old)) at least_keys h t × (h < levels) }
    requires places { HasPlaces (work C.Cells cells.old) (3 * levels) }
    ensures last { (h : ℕ) (t : TreeOf h) → IsBranch (reading (work C.Cells cells.old)) at least_keys h t →
        HasLostLast (work C.Cells cells.old) (work C.Cells cells.new) result h t }
    ensures below { (cells.new.cells ≡ cells.old.cells) × (cells.new.class ≡ cells.old.class) }
{
    let node = node_at(&*cells, at);
    let versions = keys_of(&node);
    if node.leaf {
        let place = versions.len() - 1;
        let (rest, _) = versions.split_at(place);
        let last = key_at(&node, place);
        put_node(cells, at, rest, &[]);
        return last;
    }
    let place = versions.len();
    let last = take_last(cells, child_at(&node, place), levels - 1);
    mend(cells, at, place);
    last
}

/// Takes a root away that has no key: the head leads to its only child then, or to none below a leaf.
fn lower_root<C: Cells>(cells: &mut Overlay<C>, head: CellRef, root: CellRef)
    requires root { (keys : List RefValue) × (children : List RefValue) × IsNodeAt (reading (work C.Cells cells.old)) root keys children }
    requires head { IsCell (reading (work C.Cells cells.old)) head.number }
    requires places { HasPlaces (work C.Cells cells.old) 2 }
    ensures lowers { (keys children : List RefValue) → IsNodeAt (reading (work C.Cells cells.old)) root keys children →
        LowersRoot (work C.Cells cells.old) (work C.Cells cells.new) head root keys children }
    ensures below { (cells.new.cells ≡ cells.old.cells) × (cells.new.class ≡ cells.old.class) }
{
    let node = node_at(&*cells, root);
    if node.count > 0 {
        return;
    }
    let top = child_at(&node, 0);
    put_cell(cells, root, Cell::ZERO);
    put_cell(cells, head, IndexHead::rooted(top).to_cell());
}

/// Mends a node whose child at a place may be a key too few: the child's left sibling gives a key, or else its right one, or
/// else the two merge, with the left one where there is one.
fn mend<C: Cells>(cells: &mut Overlay<C>, at: CellRef, place: usize)
    requires short { (h : ℕ) × (t : TreeOf (suc h)) × IsShort (reading (work C.Cells cells.old)) at place h t }
    requires places { HasPlaces (work C.Cells cells.old) 3 }
    ensures mended { (h : ℕ) (t : TreeOf (suc h)) → IsShort (reading (work C.Cells cells.old)) at place h t →
        HasMended (work C.Cells cells.old) (work C.Cells cells.new) h t }
    ensures below { (cells.new.cells ≡ cells.old.cells) × (cells.new.class ≡ cells.old.class) }
{
    let parent = node_at(&*cells, at);
    let versions = keys_of(&parent);
    let children = children_of(&parent);
    if has_enough(&*cells, children[place]) {
        return;
    }
    if place == 0 {
        if can_spare(&*cells, children[place + 1]) {
            share_from_right(cells, at, versions, children, place);
            return;
        }
        merge(cells, at, versions, children, place);
        return;
    }
    if can_spare(&*cells, children[place - 1]) {
        share_from_left(cells, at, versions, children, place - 1);
        return;
    }
    if place == versions.len() {
        merge(cells, at, versions, children, place - 1);
        return;
    }
    if can_spare(&*cells, children[place + 1]) {
        share_from_right(cells, at, versions, children, place);
        return;
    }
    merge(cells, at, versions, children, place - 1);
}

/// Returns whether a node has as many keys as it needs below the root.
fn has_enough<C: Cells>(cells: &Overlay<C>, at: CellRef) -> bool
    requires { (keys : List RefValue) × (children : List RefValue) × IsNodeAt (reading (work C.Cells cells.now)) at keys children }
    ensures { (keys children : List RefValue) → IsNodeAt (reading (work C.Cells cells.now)) at keys children →
        result ≡ nat_le least_keys (length keys) }
{
    keys_of(&node_at(cells, at)).len() >= LEAST_KEYS
}

/// Returns whether a node has more keys than it needs.
fn can_spare<C: Cells>(cells: &Overlay<C>, at: CellRef) -> bool
    requires { (keys : List RefValue) × (children : List RefValue) × IsNodeAt (reading (work C.Cells cells.now)) at keys children }
    ensures { (keys children : List RefValue) → IsNodeAt (reading (work C.Cells cells.now)) at keys children →
        result ≡ nat_lt least_keys (length keys) }
{
    keys_of(&node_at(cells, at)).len() > LEAST_KEYS
}

/// Moves the last key of the child before a key up, and that key down to the child behind it.
fn share_from_left<C: Cells>(
    cells: &mut Overlay<C>,
    at: CellRef,
    versions: &[CellRef],
    children: &[CellRef],
    place: usize,
)
    requires at { IsCell (reading (work C.Cells cells.old)) at.number }
    requires versions { length versions.now ≤ most_keys }
    requires children { length children.now ≤ most_children }
    requires siblings { (s : Siblings (reading (work C.Cells cells.old)) versions.now children.now place)
        × (0 < length s.left_keys) × (length s.right_keys < most_keys) }
    requires places { HasPlaces (work C.Cells cells.old) 3 }
    ensures work { (s : Siblings (reading (work C.Cells cells.old)) versions.now children.now place) →
        work C.Cells cells.new ≡ shared_left (work C.Cells cells.old) at s }
    ensures below { (cells.new.cells ≡ cells.old.cells) × (cells.new.class ≡ cells.old.class) }
{
    let pair = pair_at(&*cells, versions, children, place);
    let left = keys_of(&pair.left);
    let (kept, moved) = left.split_at(left.len() - 1);
    let below = children_of(&pair.left);
    let (kept_children, moved_children) = below.split_at(below.len().saturating_sub(1));
    let own = with_one(keys_of(&pair.right), 0, pair.between);
    let own_children = joined(moved_children, &[], children_of(&pair.right));
    let between = with_other(versions, place, moved[0]);
    put_node(cells, pair.left_at, kept, kept_children);
    put_node(
        cells,
        pair.right_at,
        own.as_slice(),
        own_children.as_slice(),
    );
    put_node(cells, at, between.as_slice(), children);
}

/// Moves the first key of the child behind a key up, and that key down to the child before it.
fn share_from_right<C: Cells>(
    cells: &mut Overlay<C>,
    at: CellRef,
    versions: &[CellRef],
    children: &[CellRef],
    place: usize,
)
    requires at { IsCell (reading (work C.Cells cells.old)) at.number }
    requires versions { length versions.now ≤ most_keys }
    requires children { length children.now ≤ most_children }
    requires siblings { (s : Siblings (reading (work C.Cells cells.old)) versions.now children.now place)
        × (0 < length s.right_keys) × (length s.left_keys < most_keys) }
    requires places { HasPlaces (work C.Cells cells.old) 3 }
    ensures work { (s : Siblings (reading (work C.Cells cells.old)) versions.now children.now place) →
        work C.Cells cells.new ≡ shared_right (work C.Cells cells.old) at s }
    ensures below { (cells.new.cells ≡ cells.old.cells) × (cells.new.class ≡ cells.old.class) }
{
    let pair = pair_at(&*cells, versions, children, place);
    let right = keys_of(&pair.right);
    let (moved, kept) = right.split_at(1);
    let below = children_of(&pair.right);
    let (moved_children, kept_children) = below.split_at(below.len().min(1));
    let own = joined(keys_of(&pair.left), &[pair.between], &[]);
    let own_children = joined(children_of(&pair.left), &[], moved_children);
    let between = with_other(versions, place, moved[0]);
    put_node(cells, pair.right_at, kept, kept_children);
    put_node(cells, pair.left_at, own.as_slice(), own_children.as_slice());
    put_node(cells, at, between.as_slice(), children);
}

/// Merges the children before and behind a key with that key, into the left one's cell.
fn merge<C: Cells>(
    cells: &mut Overlay<C>,
    at: CellRef,
    versions: &[CellRef],
    children: &[CellRef],
    place: usize,
)
    requires at { IsCell (reading (work C.Cells cells.old)) at.number }
    requires versions { length versions.now ≤ most_keys }
    requires children { length children.now ≤ most_children }
    requires siblings { (s : Siblings (reading (work C.Cells cells.old)) versions.now children.now place)
        × (length s.left_keys + length s.right_keys < most_keys) }
    requires places { HasPlaces (work C.Cells cells.old) 3 }
    ensures work { (s : Siblings (reading (work C.Cells cells.old)) versions.now children.now place) →
        work C.Cells cells.new ≡ merged (work C.Cells cells.old) at s }
    ensures below { (cells.new.cells ≡ cells.old.cells) × (cells.new.class ≡ cells.old.class) }
{
    let pair = pair_at(&*cells, versions, children, place);
    let own = joined(keys_of(&pair.left), &[pair.between], keys_of(&pair.right));
    let own_children = joined(children_of(&pair.left), &[], children_of(&pair.right));
    let rest = without_one(versions, place);
    let rest_children = without_one(children, place + 1);
    put_node(cells, pair.left_at, own.as_slice(), own_children.as_slice());
    put_cell(cells, pair.right_at, Cell::ZERO);
    put_node(cells, at, rest.as_slice(), rest_children.as_slice());
}

/// Writes a node.
fn put_node<C: Cells>(
    cells: &mut Overlay<C>,
    at: CellRef,
    versions: &[CellRef],
    children: &[CellRef],
)
    requires at { IsCell (reading (work C.Cells cells.old)) at.number }
    requires versions { length versions.now ≤ most_keys }
    requires children { length children.now ≤ most_children }
    requires places { HasPlaces (work C.Cells cells.old) 1 }
    ensures work { work C.Cells cells.new ≡ with_cell (work C.Cells cells.old) at (cell_of versions.now children.now) }
    ensures cells { (n : ℕ) → IsCell (reading (work C.Cells cells.old)) n → IsCell (reading (work C.Cells cells.new)) n }
    ensures places { length cells.new.plan.pairs ≤ length cells.old.plan.pairs + 1 }
    ensures room { cells.new.plan.room ≡ cells.old.plan.room }
    ensures below { (cells.new.cells ≡ cells.old.cells) × (cells.new.class ≡ cells.old.class) }
{
    let node = node_of(versions, children);
    put_cell(cells, at, node.to_cell());
}

/// Writes a cell.
fn put_cell<C: Cells>(cells: &mut Overlay<C>, at: CellRef, cell: Cell)
    requires at { IsCell (reading (work C.Cells cells.old)) at.number }
    requires places { HasPlaces (work C.Cells cells.old) 1 }
    ensures work { work C.Cells cells.new ≡ with_cell (work C.Cells cells.old) at cell }
    ensures cells { (n : ℕ) → IsCell (reading (work C.Cells cells.old)) n → IsCell (reading (work C.Cells cells.new)) n }
    ensures places { length cells.new.plan.pairs ≤ length cells.old.plan.pairs + 1 }
    ensures room { cells.new.plan.room ≡ cells.old.plan.room }
    ensures below { (cells.new.cells ≡ cells.old.cells) × (cells.new.class ≡ cells.old.class) }
{
    cells.put(at, cell);
}

/// Two children of a node, the key between them, and where they stand.
#[derive(Clone, Copy)]
struct Pair {
    between: CellRef,
    left_at: CellRef,
    right_at: CellRef,
    left: TreeNode,
    right: TreeNode,
}

/// Reads the children before and behind the key at a place of a node.
fn pair_at<C: Cells>(
    cells: &Overlay<C>,
    versions: &[CellRef],
    children: &[CellRef],
    place: usize,
) -> Pair
    requires { Siblings (reading (work C.Cells cells.now)) versions.now children.now place }
    ensures ends { (s : Siblings (reading (work C.Cells cells.now)) versions.now children.now place) →
        (result.between ≡ s.between) × (result.left_at ≡ s.left) × (result.right_at ≡ s.right) }
    ensures left { (s : Siblings (reading (work C.Cells cells.now)) versions.now children.now place) →
        result.left ≡ node_with s.left_keys s.left_children }
    ensures right { (s : Siblings (reading (work C.Cells cells.now)) versions.now children.now place) →
        result.right ≡ node_with s.right_keys s.right_children }
    ensures few { (result.left.count ≤ most_keys) × (result.right.count ≤ most_keys) }
    ensures cells { IsCell (reading (work C.Cells cells.now)) result.left_at.number
        × IsCell (reading (work C.Cells cells.now)) result.right_at.number }
    ensures place { (place < length versions.now) × (place + 1 < length children.now) }
{
    let left_at = children[place];
    let right_at = children[place + 1];
    Pair {
        between: versions[place],
        left_at,
        right_at,
        left: node_at(cells, left_at),
        right: node_at(cells, right_at),
    }
}
