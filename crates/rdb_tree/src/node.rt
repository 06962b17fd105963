//! A node of the tree as its keys and its children, read from its cell and written to it. A leaf is a node without a child.
ghost use Rattle.std.specs.Prelude.{◌≡◌, ◌+◌, ◌<◌, ◌≤◌, ◌∷◌, ◌++◌, [], length, take, drop, suc, Some};
ghost use Rattle.rdb_cells.specs.Images.{IsCell};
ghost use Rattle.rdb_cells.specs.TreeFormat.{IsTreeNode, tree_node_cell, most_keys, most_children};
ghost use Rattle.rdb_tree.specs.Trees.{keys_in, children_in, node_with, most_refs};

use rdb_cells::{Cells, NONE, TREE_CHILDREN, TREE_KEYS, TreeNode};
use rdb_pages::CellRef;
use std::marker::Model;

/// The least keys of a node that isn't the root: the minimum degree is 4.
pub(crate) const LEAST_KEYS: usize = 3;

/// No tree has more levels, however many cells there are.
pub(crate) const MAX_LEVELS: u32 = 12;

/// How many references an overfull node has at most: its children.
pub(crate) const OVERFULL: usize = 9;

/// The keys or the children of a node, of which there may be one too many. Contracts see them as a list.
#[derive(Drop)]
pub(crate) struct Row {
    refs: [CellRef; OVERFULL],
    count: usize,
}

impl Model for Row {
    ghost use Rattle.std.specs.Prelude.{◌≤◌, List, take};
    ghost use Rattle.rdb_pages.specs.declared.cell.CellRef.{CellRef as Ref};
    ghost use Rattle.rdb_tree.specs.Trees.{most_refs};

    ghost Value = { List Ref };

    ghost view = { λ row. take row.count row.refs };

    ghost invariant = { λ row. row.count ≤ most_refs };
}

impl Row {
    /// Lends the references.
    pub fn as_slice(&self) -> &[CellRef]
        ensures { result.now ≡ self.now }
    {
        &self.refs[..self.count]
    }
}

/// Reads the node of a cell.
pub(crate) fn node_at<C: Cells>(cells: &C, at: CellRef) -> TreeNode
    requires { IsCell (C.image cells.now) at.number }
    ensures { (node : TreeNode) → IsTreeNode node → C.image cells.now at.number ≡ Some (tree_node_cell node) → result ≡ node }
{
    TreeNode::of_cell(cells.read(at))
}

/// Lends the keys of a node.
pub(crate) fn keys_of(node: &TreeNode) -> &[CellRef]
    requires { node.now.count ≤ most_keys }
    ensures { result.now ≡ keys_in node.now }
{
    &node.versions[..node.count as usize]
}

/// Lends the children of a node.
pub(crate) fn children_of(node: &TreeNode) -> &[CellRef]
    requires { node.now.count ≤ most_keys }
    ensures { result.now ≡ children_in node.now }
{
    if node.leaf {
        &node.children[..0]
    } else {
        &node.children[..node.count as usize + 1]
    }
}

/// Returns the node with these keys and children.
pub(crate) fn node_of(keys: &[CellRef], children: &[CellRef]) -> TreeNode
    requires keys { length keys.now ≤ most_keys }
    requires children { length children.now ≤ most_children }
    ensures node { result ≡ node_with keys.now children.now }
    ensures proper { IsTreeNode result }
{
    let mut versions = [NONE; TREE_KEYS];
    versions[..keys.len()].copy_from_slice(keys);
    let mut below = [NONE; TREE_CHILDREN];
    below[..children.len()].copy_from_slice(children);
    TreeNode {
        count: keys.len() as u32,
        leaf: children.is_empty(),
        versions,
        children: below,
    }
}

/// Returns three runs of references one after another, which fit.
pub(crate) fn joined(front: &[CellRef], middle: &[CellRef], back: &[CellRef]) -> Row
    requires { length front.now + (length middle.now + length back.now) ≤ most_refs }
    ensures { result ≡ front.now ++ (middle.now ++ back.now) }
{
    let mut refs = [NONE; OVERFULL];
    let first = front.len();
    let second = first + middle.len();
    let count = second + back.len();
    refs[..first].copy_from_slice(front);
    refs[first..second].copy_from_slice(middle);
    refs[second..count].copy_from_slice(back);
    Row { refs, count }
}

/// Returns the references with one more at a place.
pub(crate) fn with_one(refs: &[CellRef], place: usize, one: CellRef) -> Row
    requires place { place ≤ length refs.now }
    requires room { length refs.now < most_refs }
    ensures { result ≡ take place refs.now ++ one ∷ drop place refs.now }
{
    let (front, back) = refs.split_at(place);
    joined(front, &[one], back)
}

/// Returns the references with another one at a place.
pub(crate) fn with_other(refs: &[CellRef], place: usize, other: CellRef) -> Row
    requires place { place < length refs.now }
    requires room { length refs.now ≤ most_refs }
    ensures { result ≡ take place refs.now ++ other ∷ drop (suc place) refs.now }
{
    joined(&refs[..place], &[other], &refs[place + 1..])
}

/// Returns the references without the one at a place.
pub(crate) fn without_one(refs: &[CellRef], place: usize) -> Row
    requires place { place < length refs.now }
    requires room { length refs.now ≤ most_refs }
    ensures { result ≡ take place refs.now ++ drop (suc place) refs.now }
{
    joined(&refs[..place], &[], &refs[place + 1..])
}
