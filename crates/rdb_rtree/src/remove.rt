//! A version taken out of the tree: out of the leaf that has it, among the nodes whose box covers the version's; and a node that
//! is left with too few entries takes in those of a sibling, or shares with it where they are too many for one node. It writes
//! nodes and the head.
ghost use Rattle.std.specs.Prelude.{◌≡◌, ◌==◌, ◌≤◌, ◌<◌, ◌+◌, ◌++◌, ◌*◌, ℕ, suc, List, length, Contains, Some, IfSome, IfNone, position};
ghost use Rattle.rdb_pages.specs.Pages.{zero_cell};
ghost use Rattle.rdb_cells.specs.HeadFormat.{index_head_cell, rooted_head};
ghost use Rattle.rdb_cells.specs.Images.{IsCell};
ghost use Rattle.rdb_cells.specs.Keys.{Sayings, says};
ghost use Rattle.rdb_cells.specs.Work.{work, reading};
ghost use Rattle.rdb_rtree.specs.Changes.{most_shared, HasPlaces, versions_below, with_cell, AreOthers, AreElsewhere, IsWithout, IsShrinking, HasShrunk};
ghost use Rattle.rdb_rtree.specs.Changes.{IsToMend, IsMended, IsToShare, AreShared, first_place, IsToLower, IsLowered, IsTreeRemoved};
ghost use Rattle.rdb_rtree.specs.Nature.{IsRtreeIndex};
ghost use Rattle.rdb_rtree.specs.Trees.{Node as NodeOf, RTree, root_entries};

use crate::boxes::{cover_of, least_grown, lies_in};
use crate::entry::{Entries, Entry, LEAST_ENTRIES};
use crate::node::{entries_at, node_at, put_cell, put_node};
use crate::rtree::Rtree;
use crate::split::split;
use rdb_cells::{Cells, IndexHead, Keys, NONE, Overlay, RTREE_ENTRIES};
use rdb_pages::{Cell, CellRef};

/// Takes the version, which is listed, out of the tree.
pub(crate) fn remove<C: Cells, K: Keys>(
    tree: &Rtree,
    cells: &mut Overlay<C>,
    keys: &K,
    version: CellRef,
)
    requires standing { (listed : _) × (nodes : _)
        × IsRtreeIndex tree.now.head.number (says (K.meaning keys.now) (reading (work C.Cells cells.old)))
        (reading (work C.Cells cells.old)) listed nodes
        × Contains listed version }
    requires places { HasPlaces (work C.Cells cells.old) 24 }
    ensures removed { (listed : _) (nodes : _) →
        (is : IsRtreeIndex tree.now.head.number (says (K.meaning keys.now) (reading (work C.Cells cells.old)))
        (reading (work C.Cells cells.old)) listed nodes) →
        Contains listed version → IsTreeRemoved (says (K.meaning keys.now) (reading (work C.Cells cells.old))) (work C.Cells cells.old)
        (work C.Cells cells.new) version tree.now.head.number is.tree }
    ensures below { (cells.new.cells ≡ cells.old.cells) × (cells.new.class ≡ cells.old.class) }
{
    let lost = Entry {
        at: version,
        cover: keys.rect(&*cells, version),
    };
    let root = IndexHead::root_in(cells.planned(tree.head), 0);
    let node = node_at(&*cells, root);
    let top = Entry {
        at: root,
        cover: node.cover,
    };
    let Some(entries) = without_entry(cells, keys, top, node.level, lost) else {
        unreachable!()
    };
    lower_root(cells, tree.head, root, node.level, entries);
}

/// Returns how many entries a root of a level has at least: one in a leaf, and two above.
fn least_of_root(level: u32) -> usize
    ensures { result ≡ root_entries level }
{
    if level == 0 { 1 } else { 2 }
}

/// Returns where the first of some entries stands, or no cell where there is none.
fn first_place(entries: &[Entry]) -> CellRef
    ensures { result ≡ first_place entries.now }
{
    match entries {
        [first, _rest @ ..] => first.at,
        [] => NONE,
    }
}

/// Gives the root's cell back, and lets the head lead to another root, or to none.
fn lead_to<C: Cells>(cells: &mut Overlay<C>, head: CellRef, root: CellRef, top: CellRef)
    requires root { IsCell (reading (work C.Cells cells.old)) root.number }
    requires head { IsCell (reading (work C.Cells cells.old)) head.number }
    requires places { HasPlaces (work C.Cells cells.old) 2 }
    ensures work { work C.Cells cells.new ≡
        with_cell (with_cell (work C.Cells cells.old) root zero_cell) head (index_head_cell (rooted_head top)) }
    ensures below { (cells.new.cells ≡ cells.old.cells) × (cells.new.class ≡ cells.old.class) }
{
    put_cell(cells, root, Cell::ZERO);
    put_cell(cells, head, IndexHead::rooted(top).to_cell());
}

/// Writes the root with the entries that are left to it. A leaf without an entry goes, and so does a root above one node, to
/// which the head leads then.
fn lower_root<C: Cells>(
    cells: &mut Overlay<C>,
    head: CellRef,
    root: CellRef,
    level: u32,
    entries: Entries,
)
    requires lowers { (said : Sayings) × (h : ℕ) × (ts : List (RTree h))
        × IsToLower said (work C.Cells cells.old) head root level h ts entries.items }
    requires places { HasPlaces (work C.Cells cells.old) 2 }
    ensures lowered { (said : Sayings) (h : ℕ) (ts : List (RTree h)) →
        IsToLower said (work C.Cells cells.old) head root level h ts entries.items →
        IsLowered said (work C.Cells cells.old) (work C.Cells cells.new) head root h ts }
    ensures below { (cells.new.cells ≡ cells.old.cells) × (cells.new.class ≡ cells.old.class) }
{
    let left = entries.as_slice();
    if left.len() >= least_of_root(level) {
        let _root = put_node(cells, root, level, left);
        return;
    }
    lead_to(cells, head, root, first_place(left));
}

/// Returns the place of an entry that stands in a cell, if there is one.
fn place_of(entries: &[Entry], at: CellRef) -> Option<usize>
    ensures { result ≡ position (λ entry. entry.at.number == at.number) entries.now }
{
    entries
        .iter()
        .position(|entry| entry.at.number == at.number)
}

/// Returns the entries without the one that stands in a cell; or `None` where there is no such one.
fn without(entries: Entries, at: CellRef) -> Option<Entries>
    ensures found { IfSome result (λ left. IsWithout entries.items at left.items) }
    ensures none { IfNone result (AreElsewhere at entries.items) }
{
    match place_of(entries.as_slice(), at) {
        Some(place) => {
            let mut left = entries;
            let _lost = left.remove(place);
            Some(left)
        }
        None => None,
    }
}

/// Takes the version out from below a node, and returns the entries that the node is to have, which may be one too few; or
/// `None` where it isn't there, which a node whose box doesn't cover the version's shows at once. The cost grows with the number
/// of nodes whose box covers the version's.
fn without_entry<C: Cells, K: Keys>(
    cells: &mut Overlay<C>,
    keys: &K,
    node: Entry,
    level: u32,
    lost: Entry,
) -> Option<Entries>
    requires tree { (said : Sayings) × (h : ℕ) × (t : NodeOf (RTree h))
        × IsShrinking (K.meaning keys.now) said (reading (work C.Cells cells.old)) node level lost h t }
    requires places { HasPlaces (work C.Cells cells.old) (2 * level) }
    ensures found { IfSome result (λ entries. (said : Sayings) (h : ℕ) (t : NodeOf (RTree h)) →
        IsShrinking (K.meaning keys.now) said (reading (work C.Cells cells.old)) node level lost h t →
        HasShrunk said (work C.Cells cells.old) (work C.Cells cells.new) lost.at h t.below entries.items) }
    ensures none { IfNone result ((said : Sayings) (h : ℕ) (t : NodeOf (RTree h)) →
        IsShrinking (K.meaning keys.now) said (reading (work C.Cells cells.old)) node level lost h t →
        AreOthers lost.at (versions_below h t.below) × (work C.Cells cells.new ≡ work C.Cells cells.old)) }
    ensures below { (cells.new.cells ≡ cells.old.cells) × (cells.new.class ≡ cells.old.class) }
{
    if !lies_in(&lost.cover, &node.cover) {
        return None;
    }
    let entries = entries_at(&*cells, keys, node.at, level);
    if level == 0 {
        return without(entries, lost.at);
    }
    for place in 0..entries.len() {
        let child = entries.as_slice()[place];
        if let Some(left) = without_entry(cells, keys, child, level - 1, lost) {
            let mut others = entries;
            let _child = others.remove(place);
            mend(cells, keys, child.at, level - 1, left, &mut others);
            return Some(others);
        }
    }
    None
}

/// Writes a node with the entries that are left to it, together with a sibling where they are too few: the one whose cover grows
/// least. Appends what it wrote to the entries of the node above.
fn mend<C: Cells, K: Keys>(
    cells: &mut Overlay<C>,
    keys: &K,
    at: CellRef,
    level: u32,
    left: Entries,
    above: &mut Entries,
)
    requires mends { (said : Sayings) × (h : ℕ) × (own : List (RTree h)) × (beside : List (RTree (suc h)))
        × IsToMend (K.meaning keys.now) said (work C.Cells cells.old) at level h own beside left.items above.old.items }
    requires places { HasPlaces (work C.Cells cells.old) 2 }
    ensures mended { (said : Sayings) (h : ℕ) (own : List (RTree h)) (beside : List (RTree (suc h))) →
        IsToMend (K.meaning keys.now) said (work C.Cells cells.old) at level h own beside left.items above.old.items →
        IsMended said (work C.Cells cells.old) (work C.Cells cells.new) at h own beside above.new.items }
    ensures below { (cells.new.cells ≡ cells.old.cells) × (cells.new.class ≡ cells.old.class) }
{
    if left.len() >= LEAST_ENTRIES {
        let node = put_node(cells, at, level, left.as_slice());
        above.push(node);
        return;
    }
    let place = least_grown(above.as_slice(), &cover_of(left.as_slice()));
    let sibling = above.remove(place);
    let others = entries_at(&*cells, keys, sibling.at, level);
    let both = together(left, others.as_slice());
    share(cells, at, sibling.at, level, both, above);
}

/// Returns the entries of two nodes, the second's behind the first's.
fn together(first: Entries, second: &[Entry]) -> Entries
    requires { length first.items + length second.now ≤ most_shared }
    ensures { result.items ≡ first.items ++ second.now }
{
    let mut both = first;
    for entry in second {
        both.push(*entry);
    }
    both
}

/// Writes the entries of two nodes into the first and gives the second back, or where they are too many writes both. Appends what
/// it wrote to the entries of the node above.
fn share<C: Cells>(
    cells: &mut Overlay<C>,
    at: CellRef,
    other: CellRef,
    level: u32,
    entries: Entries,
    above: &mut Entries,
)
    requires shares { (said : Sayings) × (h : ℕ) × (ts : List (RTree h))
        × IsToShare said (work C.Cells cells.old) at other level h ts entries.items }
    requires above { length above.old.items ≤ 12 }
    requires places { HasPlaces (work C.Cells cells.old) 2 }
    ensures shared { (said : Sayings) (h : ℕ) (ts : List (RTree h)) →
        IsToShare said (work C.Cells cells.old) at other level h ts entries.items →
        AreShared said (work C.Cells cells.old) (work C.Cells cells.new) at other h ts above.old.items above.new.items }
    ensures below { (cells.new.cells ≡ cells.old.cells) × (cells.new.class ≡ cells.old.class) }
{
    if entries.len() <= RTREE_ENTRIES {
        put_cell(cells, other, Cell::ZERO);
        let node = put_node(cells, at, level, entries.as_slice());
        above.push(node);
        return;
    }
    let (left, right) = split(entries);
    let second = put_node(cells, other, level, right.as_slice());
    let first = put_node(cells, at, level, left.as_slice());
    above.push(first);
    above.push(second);
}
