//! A node as its entries, read from its cell and written to it.
ghost use Rattle.std.specs.Prelude.{◌≡◌, ◌+◌, ◌<◌, ◌≤◌, ◌^◌, ℕ, length, map, take};
ghost use Rattle.rdb_cells.specs.Images.{IsCell};
ghost use Rattle.rdb_cells.specs.Keys.{Sayings};
ghost use Rattle.rdb_cells.specs.RtreeFormat.{IsRtreeNode, most_entries};
ghost use Rattle.rdb_cells.specs.Work.{work, reading};
ghost use Rattle.rdb_rtree.specs.Boxes.{IsLeastCover};
ghost use Rattle.rdb_rtree.specs.Changes.{HasPlaces, with_cell, cell_of, entries_above};
ghost use Rattle.rdb_rtree.specs.Standing.{IsEntryAt, IsKeyedAt};
ghost use Rattle.rdb_rtree.specs.Trees.{Node as NodeOf, RTree, box, node_with, IsNodeAt};

use crate::boxes::cover_of;
use crate::entry::{Entries, Entry};
use rdb_base::value::Rect;
use rdb_cells::{Cells, Keys, NONE, Overlay, RTREE_ENTRIES, RtreeNode};
use rdb_pages::{Cell, CellRef};

/// Reads the node of a cell.
pub(crate) fn node_at<C: Cells>(cells: &C, at: CellRef) -> RtreeNode
    requires { IsCell (C.image cells.now) at.number }
    ensures { (node : RtreeNode) → IsNodeAt (C.image cells.now) at node → result ≡ node }
{
    RtreeNode::of_cell(cells.read(at))
}

/// Lends the references of a node's entries.
pub(crate) fn refs_of(node: &RtreeNode) -> &[CellRef]
    requires { node.now.count ≤ most_entries }
    ensures { result.now ≡ take node.now.count node.now.entries }
{
    &node.entries[..node.count as usize]
}

/// Returns the box of an entry of a node of a level: of a version by its key, and of a node as its cell says it.
fn cover_at<C: Cells, K: Keys>(cells: &C, keys: &K, at: CellRef, level: u32) -> Rect
    requires { (said : Sayings) × (h : ℕ) × (t : RTree h) × IsEntryAt (K.meaning keys.now) said (C.image cells.now) at level h t }
    ensures { (said : Sayings) (h : ℕ) (t : RTree h) → IsEntryAt (K.meaning keys.now) said (C.image cells.now) at level h t →
        result ≡ box said h t }
{
    if level == 0 {
        return keys.rect(cells, at);
    }
    RtreeNode::cover_in(cells.read(at))
}

/// Returns the entries of the node of a level. The cost grows with their number.
pub(crate) fn entries_at<C: Cells, K: Keys>(cells: &C, keys: &K, at: CellRef, level: u32) -> Entries
    requires { (said : Sayings) × (h : ℕ) × (t : NodeOf (RTree h))
        × IsKeyedAt (K.meaning keys.now) said (C.image cells.now) at level h t }
    ensures { (said : Sayings) (h : ℕ) (t : NodeOf (RTree h)) → IsKeyedAt (K.meaning keys.now) said (C.image cells.now) at level h t →
        result.items ≡ entries_above said h t.below }
{
    let node = node_at(cells, at);
    let refs = refs_of(&node);
    let mut entries = Entries::new();
    for own in refs {
        entries.push(Entry {
            at: *own,
            cover: cover_at(cells, keys, *own, level),
        });
    }
    entries
}

/// Returns the node of a level with these entries.
fn node_of(level: u32, entries: &[Entry]) -> RtreeNode
    requires level { level < 2 ^ 16 }
    requires entries { (0 < length entries.now) × (length entries.now ≤ most_entries) }
    ensures node { result ≡ node_with level result.cover (map (λ entry. entry.at) entries.now) }
    ensures cover { IsLeastCover (map (λ entry. entry.cover) entries.now) result.cover }
    ensures proper { IsRtreeNode result }
{
    let mut refs = [NONE; RTREE_ENTRIES];
    for place in 0..entries.len() {
        refs[place] = entries[place].at;
    }
    RtreeNode {
        count: entries.len() as u32,
        level,
        cover: cover_of(entries),
        entries: refs,
    }
}

/// Plans a node with these entries, and returns it as an entry of the node above.
pub(crate) fn put_node<C: Cells>(
    cells: &mut Overlay<C>,
    at: CellRef,
    level: u32,
    entries: &[Entry],
) -> Entry
    requires at { IsCell (reading (work C.Cells cells.old)) at.number }
    requires level { level < 2 ^ 16 }
    requires entries { (0 < length entries.now) × (length entries.now ≤ most_entries) }
    requires places { HasPlaces (work C.Cells cells.old) 1 }
    ensures at { result.at ≡ at }
    ensures cover { IsLeastCover (map (λ entry. entry.cover) entries.now) result.cover }
    ensures proper { IsRtreeNode (node_with level result.cover (map (λ entry. entry.at) entries.now)) }
    ensures work { work C.Cells cells.new ≡ with_cell (work C.Cells cells.old) at (cell_of level result.cover entries.now) }
    ensures cells { (n : ℕ) → IsCell (reading (work C.Cells cells.old)) n → IsCell (reading (work C.Cells cells.new)) n }
    ensures places { length cells.new.plan.pairs ≤ length cells.old.plan.pairs + 1 }
    ensures room { cells.new.plan.room ≡ cells.old.plan.room }
    ensures below { (cells.new.cells ≡ cells.old.cells) × (cells.new.class ≡ cells.old.class) }
{
    let node = node_of(level, entries);
    put_cell(cells, at, node.to_cell());
    Entry {
        at,
        cover: node.cover,
    }
}

/// Plans a cell.
pub(crate) fn put_cell<C: Cells>(cells: &mut Overlay<C>, at: CellRef, cell: Cell)
    requires at { IsCell (reading (work C.Cells cells.old)) at.number }
    requires places { HasPlaces (work C.Cells cells.old) 1 }
    ensures work { work C.Cells cells.new ≡ with_cell (work C.Cells cells.old) at cell }
    ensures cells { (n : ℕ) → IsCell (reading (work C.Cells cells.old)) n → IsCell (reading (work C.Cells cells.new)) n }
    ensures places { length cells.new.plan.pairs ≤ length cells.old.plan.pairs + 1 }
    ensures room { cells.new.plan.room ≡ cells.old.plan.room }
    ensures below { (cells.new.cells ≡ cells.old.cells) × (cells.new.class ≡ cells.old.class) }
{
    cells.put(at, cell);
}
