//! A version put into the tree: down into the node whose cover grows least on each level, and a node that has an entry too many
//! is split on the way up. It writes nodes, free cells and the head.
ghost use Rattle.std.specs.Prelude.{◌≡◌, ◌≤◌, ◌<◌, ◌+◌, ◌*◌, ◌^◌, ℕ, List, length};
ghost use Rattle.rdb_cells.specs.Images.{IsCell};
ghost use Rattle.rdb_cells.specs.Keys.{Sayings, says};
ghost use Rattle.rdb_cells.specs.Parts.{rtree_part};
ghost use Rattle.rdb_cells.specs.RtreeFormat.{most_entries};
ghost use Rattle.rdb_cells.specs.Work.{work, reading, HasLeft};
ghost use Rattle.rdb_rtree.specs.Changes.{CanTake, HasPlaces, IsPlanted, IsToSettle, AreSettled, IsGrowing, HasGrown, IsTreePut};
ghost use Rattle.rdb_rtree.specs.Nature.{IsRtreeIndex};
ghost use Rattle.rdb_rtree.specs.Trees.{Node as NodeOf, RTree, HasProperBox};

use crate::boxes::least_grown;
use crate::entry::{Entries, Entry};
use crate::node::{entries_at, node_at, put_cell, put_node};
use crate::rtree::Rtree;
use crate::split::split;
use rdb_cells::{Cells, IndexHead, Keys, NONE, Overlay, RTREE_ENTRIES};
use rdb_pages::CellRef;

/// Puts the version, which isn't listed, into the tree.
pub(crate) fn put<C: Cells, K: Keys>(
    tree: &Rtree,
    cells: &mut Overlay<C>,
    keys: &K,
    version: CellRef,
)
    requires standing { (listed : _) × (nodes : _)
        × IsRtreeIndex tree.now.head.number (says (K.meaning keys.now) (reading (work C.Cells cells.old)))
        (reading (work C.Cells cells.old)) listed nodes }
    requires version { HasProperBox (says (K.meaning keys.now) (reading (work C.Cells cells.old))) version }
    requires free { HasLeft (work C.Cells cells.old) rtree_part }
    requires places { HasPlaces (work C.Cells cells.old) 24 }
    ensures put { (listed : _) (nodes : _) →
        (is : IsRtreeIndex tree.now.head.number (says (K.meaning keys.now) (reading (work C.Cells cells.old)))
        (reading (work C.Cells cells.old)) listed nodes) →
        IsTreePut (says (K.meaning keys.now) (reading (work C.Cells cells.old))) (work C.Cells cells.old) (work C.Cells cells.new)
        version tree.now.head.number is.tree }
    ensures below { (cells.new.cells ≡ cells.old.cells) × (cells.new.class ≡ cells.old.class) }
{
    let entry = Entry {
        at: version,
        cover: keys.rect(&*cells, version),
    };
    let root = IndexHead::root_in(cells.planned(tree.head), 0);
    if root == NONE {
        plant(cells, tree.head, 0, &[entry]);
        return;
    }
    let level = node_at(&*cells, root).level;
    let entries = with_entry(cells, keys, root, level, entry);
    let mut tops = Entries::new();
    settle(cells, root, level, entries, &mut tops);
    if tops.len() > 1 {
        plant(cells, tree.head, level + 1, tops.as_slice());
    }
}

/// Makes a new root with these entries in a free cell.
fn plant<C: Cells>(cells: &mut Overlay<C>, head: CellRef, level: u32, entries: &[Entry])
    requires head { IsCell (reading (work C.Cells cells.old)) head.number }
    requires level { level < 2 ^ 16 }
    requires entries { (0 < length entries.now) × (length entries.now ≤ most_entries) }
    requires free { CanTake (work C.Cells cells.old) }
    requires places { HasPlaces (work C.Cells cells.old) 2 }
    ensures planted { IsPlanted (work C.Cells cells.old) (work C.Cells cells.new) head level entries.now }
    ensures below { (cells.new.cells ≡ cells.old.cells) × (cells.new.class ≡ cells.old.class) }
{
    let top = cells.take();
    let _root = put_node(cells, top, level, entries);
    put_cell(cells, head, IndexHead::rooted(top).to_cell());
}

/// Puts the version below a node, and returns the entries that the node is to have, which may be one too many.
fn with_entry<C: Cells, K: Keys>(
    cells: &mut Overlay<C>,
    keys: &K,
    at: CellRef,
    level: u32,
    entry: Entry,
) -> Entries
    requires tree { (said : Sayings) × (h : ℕ) × (t : NodeOf (RTree h))
        × IsGrowing (K.meaning keys.now) said (reading (work C.Cells cells.old)) at level entry h t }
    requires free { HasLeft (work C.Cells cells.old) level }
    requires places { HasPlaces (work C.Cells cells.old) (2 * level) }
    ensures grown { (said : Sayings) (h : ℕ) (t : NodeOf (RTree h)) →
        IsGrowing (K.meaning keys.now) said (reading (work C.Cells cells.old)) at level entry h t →
        HasGrown said (work C.Cells cells.old) (work C.Cells cells.new) entry.at h t.below result.items }
    ensures below { (cells.new.cells ≡ cells.old.cells) × (cells.new.class ≡ cells.old.class) }
{
    let mut entries = entries_at(&*cells, keys, at, level);
    if level == 0 {
        entries.push(entry);
        return entries;
    }
    let place = least_grown(entries.as_slice(), &entry.cover);
    let child = entries.remove(place);
    let below = with_entry(cells, keys, child.at, level - 1, entry);
    settle(cells, child.at, level - 1, below, &mut entries);
    entries
}

/// Writes a node with these entries, or where they are too many two, the second into a free cell; and appends what it wrote to
/// the entries of the node above.
fn settle<C: Cells>(
    cells: &mut Overlay<C>,
    at: CellRef,
    level: u32,
    entries: Entries,
    above: &mut Entries,
)
    requires settles { (said : Sayings) × (h : ℕ) × (ts : List (RTree h))
        × IsToSettle said (work C.Cells cells.old) at level h ts entries.items }
    requires above { length above.old.items ≤ 12 }
    requires free { most_entries < length entries.items → CanTake (work C.Cells cells.old) }
    requires places { HasPlaces (work C.Cells cells.old) 2 }
    ensures settled { (said : Sayings) (h : ℕ) (ts : List (RTree h)) →
        IsToSettle said (work C.Cells cells.old) at level h ts entries.items →
        AreSettled said (work C.Cells cells.old) (work C.Cells cells.new) at h ts above.old.items above.new.items }
    ensures below { (cells.new.cells ≡ cells.old.cells) × (cells.new.class ≡ cells.old.class) }
{
    if entries.len() <= RTREE_ENTRIES {
        let node = put_node(cells, at, level, entries.as_slice());
        above.push(node);
        return;
    }
    let (left, right) = split(entries);
    let other = cells.take();
    let second = put_node(cells, other, level, right.as_slice());
    let first = put_node(cells, at, level, left.as_slice());
    above.push(first);
    above.push(second);
}
