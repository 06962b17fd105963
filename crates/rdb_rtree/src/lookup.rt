//! What the R-tree lists: all versions, and those whose box meets a rectangle. It only reads.
ghost use Rattle.std.specs.Prelude.{◌≡◌, ◌++◌, ℕ, suc, OnOk};
ghost use Rattle.rdb_cells.specs.Keys.{Sayings};
ghost use Rattle.rdb_rtree.specs.Lookups.{found_in};
ghost use Rattle.rdb_rtree.specs.Standing.{IsTreeAt, IsKeyedAt};
ghost use Rattle.rdb_rtree.specs.Trees.{Node as NodeOf, RTree, versions};
ghost use Rattle.rdb_rtree.specs.Lookups.{matching};

use crate::boxes::{meets, overlaps};
use crate::entry::Entry;
use crate::node::{entries_at, node_at, refs_of};
use rdb_base::list::NoMemory;
use rdb_base::value::Rect;
use rdb_cells::{Cells, Keys, Refs};
use rdb_pages::CellRef;

/// Appends the versions below a node of a level. The only error is want of memory.
pub(crate) fn gather_versions<C: Cells>(
    cells: &C,
    at: CellRef,
    level: u32,
    refs: &mut Refs,
) -> Result<(), NoMemory>
    requires { (h : ℕ) × (t : NodeOf (RTree h)) × IsTreeAt (C.image cells.now) at level h t }
    ensures { OnOk result ((h : ℕ) (t : NodeOf (RTree h)) → IsTreeAt (C.image cells.now) at level h t →
        refs.new ≡ refs.old ++ versions (suc h) t) }
{
    let node = node_at(cells, at);
    let own = refs_of(&node);
    if level == 0 {
        return refs.extend_from_slice(own);
    }
    for place in 0..own.len() {
        gather_versions(cells, own[place], level - 1, refs)?;
    }
    Ok(())
}

/// Appends the versions below a node of a level whose box lies in the rectangle, or overlaps it. It reads no node below whose
/// box doesn't overlap it. The only error is want of memory.
pub(crate) fn gather_boxes<C: Cells, K: Keys>(
    cells: &C,
    keys: &K,
    at: CellRef,
    level: u32,
    rect: &Rect,
    inside: bool,
    refs: &mut Refs,
) -> Result<(), NoMemory>
    requires { (said : Sayings) × (h : ℕ) × (t : NodeOf (RTree h))
        × IsKeyedAt (K.meaning keys.now) said (C.image cells.now) at level h t }
    ensures { OnOk result ((said : Sayings) (h : ℕ) (t : NodeOf (RTree h)) →
        IsKeyedAt (K.meaning keys.now) said (C.image cells.now) at level h t →
        refs.new ≡ refs.old ++ found_in said rect.now inside (versions (suc h) t)) }
{
    let below = entries_at(cells, keys, at, level);
    let entries = below.as_slice();
    if level == 0 {
        return push_meeting(entries, rect, inside, refs);
    }
    for place in 0..entries.len() {
        if overlaps(&entries[place].cover, rect) {
            gather_boxes(
                cells,
                keys,
                entries[place].at,
                level - 1,
                rect,
                inside,
                refs,
            )?;
        }
    }
    Ok(())
}

/// Appends where those of the entries stand whose box lies in the rectangle, or overlaps it.
fn push_meeting(
    entries: &[Entry],
    rect: &Rect,
    inside: bool,
    refs: &mut Refs,
) -> Result<(), NoMemory>
    ensures { OnOk result (refs.new ≡ refs.old ++ matching rect.now inside entries.now) }
{
    for place in 0..entries.len() {
        if meets(rect, inside, &entries[place].cover) {
            refs.push(entries[place].at)?;
        }
    }
    Ok(())
}
