//! The objects of a class, as a list of ids with the versions of each.
ghost use Rattle.std.specs.Prelude.{◌≡◌, ◌<◌, ◌≤◌, ◌+◌, length};
ghost use Rattle.rdb_cells.specs.References.{max_classes};
ghost use Rattle.rdb_cells.specs.Work.{work, reading};
ghost use Rattle.rdb_objects.specs.Objects.{newest_version};
ghost use Rattle.rdb_objects.specs.Slots.{HoldsSome, Whatever};
ghost use Rattle.rdb_objects.specs.Changes.{CanAdd, HasVersion, HasLast, HasRoom, AddsVersion, RemovesVersion};
ghost use Rattle.rdb_objects.specs.Walks.{WhateverSlots, IsFound};
ghost use Rattle.rdb_cells.specs.Words.{no_ref};

use crate::chain::newer_than;
use crate::tree::{Spot, find, link, lowest_leaf};
use rdb_cells::{Cells, NONE, ObjectSlot, Overlay, SLOT_CHILDREN, VersionHeader};
use rdb_pages::{Cell, CellRef};

/// The objects of a class. Nothing here takes memory.
#[derive(Clone, Copy, Debug, PartialEq, Eq)]
pub struct Objects {
    pub class: u32,
}

impl Objects {
    /// Returns the newest version of the object with this id, if there is one. The cost is that of a read for each level of
    /// the tree that is passed.
    pub fn newest_version<C: Cells>(self, cells: &C, id: u64) -> Option<CellRef>
        requires class { self.class < max_classes }
        requires holds { HoldsSome (C.image cells.now) self.class }
        ensures { Whatever (C.image cells.now) self.class (λ objects slots. result ≡ newest_version objects id) }
    {
        let found = find(cells, self.class, id);
        if found.slot == NONE {
            return None;
        }
        Some(ObjectSlot::newest_in(cells.read(found.slot)))
    }

    /// Plans that the version is the newest of the object with this id. Its header stands already, and leads to what was the
    /// newest. An object that had no version gets a slot, in the lowest free cell that the plan can take. The cost is that of
    /// a find and of two puts.
    pub fn add_version<C: Cells>(self, cells: &mut Overlay<C>, id: u64, version: CellRef)
        requires class { (self.class < max_classes) × (cells.old.class ≡ self.class) }
        requires version { CanAdd (reading (work C.Cells cells.old)) self.class id version }
        requires places { length cells.old.plan.pairs + 2 ≤ cells.old.plan.room }
        requires free { HasRoom (work C.Cells cells.old) self.class id }
        ensures adds { AddsVersion self.class (work C.Cells cells.old) (work C.Cells cells.new) id version }
        ensures below { (cells.new.cells ≡ cells.old.cells) × (cells.new.class ≡ cells.old.class) }
    {
        let spot = find(cells, self.class, id);
        if spot.slot == NONE {
            add_slot(cells, self.class, spot, id, version);
        } else {
            cells.bounded();
            let mut slot = ObjectSlot::of_cell(cells.planned(spot.slot));
            slot.newest = version;
            cells.put(spot.slot, slot.to_cell());
        }
    }

    /// Plans that the object with this id has the version no more: the version that led to it, or the slot, leads to the next
    /// older one. Without another version the slot goes; where it has children, it gets the object of the leaf that is
    /// reached by always taking the lowest child, and that leaf goes. The version's own cells stay as they are. No free cell
    /// is taken. The cost grows with the depth of the tree and with the number of newer versions of the object.
    pub fn remove_version<C: Cells>(self, cells: &mut Overlay<C>, id: u64, version: CellRef)
        requires class { (self.class < max_classes) × (cells.old.class ≡ self.class) }
        requires version { HasVersion (reading (work C.Cells cells.old)) self.class id version }
        requires places { length cells.old.plan.pairs + 3 ≤ cells.old.plan.room }
        ensures removes { RemovesVersion self.class (work C.Cells cells.old) (work C.Cells cells.new) id version }
        ensures below { (cells.new.cells ≡ cells.old.cells) × (cells.new.class ≡ cells.old.class) }
    {
        cells.bounded();
        let spot = find(cells, self.class, id);
        let older = VersionHeader::older_in(cells.planned(version));
        let mut slot = ObjectSlot::of_cell(cells.planned(spot.slot));
        if slot.newest != version {
            let newer = newer_than(cells, slot.newest, version);
            let cell = VersionHeader::with_older(cells.planned(newer), older);
            cells.put(newer, cell);
        } else if older != NONE {
            slot.newest = older;
            cells.put(spot.slot, slot.to_cell());
        } else {
            remove_slot(cells, self.class, spot, id, version);
        }
    }
}

/// Plans a slot of an object with one version at the empty spot of its id.
fn add_slot<C: Cells>(cells: &mut Overlay<C>, class: u32, spot: Spot, id: u64, version: CellRef)
    requires class { (class < max_classes) × (cells.old.class ≡ class) }
    requires spot { WhateverSlots (reading (work C.Cells cells.old)) class (λ slots. IsFound slots id spot) }
    requires empty { spot.slot ≡ no_ref }
    requires version { CanAdd (reading (work C.Cells cells.old)) class id version }
    requires places { length cells.old.plan.pairs + 2 ≤ cells.old.plan.room }
    requires free { HasRoom (work C.Cells cells.old) class id }
    ensures adds { AddsVersion class (work C.Cells cells.old) (work C.Cells cells.new) id version }
    ensures below { (cells.new.cells ≡ cells.old.cells) × (cells.new.class ≡ cells.old.class) }
{
    cells.bounded();
    let at = cells.take();
    let slot = ObjectSlot {
        newest: version,
        id,
        children: [NONE; SLOT_CHILDREN],
    };
    let pair = link(cells, class, spot, at);
    cells.put(at, slot.to_cell());
    cells.put(pair.at, pair.cell);
}

/// Plans that an object is gone whose one version this is: the cell of its slot goes where the slot is a leaf.
fn remove_slot<C: Cells>(cells: &mut Overlay<C>, class: u32, spot: Spot, id: u64, version: CellRef)
    requires class { (class < max_classes) × (cells.old.class ≡ class) }
    requires spot { WhateverSlots (reading (work C.Cells cells.old)) class (λ slots. IsFound slots id spot) }
    requires last { HasLast (reading (work C.Cells cells.old)) class id version }
    requires places { length cells.old.plan.pairs + 3 ≤ cells.old.plan.room }
    ensures removes { RemovesVersion class (work C.Cells cells.old) (work C.Cells cells.new) id version }
    ensures below { (cells.new.cells ≡ cells.old.cells) × (cells.new.class ≡ cells.old.class) }
{
    let leaf = lowest_leaf(cells, class, spot);
    let pair = link(cells, class, leaf, NONE);
    if leaf.slot == spot.slot {
        cells.put(leaf.slot, Cell::ZERO);
        cells.put(pair.at, pair.cell);
    } else {
        let moved = ObjectSlot::of_cell(cells.planned(leaf.slot));
        cells.put(pair.at, pair.cell);
        let mut slot = ObjectSlot::of_cell(cells.planned(spot.slot));
        slot.id = moved.id;
        slot.newest = moved.newest;
        cells.put(spot.slot, slot.to_cell());
        let freed = leaf.slot;
        cells.put(freed, Cell::ZERO);
    }
}
