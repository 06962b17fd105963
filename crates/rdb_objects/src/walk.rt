//! Going over all objects of a class, one after another, by nothing but the id of the last one. A slot comes before those
//! below it, and these by their places. It reads head and slots alone, and writes nothing.
ghost use Rattle.std.specs.Prelude.{◌≡◌, ◌≢◌, ◌<◌, ◌≤◌, slice_get};
ghost use Rattle.rdb_cells.specs.Images.{IsCell};
ghost use Rattle.rdb_cells.specs.ObjectFormat.{slot_children};
ghost use Rattle.rdb_cells.specs.References.{max_classes};
ghost use Rattle.rdb_objects.specs.Slots.{HoldsSome};
ghost use Rattle.rdb_objects.specs.Walks.{HasTree, WhateverSlots};
ghost use Rattle.rdb_objects.specs.Order.{IsChildFrom, IsNextOf, IsSooner, IsFoundIn, HasObject, InOrder, behind, told};

use crate::objects::Objects;
use crate::tree::{MAX_LEVELS, Spot};
use rdb_cells::{Cells, ClassHead, NONE, ObjectSlot, SLOT_CHILDREN, class_head};
use rdb_pages::{Cell, CellRef};

/// An object that is gone over.
#[derive(Clone, Copy, Debug, PartialEq, Eq)]
pub struct Found {
    pub id: u64,
    pub newest: CellRef,
}

/// Returns the lowest child at a place from one on, or none.
fn child_from(cell: &Cell, start: usize) -> CellRef
    requires { start ≤ slot_children }
    ensures { IsChildFrom cell.now start result }
{
    for place in start..SLOT_CHILDREN {
        let child = ObjectSlot::child_in(cell, place);
        if child != NONE {
            return child;
        }
    }
    NONE
}

/// Returns the first that is a cell.
fn sooner(first: CellRef, second: CellRef) -> CellRef
    ensures { IsSooner first second result }
{
    if first == NONE { second } else { first }
}

/// Finds the slot that comes directly behind that of an id, or none. The cost grows with the depth of the tree.
pub fn next_slot<C: Cells>(cells: &C, class: u32, id: u64) -> CellRef
    requires class { class < max_classes }
    requires tree { HasTree (C.image cells.now) class }
    ensures { WhateverSlots (C.image cells.now) class (λ slots. IsNextOf slots id result.number) }
{
    let mut spot = Spot {
        slot: ClassHead::of_cell(cells.read(class_head(class))).root,
        above: NONE,
        place: 0,
    };
    let mut later = NONE;
    let mut digits = id;
    for _ in 0..MAX_LEVELS {
        if spot.slot == NONE {
            return NONE;
        }
        let cell = cells.read(spot.slot);
        if ObjectSlot::id_in(cell) == id {
            return sooner(child_from(cell, 0), later);
        }
        let place = (digits % SLOT_CHILDREN as u64) as usize;
        later = sooner(child_from(cell, place + 1), later);
        spot = Spot {
            slot: ObjectSlot::child_in(cell, place),
            above: spot.slot,
            place,
        };
        digits /= SLOT_CHILDREN as u64;
    }
    unreachable!()
}

/// Reads the object of a slot, if it is one.
fn found_in<C: Cells>(cells: &C, slot: CellRef) -> Option<Found>
    requires { slot.number ≢ 0 → IsCell (C.image cells.now) slot.number }
    ensures { IsFoundIn (C.image cells.now) slot result }
{
    if slot == NONE {
        return None;
    }
    let cell = cells.read(slot);
    Some(Found {
        id: ObjectSlot::id_in(cell),
        newest: ObjectSlot::newest_in(cell),
    })
}

impl Objects {
    /// Returns the first object, if there is one: the others follow by `next_object`. The cost is that of two reads.
    pub fn first_object<C: Cells>(self, cells: &C) -> Option<Found>
        requires class { self.class < max_classes }
        requires holds { HoldsSome (C.image cells.now) self.class }
        ensures { InOrder (C.image cells.now) self.class (λ objects. result ≡ told (slice_get objects 0)) }
    {
        let head = ClassHead::of_cell(cells.read(class_head(self.class)));
        found_in(cells, head.root)
    }

    /// Returns the object that comes behind that of an id, if there is one. Whoever begins with the first and goes on so
    /// meets each object once: a slot before those below it in the tree, and these by their places. The cost grows with the
    /// depth of the tree; no memory is taken, and nothing is kept between two calls.
    pub fn next_object<C: Cells>(self, cells: &C, id: u64) -> Option<Found>
        requires class { self.class < max_classes }
        requires has { HasObject (C.image cells.now) self.class id }
        ensures { InOrder (C.image cells.now) self.class (λ objects. result ≡ told (behind objects id)) }
    {
        let slot = next_slot(cells, self.class, id);
        found_in(cells, slot)
    }
}
