//! The digital tree of a class's slots. The class's head leads to the root. Among the children of a slot at level d, that
//! of an id is the one whose place the bits 3d, 3d + 1 and 3d + 2 of the id name. It reads head and slots alone, and writes
//! nothing.
ghost use Rattle.std.specs.Prelude.{◌<◌, IfSome, IfNone};
ghost use Rattle.rdb_cells.specs.ObjectFormat.{slot_children};
ghost use Rattle.rdb_cells.specs.References.{max_classes};
ghost use Rattle.rdb_objects.specs.Walks.{HasTree, HasSpot, HasSlotAt, WhateverSlots, IsFound, IsChildAt, HasNoChildBelow, IsLeadingToLeaf, IsLink};

use rdb_cells::{Cells, ClassHead, NONE, ObjectSlot, Pair, SLOT_CHILDREN, class_head};
use rdb_pages::{Cell, CellRef};

/// The most slots on a way from the root: two ids that agree in the 66 lowest bits are one.
pub const MAX_LEVELS: usize = 23;

/// A place in the tree.
#[derive(Clone, Copy, Debug, PartialEq, Eq)]
pub struct Spot {
    /// The slot there, if there is one.
    pub slot: CellRef,
    /// The slot whose child it is; none for the root.
    pub above: CellRef,
    /// Its place among the children of that slot; 0 for the root.
    pub place: usize,
}

/// Finds the spot of an id: that of its slot, or the one where it would be. The cost grows with the depth of the tree, which
/// is at most 23 and, of n ids in a row, about the logarithm of n to the base 8.
pub fn find<C: Cells>(cells: &C, class: u32, id: u64) -> Spot
    requires class { class < max_classes }
    requires tree { HasTree (C.image cells.now) class }
    ensures { WhateverSlots (C.image cells.now) class (λ slots. IsFound slots id result) }
{
    let mut spot = Spot {
        slot: ClassHead::of_cell(cells.read(class_head(class))).root,
        above: NONE,
        place: 0,
    };
    let mut digits = id;
    for _ in 0..MAX_LEVELS {
        if spot.slot == NONE {
            return spot;
        }
        let cell = cells.read(spot.slot);
        if ObjectSlot::id_in(cell) == id {
            return spot;
        }
        let place = (digits % SLOT_CHILDREN as u64) as usize;
        spot = Spot {
            slot: ObjectSlot::child_in(cell, place),
            above: spot.slot,
            place,
        };
        digits /= SLOT_CHILDREN as u64;
    }
    unreachable!()
}

/// Returns the lowest place of a slot's children at which there is one.
fn lowest_child(cell: &Cell) -> Option<usize>
    ensures found { IfSome result (IsChildAt cell.now) }
    ensures within { IfSome result (λ place. place < slot_children) }
    ensures lowest { IfSome result (HasNoChildBelow cell.now) }
    ensures none { IfNone result (HasNoChildBelow cell.now slot_children) }
{
    for place in 0..SLOT_CHILDREN {
        if ObjectSlot::child_in(cell, place) != NONE {
            return Some(place);
        }
    }
    None
}

/// Finds the leaf that is reached from a slot by always going to the lowest child: the slot itself, where it has none. The
/// cost grows with the depth of the tree below the slot.
pub fn lowest_leaf<C: Cells>(cells: &C, class: u32, top: Spot) -> Spot
    requires { HasSlotAt (C.image cells.now) class top }
    ensures { WhateverSlots (C.image cells.now) class (λ slots. IsLeadingToLeaf slots top result) }
{
    let mut spot = top;
    for _ in 0..MAX_LEVELS {
        let cell = cells.read(spot.slot);
        match lowest_child(cell) {
            None => return spot,
            Some(place) => {
                spot = Spot {
                    slot: ObjectSlot::child_in(cell, place),
                    above: spot.slot,
                    place,
                };
            }
        }
    }
    unreachable!()
}

/// Returns the cell that leads to a spot, leading to another slot, or to none. It is that of the slot above, or the class's
/// head.
pub fn link<C: Cells>(cells: &C, class: u32, spot: Spot, slot: CellRef) -> Pair
    requires class { class < max_classes }
    requires spot { HasSpot (C.image cells.now) class spot }
    ensures { IsLink (C.image cells.now) class spot slot result.at result.cell }
{
    if spot.above == NONE {
        return Pair {
            at: class_head(class),
            cell: ClassHead { root: slot }.to_cell(),
        };
    }
    let mut above = ObjectSlot::of_cell(cells.read(spot.above));
    above.children[spot.place] = slot;
    Pair {
        at: spot.above,
        cell: above.to_cell(),
    }
}
