//! What leads to a part of the tree: the head, or a side of a branch. It reads cells alone.
ghost use Rattle.std.specs.Prelude.{◌≡◌};
ghost use Rattle.rdb_cells.specs.Images.{IsCell};
ghost use Rattle.rdb_cells.specs.Words.{HasKind};
ghost use Rattle.rdb_patricia.specs.Changes.{HasParent, Leads, turned};

use crate::walk::Spot;
use rdb_cells::{Cells, IndexHead, Kind, NONE, PatriciaBranch};
use rdb_pages::{Cell, CellRef};

/// A cell that leads to a part of the tree, and what it is to hold.
#[derive(Clone, Copy)]
pub struct Lead {
    pub at: CellRef,
    pub cell: Cell,
}

/// Returns the cell above a spot, and what it holds once it leads to another cell there.
pub fn leading<C: Cells>(cells: &C, head: CellRef, spot: Spot, to: CellRef) -> Lead
    requires head { HasKind (C.image cells.now) Kind.IndexHead head.number }
    requires parent { HasParent (C.image cells.now) spot }
    ensures leads { Leads (C.image cells.now) head spot to result }
    ensures there { IsCell (C.image cells.now) result.at.number }
{
    if spot.parent == NONE {
        return Lead {
            at: head,
            cell: IndexHead::rooted(to).to_cell(),
        };
    }
    let branch = PatriciaBranch::of_cell(cells.read(spot.parent));
    Lead {
        at: spot.parent,
        cell: turned(branch, spot.one_side, to).to_cell(),
    }
}

/// Returns the branch with another cell on a side.
pub fn turned(branch: PatriciaBranch, one_side: bool, to: CellRef) -> PatriciaBranch
    ensures { result ≡ turned one_side branch to }
{
    let PatriciaBranch {
        bit,
        zero_side,
        one_side: ones,
    } = branch;
    if one_side {
        PatriciaBranch {
            bit,
            zero_side,
            one_side: to,
        }
    } else {
        PatriciaBranch {
            bit,
            zero_side: to,
            one_side: ones,
        }
    }
}
