//! The newest pair of an undo record is taken back. It changes one cell, the connection's undo record, and its plan, which is given up.

ghost use Rattle.std.specs.Prelude.{◌≡◌, ◌<◌, length, IsSomeAnd};
ghost use Rattle.rdb_registry.specs.Seats.{seat_of};
ghost use Rattle.rdb_writes.specs.Grounds.{ground, AreWorks};
ghost use Rattle.rdb_writes.specs.Steps.{TakesNewestBack};

use rdb_base::identity::ConnId;
use rdb_cells::{Region, take_back};
use rdb_registry::Registry;

/// Puts back what the cell held that a connection's unfinished work wrote last, forgets its pair, and gives up what is left of the plan.
/// The undo record isn't empty. The cost is that of one write, and grows with what is left of the plan.
pub fn take_newest_back<C: Region>(cells: &mut C, registry: &mut Registry, c: ConnId)
    requires works { AreWorks (ground C.Cells cells.old registry.old) }
    requires logged { IsSomeAnd (seat_of registry.old.seats c) (λ seat. 0 < length seat.hand.undo.pairs) }
    ensures back { TakesNewestBack (ground C.Cells cells.old registry.old) (ground C.Cells cells.new registry.new) c }
    ensures works { AreWorks (ground C.Cells cells.new registry.new) }
    ensures roll { registry.new ≡ record registry.old { seats = registry.new.seats } }
    ensures owners { C.owners cells.new ≡ C.owners cells.old }
{
    cells.bounded();
    registry.sound();
    let hand = registry.seat_mut(c);
    take_back(cells, &mut hand.undo);
    hand.plan.clear();
}
