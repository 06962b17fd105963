//! The next cell of a plan is written. It changes one cell, the connection's undo record, and what is left of its plan.

ghost use Rattle.std.specs.Prelude.{◌≡◌, ◌<◌, ℕ, length, true, IsSomeAnd};
ghost use Rattle.rdb_cells.specs.declared.pairs.Pair.{Pair};
ghost use Rattle.rdb_cells.specs.Images.{IsCell};
ghost use Rattle.rdb_cells.specs.Records.{names};
ghost use Rattle.rdb_registry.specs.Seats.{seat_of};
ghost use Rattle.rdb_writes.specs.Grounds.{ground, AreWorks, HasPlaces};
ghost use Rattle.rdb_writes.specs.Steps.{ended, is_written, WritesPlanned, WritesNext};

use rdb_base::identity::{ConnId, Manager};
use rdb_cells::{HasPairs, Region, log_write};
use rdb_registry::{Hand, Registry};

// Writes the cell of the plan's newest pair, and logs first what it held where the undo record doesn't have it yet.
fn write_planned<C: Region>(cells: &mut C, hand: &mut Hand)
    requires some { 0 < length hand.old.plan.pairs }
    requires cells { (n : ℕ) → names hand.old.plan.pairs n ≡ true → IsCell (C.Cells.image cells.old) n }
    requires places { HasPlaces hand.old }
    ensures written { (next : Pair) × WritesPlanned (C.Cells.image cells.old) (C.Cells.image cells.new) hand.old hand.new next }
    ensures classes { (n : ℕ) → C.Cells.class_of cells.new n ≡ C.Cells.class_of cells.old n }
    ensures owners { C.owners cells.new ≡ C.owners cells.old }
{
    hand.plan.each_once();
    let pair = hand.plan.pop();
    log_write(cells, &mut hand.undo, pair.at, pair.cell);
}

// Empties the undo record where the plan is written and the record spanned that plan. Returns whether the plan is written.
fn end_plan(hand: &mut Hand, manager: Manager) -> bool
    ensures last { result ≡ is_written hand.old }
    ensures hand { hand.new ≡ ended manager hand.old }
{
    if hand.plan.len() != 0 {
        return false;
    }
    if manager == Manager::Mvcc {
        hand.undo.clear();
    }
    true
}

/// Writes the next cell of a connection's plan, which isn't empty, and logs first what it held where the undo record doesn't have it yet.
/// Returns whether that was the plan's last cell: then the undo record is empty under MVCC, where it spans one plan. The cost is constant,
/// but at the last cell, where it grows with the plan.
pub fn write_next<C: Region>(
    cells: &mut C,
    registry: &mut Registry,
    manager: Manager,
    c: ConnId,
) -> bool
    requires works { AreWorks (ground C.Cells cells.old registry.old) }
    requires plan { IsSomeAnd (seat_of registry.old.seats c) (λ seat. 0 < length seat.hand.plan.pairs) }
    ensures written { WritesNext manager (ground C.Cells cells.old registry.old) (ground C.Cells cells.new registry.new) c result }
    ensures works { AreWorks (ground C.Cells cells.new registry.new) }
    ensures roll { registry.new ≡ record registry.old { seats = registry.new.seats } }
    ensures owners { C.owners cells.new ≡ C.owners cells.old }
{
    cells.bounded();
    registry.sound();
    let hand = registry.seat_mut(c);
    write_planned(cells, hand);
    end_plan(hand, manager)
}
