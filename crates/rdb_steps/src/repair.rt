//! The newest pair of a condemned connection's undo record is taken back. It changes one cell, the connection's record, and what is claimed
//! for its write in work.

ghost use Rattle.std.specs.Prelude.{◌≡◌, ◌<◌, ◌==◌, length, false, IsSome, IsSomeAnd};
ghost use Rattle.rdb_registry.specs.Seats.{IsHeld};
ghost use Rattle.rdb_steps.specs.Kept.{is_dropping};
ghost use Rattle.rdb_steps.specs.Lists.{the_settled};
ghost use Rattle.rdb_steps.specs.Repairs.{Repaired, left, left_hand};
ghost use Rattle.rdb_steps.specs.States.{IsKeptSomehow, IsWhole};
ghost use Rattle.rdb_steps.specs.Steps.{KeepsAs, WritesOne, aimed_by_taking_back, forgetting_own, seat_at};
ghost use Rattle.rdb_steps.specs.Written.{ComesNearer};
ghost use Rattle.rdb_transactions.specs.Records.{edited};

use crate::release::give_up_work;
use crate::state::State;
use rdb_base::identity::{ConnId, Manager};
use rdb_cells::HasPairs;
use rdb_pages::Pages;
use rdb_registry::{Hand, Registry};
use rdb_writes::take_newest_back;

impl<P: Pages> State<P> {
    /// Puts back what the cell held that a condemned connection's unfinished work wrote last. Its plan and its operation in work are given
    /// up, and with the last pair its latches. It brings the end of the repair nearer, where the plan isn't the drop of a version. The cost
    /// is constant, but for what is left of the plan, and at the last pair under MURSIW, where it grows with the own writes.
    pub fn repair_newest(&mut self, d: ConnId)
        requires whole { IsWhole self.old }
        requires kept { IsKeptSomehow self.old }
        requires condemned { IsSomeAnd (seat_at self.old d) (λ seat. IsSome seat.condemned) }
        requires logged { IsSomeAnd (seat_at self.old d) (λ seat. 0 < length seat.hand.undo.pairs) }
        ensures kept { KeepsAs self.old self.new the_settled (aimed_by_taking_back (seat_at self.old d)) }
        ensures cell { WritesOne self.old.memory self.new.memory }
        ensures becomes { Repaired self.old self.new d }
        ensures rest { self.new ≡ record self.old { memory = self.new.memory; transactions = self.new.transactions } }
        ensures nearer { IsSomeAnd (seat_at self.old d) (λ seat. is_dropping seat.hand ≡ false) → ComesNearer self.old self.new d }
        ensures whole { IsWhole self.new }
    {
        self.transactions.registry.sound();
        let manager = self.transactions.manager;
        take_newest_back(&mut self.memory, &mut self.transactions.registry, d);
        give_up_work(&mut self.transactions, d);
        leave(&mut self.transactions.registry, manager, d);
    }
}

// Gives up a connection's latches where nothing is left to take back, and under the manager of a single writer forgets its own writes.
fn leave(registry: &mut Registry, manager: Manager, d: ConnId)
    requires { IsHeld registry.old.seats d }
    ensures { registry.new ≡ edited registry.old d.slot (left manager) }
{
    let is_taken_back = leave_hand(registry.seat_mut(d), manager);
    if is_taken_back {
        registry.release_latches(d);
    }
}

// Forgets the own writes under the manager of a single writer, where nothing is left to take back, and returns whether nothing is.
fn leave_hand(hand: &mut Hand, manager: Manager) -> bool
    ensures taken_back { result ≡ (length hand.old.undo.pairs == 0) }
    ensures hand { hand.new ≡ left_hand manager hand.old }
{
    let is_taken_back = hand.undo.len() == 0;
    match manager {
        Manager::Mursiw => forget_if(hand, is_taken_back),
        Manager::Mvcc => (),
    }
    is_taken_back
}

// Forgets the own writes, if nothing is left to take back.
fn forget_if(hand: &mut Hand, is_taken_back: bool)
    requires { is_taken_back ≡ (length hand.old.undo.pairs == 0) }
    ensures { hand.new ≡ forgetting_own hand.old }
{
    if is_taken_back {
        hand.own.clear();
    }
}
