//! The newest pair of an undo record is taken back, where a transaction that it spans rolls back. It changes one cell, the undo record, and,
//! behind the last pair, the own writes.

ghost use Rattle.std.specs.Prelude.{◌≡◌, ◌<◌, length, false, None, IsSomeAnd};
ghost use Rattle.rdb_base.specs.declared.identity.Phase.TheVariants as phase;
ghost use Rattle.rdb_steps.specs.Lists.{the_settled};
ghost use Rattle.rdb_steps.specs.States.{IsKeptSomehow, IsWhole};
ghost use Rattle.rdb_steps.specs.Steps.{KeepsAs, OnlyRecord, WritesOne, aimed_by_taking_back, forgetting_own, seat_at};
ghost use Rattle.rdb_steps.specs.Written.{ComesNearer, KeepsCounts, TakenBack};
ghost use Rattle.rdb_writes.specs.Steps.{spans_one_plan};

use crate::state::State;
use rdb_base::identity::ConnId;
use rdb_cells::HasPairs;
use rdb_pages::Pages;
use rdb_registry::Hand;
use rdb_writes::take_newest_back;

impl<P: Pages> State<P> {
    /// Puts back what the cell held that a connection's open transaction wrote last, under MURSIW, where it rolls back. With the last pair
    /// none of its versions is left. The cost is constant, but at the last pair, where it grows with the own writes.
    pub fn take_newest_back(&mut self, c: ConnId)
        requires whole { IsWhole self.old }
        requires kept { IsKeptSomehow self.old }
        requires single { spans_one_plan self.old.transactions.manager ≡ false }
        requires live { IsSomeAnd (seat_at self.old c) (λ seat. seat.condemned ≡ None) }
        requires rolling { IsSomeAnd (seat_at self.old c) (λ seat. seat.hand.phase ≡ phase.RollingBack) }
        requires logged { IsSomeAnd (seat_at self.old c) (λ seat. 0 < length seat.hand.undo.pairs) }
        ensures kept { KeepsAs self.old self.new the_settled (aimed_by_taking_back (seat_at self.old c)) }
        ensures cell { WritesOne self.old.memory self.new.memory }
        ensures record { OnlyRecord self.old self.new c }
        ensures becomes { TakenBack self.old self.new c }
        ensures counts { KeepsCounts self.old self.new }
        ensures nearer { ComesNearer self.old self.new c }
        ensures whole { IsWhole self.new }
    {
        self.transactions.registry.sound();
        take_newest_back(&mut self.memory, &mut self.transactions.registry, c);
        forget_if_taken_back(self.transactions.registry.seat_mut(c));
    }
}

// Forgets the own writes where the undo record is empty.
fn forget_if_taken_back(hand: &mut Hand)
    ensures { hand.new ≡ forgetting_own hand.old }
{
    if hand.undo.len() == 0 {
        hand.own.clear();
    }
}
