//! A version of a marked transaction gets the stamp of its commit. It changes the version's header, and the list of own writes.

ghost use Rattle.std.specs.Prelude.{◌≡◌, ◌≢◌, ◌<◌, [], true, Some, None, IsSome, IsSomeAnd, IfSome, IfNone, option_and_then, slice_get};
ghost use Rattle.rdb_registry.specs.OwnWrites.{AreOrdered};
ghost use Rattle.rdb_registry.specs.Seats.{IsHeld, IsHolder, NoneHolds, seat_of};
ghost use Rattle.rdb_steps.specs.Kept.{is_marked};
ghost use Rattle.rdb_steps.specs.Stamps.{IsHeldByOther, Stamped};
ghost use Rattle.rdb_steps.specs.States.{IsKeptSomehow, IsWhole};
ghost use Rattle.rdb_steps.specs.Steps.{KeepsAs, OnlyRecord, WritesOne, seat_at, first_stamped, forgetting_first};
ghost use Rattle.rdb_steps.specs.Written.{ComesNearer, KeepsCounts};
ghost use Rattle.rdb_transactions.specs.Records.{edited, on_hand};
ghost use Rattle.rdb_writes.specs.Steps.{spans_one_plan};

use crate::state::State;
use crate::write::remove_first;
use rdb_base::identity::{ConnId, Manager, Stamp};
use rdb_cells::Cells;
use rdb_pages::Pages;
use rdb_registry::{Hand, OwnWrite, Registry, Seat};
use rdb_writes::write_unlogged;

impl<P: Pages> State<P> {
    /// Stamps the first version of a marked transaction that lacks its stamp, where no other connection holds the latch of its class, under
    /// MVCC; else it changes nothing and returns the holder. The cost is that of one read and one write, and grows with the own writes.
    pub fn stamp_first(&mut self, c: ConnId) -> Option<ConnId>
        requires whole { IsWhole self.old }
        requires kept { IsKeptSomehow self.old }
        requires marked { IsSomeAnd (seat_at self.old c) (λ seat. is_marked seat ≡ true) }
        requires unstamped { IsSomeAnd (seat_at self.old c) (λ seat. seat.hand.own.items ≢ []) }
        ensures holder { IfSome result (IsHeldByOther self.old.transactions.manager self.old.transactions.registry.seats c) }
        ensures unchanged { IsSome result → self.new ≡ self.old }
        ensures kept { result ≡ None → KeepsAs self.old self.new (λ settled aimed. first_stamped (seat_at self.old c) settled settled)
            (λ settled aimed. first_stamped (seat_at self.old c) settled aimed) }
        ensures cell { WritesOne self.old.memory self.new.memory }
        ensures record { OnlyRecord self.old self.new c }
        ensures becomes { result ≡ None → Stamped self.old self.new c }
        ensures counts { KeepsCounts self.old self.new }
        ensures nearer { result ≡ None → ComesNearer self.old self.new c }
        ensures whole { IsWhole self.new }
    {
        self.transactions.registry.sound();
        self.memory.bounded();
        let seat = self.transactions.seat(c);
        let own = first_own(seat);
        let commit = mark_of(seat);
        if let Some(holder) = holder_of(
            &self.transactions.registry,
            self.transactions.manager,
            own.class,
        ) {
            return Some(holder);
        }
        let cell = self
            .store
            .stamped(own.class, own.header, Stamp::Done(commit), &self.memory);
        write_unlogged(
            &mut self.memory,
            &self.transactions.registry,
            own.header,
            cell,
        );
        forget(&mut self.transactions.registry, c);
        None
    }
}

// The first object in the order of class, then id, that a record's transaction wrote and whose version is still its own.
fn first_own(seat: &Seat) -> OwnWrite
    requires { seat.now.hand.own.items ≢ [] }
    ensures first { slice_get seat.now.hand.own.items 0 ≡ Some result }
    ensures ordered { AreOrdered seat.now.hand.own.items }
{
    seat.hand.own.ordered();
    match seat.hand.own.first() {
        Some(own) => *own,
        None => unreachable!(),
    }
}

// The commit of a record's marked transaction.
fn mark_of(seat: &Seat) -> u64
    requires { is_marked seat.now ≡ true }
    ensures { option_and_then (λ t. t.mark) seat.now.transaction ≡ Some result }
{
    match &seat.transaction {
        Some(t) => match t.mark {
            Some(commit) => commit,
            None => unreachable!(),
        },
        None => unreachable!(),
    }
}

// The connection that holds the latch of a class, where a latch is needed for a plan alone.
fn holder_of(registry: &Registry, manager: Manager, class: u32) -> Option<ConnId>
    requires { class < registry.now.classes }
    ensures many { IsSome result → spans_one_plan manager ≡ true }
    ensures found { IfSome result (IsHolder registry.now.seats class) }
    ensures none { result ≡ None → spans_one_plan manager ≡ true → NoneHolds registry.now.seats class }
{
    match manager {
        Manager::Mvcc => registry.holder(class),
        Manager::Mursiw => None,
    }
}

// Forgets the first own write of a connection, which there is.
fn forget(registry: &mut Registry, c: ConnId)
    requires { IsSomeAnd (seat_of registry.old.seats c) (λ seat. seat.hand.own.items ≢ []) }
    ensures { registry.new ≡ edited registry.old c.slot (on_hand forgetting_first) }
{
    without_first(registry.seat_mut(c));
}

// Forgets the first own write, which there is.
fn without_first(hand: &mut Hand)
    requires { hand.old.own.items ≢ [] }
    ensures { hand.new ≡ forgetting_first hand.old }
{
    remove_first(&mut hand.own);
}
