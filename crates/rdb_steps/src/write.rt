//! The next cell of a plan is written. It changes one cell, its undo record, and what is left of the plan; with the last cell, what the plan
//! was for: an operation ends, or an own version is gone.

ghost use Rattle.std.specs.Prelude.{◌≡◌, ◌≢◌, ◌<◌, ℕ, [], length, drop, slice_get, true, Some, None, IsSome, IsSomeAnd, IfSome};
ghost use Rattle.rdb_base.specs.declared.identity.Phase.TheVariants as phase;
ghost use Rattle.rdb_registry.specs.declared.own_writes.OwnWrite.{OwnWrite as OwnWriteValue};
ghost use Rattle.rdb_registry.specs.OwnWrites.{header_of};
ghost use Rattle.rdb_registry.specs.Seats.{IsHeld, seat_of};
ghost use Rattle.rdb_steps.specs.Kept.{is_dropping};
ghost use Rattle.rdb_steps.specs.Lists.{the_aimed};
ghost use Rattle.rdb_steps.specs.States.{IsKeptSomehow, IsWhole};
ghost use Rattle.rdb_steps.specs.Steps.{KeepsAs, OnlyRecord, WritesOne, EndsWork, ForgetsFirst, seat_at, settled_by_writing, reply_next, version_at, without_first};
ghost use Rattle.rdb_steps.specs.Written.{ComesNearer, KeepsCounts, WrittenDrop, WrittenWork};

use crate::finish::finish;
use crate::state::State;
use rdb_base::identity::{ConnId, Manager};
use rdb_base::operation::Reply;
use rdb_pages::{CellRef, Pages};
use rdb_registry::{Hand, OwnWrites, Registry};
use rdb_writes::write_next;

impl<P: Pages> State<P> {
    /// Writes the next cell of the plan of a connection's operation in work, or of the drop of a garbage version before it. With the last
    /// cell of the operation's own plan the operation ends, and its reply is returned; under MVCC its latch is then given up. The cost is
    /// constant, but at the last cell, where it grows with the plan.
    pub fn write_work(&mut self, c: ConnId) -> Option<Reply>
        requires whole { IsWhole self.old }
        requires kept { IsKeptSomehow self.old }
        requires live { IsSomeAnd (seat_at self.old c) (λ seat. seat.condemned ≡ None) }
        requires writing { IsSomeAnd (seat_at self.old c) (λ seat. seat.hand.phase ≡ phase.Writing) }
        requires plan { IsSomeAnd (seat_at self.old c) (λ seat. 0 < length seat.hand.plan.pairs) }
        ensures kept { KeepsAs self.old self.new (settled_by_writing self.old.transactions.manager (seat_at self.old c)) the_aimed }
        ensures reply { IsSomeAnd (seat_at self.old c) (λ seat. result ≡ reply_next seat.hand) }
        ensures cell { WritesOne self.old.memory self.new.memory }
        ensures record { OnlyRecord self.old self.new c }
        ensures becomes { WrittenWork self.old self.new c result }
        ensures counts { KeepsCounts self.old self.new }
        ensures nearer { ComesNearer self.old self.new c }
        ensures whole { IsWhole self.new }
    {
        self.transactions.registry.sound();
        let is_last = write_next(
            &mut self.memory,
            &mut self.transactions.registry,
            self.transactions.manager,
            c,
        );
        if is_last {
            end_work(
                &mut self.transactions.registry,
                self.transactions.manager,
                c,
            )
        } else {
            None
        }
    }

    /// Writes the next cell of the drop of a connection's first own version. With the last cell that version is gone, and its latch is given
    /// up. The cost is constant, but at the last cell, where it grows with the plan and with the own writes.
    pub fn write_drop(&mut self, c: ConnId)
        requires whole { IsWhole self.old }
        requires kept { IsKeptSomehow self.old }
        requires dropping { IsSomeAnd (seat_at self.old c) (λ seat. is_dropping seat.hand ≡ true) }
        ensures kept { KeepsAs self.old self.new (settled_by_writing self.old.transactions.manager (seat_at self.old c)) the_aimed }
        ensures cell { WritesOne self.old.memory self.new.memory }
        ensures record { OnlyRecord self.old self.new c }
        ensures becomes { WrittenDrop self.old self.new c }
        ensures counts { KeepsCounts self.old self.new }
        ensures nearer { ComesNearer self.old self.new c }
        ensures whole { IsWhole self.new }
    {
        self.transactions.registry.sound();
        let is_last = write_next(
            &mut self.memory,
            &mut self.transactions.registry,
            self.transactions.manager,
            c,
        );
        if is_last {
            forget_first(&mut self.transactions.registry, c);
        }
    }
}

// The version that the plan at hand of a connection puts, if it is its operation's own.
fn version_at(registry: &Registry, c: ConnId) -> Option<CellRef>
    requires { IsHeld registry.now.seats c }
    ensures { IsSomeAnd (seat_of registry.now.seats c) (λ seat. result ≡ version_at seat.hand) }
{
    match registry.seat(c) {
        Some(seat) => version_in(&seat.hand),
        None => unreachable!(),
    }
}

// The version that a plan at hand puts, if it is the operation's own.
fn version_in(hand: &Hand) -> Option<CellRef>
    ensures { result ≡ version_at hand.now }
{
    match &hand.work {
        Some(work) => work.puts,
        None => None,
    }
}

// Ends the operation in work of a connection whose plan is written, if that was the operation's own plan, and returns its reply then.
fn end_work(registry: &mut Registry, manager: Manager, c: ConnId) -> Option<Reply>
    requires held { IsHeld registry.old.seats c }
    requires done { IsSomeAnd (seat_of registry.old.seats c) (λ seat. IsSome seat.hand.work → 0 < seat.hand.done.room) }
    requires own { IsSomeAnd (seat_of registry.old.seats c) (λ seat. IsSome seat.hand.work → 0 < seat.hand.own.room) }
    ensures none { result ≡ None → IsSomeAnd (seat_of registry.old.seats c) (λ seat. version_at seat.hand ≡ None) }
    ensures same { result ≡ None → registry.new ≡ registry.old }
    ensures ends { IfSome result (EndsWork manager registry.old registry.new c) }
{
    let version = version_at(registry, c)?;
    let reply = finish(registry.seat_mut(c), version);
    if manager == Manager::Mvcc {
        registry.release_latches(c);
    }
    Some(reply)
}

// Forgets the first own write of a connection, which there is, and gives its latches up.
fn forget_first(registry: &mut Registry, c: ConnId)
    requires { IsSomeAnd (seat_of registry.old.seats c) (λ seat. seat.hand.own.items ≢ []) }
    ensures { ForgetsFirst registry.old registry.new c }
{
    remove_first(&mut registry.seat_mut(c).own);
    registry.release_latches(c);
}

/// Forgets the first own write, which there is. The cost grows with the own writes.
pub(crate) fn remove_first(own: &mut OwnWrites)
    requires { own.old.items ≢ [] }
    ensures { (first : OwnWriteValue) × (slice_get own.old.items 0 ≡ Some first) × (own.new ≡ without_first own.old)
        × ((object : ℕ × ℕ) → header_of own.new.items object ≡ header_of (drop 1 own.old.items) object)
        × ((object : ℕ × ℕ) → object ≢ (first.class, first.id) → header_of own.new.items object ≡ header_of own.old.items object) }
{
    own.ordered();
    match own.first() {
        Some(first) => {
            let first = *first;
            own.remove(first.class, first.id);
            own.ordered();
        }
        None => unreachable!(),
    }
}
