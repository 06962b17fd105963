//! The drop of the first version is planned that a transaction wrote, where it rolls back or its connection was condemned. It reads cells,
//! takes one latch, and changes one hand.

ghost use Rattle.std.specs.Prelude.{◌≡◌, ◌<◌, length, slice_get, Some, IfNone, IfSome, IsSomeAnd, OnSome};
ghost use Rattle.rdb_registry.specs.OwnWrites.{AreOrdered};
ghost use Rattle.rdb_registry.specs.Seats.{IsHolder};
ghost use Rattle.rdb_steps.specs.Planning.{FirstWrite, IsToDrop, KeepsWithoutFirst, LaysLatched};
ghost use Rattle.rdb_steps.specs.States.{IsKeptSomehow, IsWhole};
ghost use Rattle.rdb_steps.specs.Steps.{OnlyRecord, seat_at};
ghost use Rattle.rdb_steps.specs.Written.{ComesNearer, KeepsCounts};

use crate::laying::lay_drop;
use crate::state::State;
use rdb_base::identity::ConnId;
use rdb_pages::Pages;
use rdb_registry::{OwnWrite, Seat};

// The first object, by class and then by id, that a record's open transaction wrote, of which there is one.
fn first_own(seat: &Seat) -> OwnWrite
    requires { 0 < length seat.now.hand.own.items }
    ensures first { slice_get seat.now.hand.own.items 0 ≡ Some result }
    ensures ordered { AreOrdered seat.now.hand.own.items }
{
    seat.hand.own.ordered();
    match seat.hand.own.first() {
        Some(own) => *own,
        None => unreachable!(),
    }
}

impl<P: Pages> State<P> {
    /// Plans the drop of the first version that a connection's open transaction wrote, and takes the latch of its class. Where another
    /// connection holds that latch, it changes nothing and returns the holder. The cost is that of the store's plan; no memory is taken.
    pub fn plan_own_drop(&mut self, c: ConnId) -> Option<ConnId>
        requires whole { IsWhole self.old }
        requires kept { IsKeptSomehow self.old }
        requires due { IsSomeAnd (seat_at self.old c) IsToDrop }
        ensures busy { OnSome result (self.new ≡ self.old) }
        ensures holder { IfSome result (λ holder. FirstWrite self.old c (λ seat own.
            IsHolder self.old.transactions.registry.seats own.class holder)) }
        ensures kept { IfNone result (KeepsWithoutFirst self.old self.new c) }
        ensures record { OnlyRecord self.old self.new c }
        ensures becomes { IfNone result (FirstWrite self.old c (λ seat own. LaysLatched self.old self.new c own.class)) }
        ensures counts { KeepsCounts self.old self.new }
        ensures nearer { IfNone result (ComesNearer self.old self.new c) }
        ensures whole { IsWhole self.new }
    {
        let own = first_own(self.transactions.seat(c));
        let alloc = self.transactions.alloc;
        match self.transactions.registry.holder(own.class) {
            Some(holder) => Some(holder),
            None => {
                self.transactions.registry.take_latch(c, own.class);
                self.transactions.registry.sound();
                let hand = self.transactions.registry.seat_mut(c);
                lay_drop(
                    hand,
                    &self.store,
                    &self.memory,
                    own.class,
                    own.header,
                    alloc,
                );
                None
            }
        }
    }
}
