//! The drop of a garbage version is planned, before the own plan of an operation. It reads cells, and changes one hand.

ghost use Rattle.std.specs.Prelude.{ℕ, Option, IsSomeAnd};
ghost use Rattle.rdb_base.specs.declared.identity.ConnId.{ConnId as ConnIdValue};
ghost use Rattle.rdb_cells.specs.Records.{IsRecord};
ghost use Rattle.rdb_sight.specs.Versions.{Versions, objects_in};
ghost use Rattle.rdb_store.specs.FirstGarbage.{IsFirstGarbage};
ghost use Rattle.rdb_steps.specs.Making.{IsFloor};
ghost use Rattle.rdb_steps.specs.Planning.{ComesNearerWithVersion, IsDue, IsToGo, KeepsWithout, LaysIn};
ghost use Rattle.rdb_steps.specs.States.{IsKeptSomehow, IsWhole, Keeps};
ghost use Rattle.rdb_steps.specs.Steps.{OnlyRecord, seat_at};
ghost use Rattle.rdb_steps.specs.Written.{KeepsCounts};

use crate::laying::lay_drop;
use crate::state::State;
use rdb_base::identity::ConnId;
use rdb_cells::HasPairs;
use rdb_pages::{CellRef, Pages};
use rdb_registry::Hand;

// Says that the undo record of a hand names each cell once. It does nothing.
pub(crate) fn logged_once(hand: &Hand)
    ensures { IsRecord hand.now.undo }
{
    hand.undo.each_once();
}

impl<P: Pages> State<P> {
    /// The first version, by its object's id and then by its commit, of a class that is written, which no reader can see any more by the
    /// least open snapshot; none where each can be seen. The cells are seen as they stand, so no version is found again whose drop is
    /// written. The cost grows with the class's versions; no memory is taken.
    pub fn garbage(&self, class: u32) -> Option<CellRef>
        requires whole { IsWhole self.now }
        requires kept { IsKeptSomehow self.now }
        requires due { (c : ConnIdValue) × IsSomeAnd (seat_at self.now c) (IsDue class) }
        ensures { (settled aimed : Versions) → Keeps self.now settled aimed → (floor : Option ℕ)
            × IsFloor self.now.transactions.registry.seats floor × IsFirstGarbage floor (objects_in aimed class) result }
    {
        let floor = self.transactions.registry.least_snapshot();
        self.store.first_garbage(class, floor, &self.memory)
    }

    /// Plans the drop of a garbage version of the class that a connection's operation writes, before the operation's own plan. The cost is
    /// that of the store's plan; no memory is taken.
    pub fn plan_drop(&mut self, c: ConnId, class: u32, version: CellRef)
        requires whole { IsWhole self.old }
        requires due { IsSomeAnd (seat_at self.old c) (IsDue class) }
        requires garbage { IsToGo self.old class version.number }
        ensures kept { KeepsWithout self.old self.new class version.number }
        ensures record { OnlyRecord self.old self.new c }
        ensures becomes { LaysIn self.old self.new c }
        ensures counts { KeepsCounts self.old self.new }
        ensures nearer { ComesNearerWithVersion self.old self.new c }
        ensures whole { IsWhole self.new }
    {
        let alloc = self.transactions.alloc;
        let hand = self.transactions.registry.seat_mut(c);
        logged_once(hand);
        lay_drop(hand, &self.store, &self.memory, class, version, alloc);
    }
}
