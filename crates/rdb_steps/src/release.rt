//! What a condemned connection still holds is given up, once all that it logged is taken back. It changes no cell, but the connection's
//! record, and what is claimed for its write in work.

ghost use Rattle.std.specs.Prelude.{◌≡◌, ◌≤◌, [], IsSome, IsSomeAnd};
ghost use Rattle.rdb_registry.specs.Seats.{IsHeld, seat_of};
ghost use Rattle.rdb_steps.specs.Lists.{the_settled};
ghost use Rattle.rdb_steps.specs.Repairs.{HoldsUnfinished, Repairs, in_work, set_free};
ghost use Rattle.rdb_steps.specs.States.{IsKeptSomehow, IsWhole};
ghost use Rattle.rdb_steps.specs.Steps.{KeepsAs, aimed_by_taking_back, seat_at};
ghost use Rattle.rdb_steps.specs.Written.{ComesNearer};
ghost use Rattle.rdb_transactions.specs.Hands.{given_up};
ghost use Rattle.rdb_transactions.specs.Records.{edited, on_hand};

use crate::state::State;
use rdb_base::identity::ConnId;
use rdb_cells::HasPairs;
use rdb_pages::Pages;
use rdb_registry::{Hand, Registry, Seat};
use rdb_transactions::Transactions;

impl<P: Pages> State<P> {
    /// Gives up what a condemned connection still holds, whose undo record is empty: what is left of its plan, its operation in work, and
    /// its latches. It brings the end of the repair nearer where there was a plan, or a latch, and the plan wasn't the drop of a version. The
    /// cost grows with what is left of the plan.
    pub fn release(&mut self, d: ConnId)
        requires whole { IsWhole self.old }
        requires kept { IsKeptSomehow self.old }
        requires condemned { IsSomeAnd (seat_at self.old d) (λ seat. IsSome seat.condemned) }
        requires logged { IsSomeAnd (seat_at self.old d) (λ seat. seat.hand.undo.pairs ≡ []) }
        ensures kept { KeepsAs self.old self.new the_settled (aimed_by_taking_back (seat_at self.old d)) }
        ensures becomes { IsSomeAnd (seat_at self.old d) (λ seat. Repairs self.old.transactions self.new.transactions d seat set_free) }
        ensures rest { self.new ≡ record self.old { transactions = self.new.transactions } }
        ensures nearer { IsSomeAnd (seat_at self.old d) HoldsUnfinished → ComesNearer self.old self.new d }
        ensures whole { IsWhole self.new }
    {
        self.transactions.registry.sound();
        give_up_work(&mut self.transactions, d);
        self.transactions.registry.release_latches(d);
    }
}

/// Gives up what is left of a connection's plan, and its operation in work with the place that was claimed for its write.
pub(crate) fn give_up_work(t: &mut Transactions, d: ConnId)
    requires { IsSomeAnd (seat_of t.old.registry.seats d) (λ seat. in_work seat ≤ t.old.claims.writes) }
    ensures { IsSomeAnd (seat_of t.old.registry.seats d) (λ seat. Repairs t.old t.new d seat (on_hand given_up)) }
{
    t.claims.writes -= writes_in_work(t.seat(d));
    drop_work(&mut t.registry, d);
}

// How many writes a record has in work.
fn writes_in_work(seat: &Seat) -> usize
    ensures { result ≡ in_work seat.now }
{
    if seat.hand.work.is_some() { 1 } else { 0 }
}

// Gives up what is left of a connection's plan, and its operation in work.
fn drop_work(registry: &mut Registry, d: ConnId)
    requires { IsHeld registry.old.seats d }
    ensures { registry.new ≡ edited registry.old d.slot (on_hand given_up) }
{
    without_work(registry.seat_mut(d));
}

// Gives up what is left of a plan, and the operation in work.
fn without_work(hand: &mut Hand)
    ensures { hand.new ≡ given_up hand.old }
{
    hand.work = None;
    hand.plan.clear();
}
