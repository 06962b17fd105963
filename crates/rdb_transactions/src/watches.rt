//! Events are watched, and told one by one. It changes one record.

ghost use Rattle.std.specs.Prelude.{◌≡◌, ◌<◌, ◌&&◌, ◌==◌, [], length, OnOk, OnErr, IsSome, position};
ghost use Rattle.rdb_base.specs.declared.identity.Phase.TheVariants as phase;
ghost use Rattle.rdb_transactions.specs.Hands.{with_watch, with_watch_at, watch_of};
ghost use Rattle.rdb_transactions.specs.Records.{on_hand};
ghost use Rattle.rdb_transactions.specs.Sound.{IsSound, Has};
ghost use Rattle.rdb_transactions.specs.Moves.{IsSame, Moves, KeepsSpare};

use crate::records::{push_watch, set_watch};
use crate::transactions::Transactions;
use rdb_base::identity::ConnId;
use rdb_base::list::NoMemory;
use rdb_registry::{Subscription, Subscriptions};

/// The place, from 0, of the watch of an event among those of a connection, if it watches it. The cost grows with them.
pub fn watched(watches: &Subscriptions, class: u32, event: u32) -> Option<usize>
    ensures { result ≡ watch_of class event watches.now }
{
    watches
        .as_slice()
        .iter()
        .position(|watch| watch.class == class && watch.event == event)
}

impl Transactions {
    /// Watches one event more. The only error is want of memory; then nothing has changed.
    pub fn add_watch(&mut self, c: ConnId, watch: Subscription) -> Result<(), NoMemory>
        requires sound { IsSound self.old }
        requires idle { Has self.old c (λ seat. seat.hand.phase ≡ phase.Idle) }
        ensures ok { OnOk result (Moves self.old self.new c (on_hand (with_watch watch)) []) }
        ensures err { OnErr result (IsSame self.old self.new) }
        ensures spare { KeepsSpare self.old self.new }
        ensures sound { IsSound self.new }
    {
        push_watch(&mut self.registry, c, watch)
    }

    /// Moves the watch at a place among those of a connection. It takes no memory.
    pub fn move_watch(&mut self, c: ConnId, place: usize, watch: Subscription)
        requires sound { IsSound self.old }
        requires idle { Has self.old c (λ seat. seat.hand.phase ≡ phase.Idle) }
        requires place { Has self.old c (λ seat. place < length seat.hand.subscriptions) }
        ensures moves { Moves self.old self.new c (on_hand (with_watch_at place watch)) [] }
        ensures spare { KeepsSpare self.old self.new }
        ensures sound { IsSound self.new }
    {
        set_watch(&mut self.registry, c, place, watch);
    }
}
