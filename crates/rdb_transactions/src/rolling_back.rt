//! A roll-back begins. It changes one record, and gives up what an operation in work has claimed.

ghost use Rattle.std.specs.Prelude.{◌≡◌, ◌≤◌, [], is_some, if◌then◌else◌};
ghost use Rattle.rdb_transactions.specs.Phases.{IsUnmarked};
ghost use Rattle.rdb_transactions.specs.Records.{rolls_back};
ghost use Rattle.rdb_transactions.specs.Sound.{IsSound, Has};
ghost use Rattle.rdb_transactions.specs.Moves.{Moves, KeepsSpare};

use crate::records::{give_up_work, leave_class, roll_back_for};
use crate::transactions::Transactions;
use rdb_base::identity::ConnId;
use rdb_base::journal::Cause;
use rdb_registry::Seat;

/// How many writes a record has in work.
pub(crate) fn writes_in_work(seat: &Seat) -> usize
    ensures value { result ≡ (if is_some seat.now.hand.work then 1 else 0) }
    ensures few { result ≤ 1 }
{
    if seat.hand.work.is_some() { 1 } else { 0 }
}

impl Transactions {
    /// Puts a connection's open transaction into roll-back, for this cause: an operation in work is given up, and where many may write, its
    /// latch. It takes no memory, and changes no cell: what was written is taken back and dropped afterwards.
    pub fn begin_roll_back(&mut self, c: ConnId, cause: Cause)
        requires sound { IsSound self.old }
        requires opened { Has self.old c IsUnmarked }
        ensures moves { Moves self.old self.new c (rolls_back self.old.manager cause) [] }
        ensures spare { KeepsSpare self.old self.new }
        ensures sound { IsSound self.new }
    {
        self.claims.writes -= writes_in_work(self.seat(c));
        give_up_work(&mut self.registry, c);
        leave_class(&mut self.registry, c, self.manager);
        roll_back_for(&mut self.registry, c, cause);
    }
}
