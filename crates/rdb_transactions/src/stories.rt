//! The story of a transaction: an operation that wrote nothing is told, and the story is moved out to be validated, and back. It changes
//! one record.

ghost use Rattle.std.specs.Prelude.{◌≡◌, ◌≤◌, ℕ, OnOk, OnErr, [], Some, None, length, IsSome};
ghost use Rattle.rdb_base.specs.declared.limits.TheConstants.{MAX_PLACES};
ghost use Rattle.rdb_base.specs.declared.identity.Kind.{Kind};
ghost use Rattle.rdb_base.specs.declared.identity.Kind.TheVariants as kind;
ghost use Rattle.rdb_base.specs.declared.identity.Phase.TheVariants as phase;
ghost use Rattle.rdb_model.specs.Touch.{written_by};
ghost use Rattle.rdb_registry.specs.declared.seat.Seat.{Seat};
ghost use Rattle.rdb_registry.specs.declared.seat.Transaction.{Transaction};
ghost use Rattle.rdb_registry.specs.Seats.{seat_of};
ghost use Rattle.rdb_transactions.specs.Hands.{without_story, with_story, noted};
ghost use Rattle.rdb_transactions.specs.Records.{on_hand, story_in};
ghost use Rattle.rdb_transactions.specs.Sound.{IsSound, IsSoundBut, Has};
ghost use Rattle.rdb_transactions.specs.Moves.{IsSame, Moves, KeepsSpare};

use crate::records::{append_done, put_story, take_story};
use crate::transactions::Transactions;
use rdb_base::identity::ConnId;
use rdb_base::journal::Story;
use rdb_base::list::NoMemory;
use rdb_base::operation::{Op, Reply};
use rdb_registry::{Seat, Transaction};

/// The open transaction of a record that has one.
pub fn open_in(seat: &Seat) -> Transaction
    requires { IsSome seat.now.transaction }
    ensures { seat.now.transaction ≡ Some result }
{
    match seat.transaction {
        Some(transaction) => transaction,
        None => unreachable!(),
    }
}

impl Transactions {
    /// Moves the story of a connection's open transaction out of its record, to be validated. It takes no memory.
    pub fn story_of(&mut self, c: ConnId) -> Story
        requires sound { IsSound self.old }
        requires opened { Has self.old c (λ seat. IsSome seat.transaction) }
        ensures story { (seat : Seat) (t : Transaction) →
            seat_of self.old.registry.seats c ≡ Some seat → seat.transaction ≡ Some t →
            result ≡ story_in c t seat.hand }
        ensures limit { length result.done ≤ MAX_PLACES }
        ensures moves { Moves self.old self.new c (on_hand without_story) [] }
        ensures spare { KeepsSpare self.old self.new }
        ensures sound { IsSoundBut result.done self.new }
    {
        let transaction = open_in(self.seat(c));
        let done = take_story(&mut self.registry, c, self.alloc);
        Story {
            client: c.slot,
            number: transaction.number,
            begun: transaction.begun,
            snapshot: transaction.snapshot,
            done,
        }
    }

    /// Moves a story back into the record that it came from, which runs and has no operation. It takes no memory.
    pub fn put_story_back(&mut self, c: ConnId, story: Story)
        requires sound { IsSoundBut story.done self.old }
        requires running { Has self.old c (λ seat. seat.hand.phase ≡ phase.Running kind.ReadWrite) }
        requires empty { Has self.old c (λ seat. seat.hand.done.items ≡ []) }
        requires limit { length story.done ≤ MAX_PLACES }
        ensures moves { Moves self.old self.new c (on_hand (with_story story.done)) [] }
        ensures spare { KeepsSpare self.old self.new }
        ensures sound { IsSound self.new }
    {
        let Story {
            client: _,
            number: _,
            begun: _,
            snapshot: _,
            done,
        } = story;
        put_story(&mut self.registry, c, done);
    }

    /// Appends an operation with its reply, which wrote nothing, to the story of a running transaction. The only error is want of memory;
    /// then nothing has changed.
    pub fn note(&mut self, c: ConnId, op: Op, reply: Reply) -> Result<(), NoMemory>
        requires sound { IsSound self.old }
        requires running { Has self.old c (λ seat. (kind : Kind) × (seat.hand.phase ≡ phase.Running kind)) }
        requires read { written_by (op, reply) ≡ None }
        ensures ok { OnOk result (Moves self.old self.new c (on_hand (noted op reply)) []) }
        ensures err { OnErr result (IsSame self.old self.new) }
        ensures spare { KeepsSpare self.old self.new }
        ensures sound { IsSound self.new }
    {
        append_done(&mut self.registry, c, op, reply)
    }
}
