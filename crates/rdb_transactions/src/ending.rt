//! A transaction ends: its story goes into the journal, and its record lays everything down. It changes one record, and appends one entry.

ghost use Rattle.std.specs.Prelude.{◌≡◌, ◌+◌, ℕ, [], ◌∷◌, Some, None, IsSome, IsSomeAnd};
ghost use Rattle.rdb_base.specs.declared.identity.Kind.TheVariants as kind;
ghost use Rattle.rdb_base.specs.declared.identity.Phase.TheVariants as phase;
ghost use Rattle.rdb_base.specs.declared.journal.Cause.{Cause};
ghost use Rattle.rdb_base.specs.declared.journal.Entry.TheVariants as entry;
ghost use Rattle.rdb_model.specs.Journal.{commits};
ghost use Rattle.rdb_registry.specs.declared.seat.Seat.{Seat};
ghost use Rattle.rdb_registry.specs.declared.seat.Transaction.{Transaction};
ghost use Rattle.rdb_registry.specs.Seats.{seat_of};
ghost use Rattle.rdb_transactions.specs.Claims.{writes_in};
ghost use Rattle.rdb_transactions.specs.Records.{story_in, becomes_marked};
ghost use Rattle.rdb_transactions.specs.Sound.{IsSound, IsSoundBut, Has};
ghost use Rattle.rdb_transactions.specs.Moves.{Moves, KeepsSpare, ExchangesSpare, ends, ends_with_story};

use crate::claims::{Claims, writes_in};
use crate::opening::exchange_for_writer;
use crate::records::{close_in, stamp_from_now};
use crate::stories::open_in;
use crate::transactions::Transactions;
use rdb_base::identity::ConnId;
use rdb_base::journal::{Cause, Entry, Story};
use rdb_registry::Seat;

// The commit of the mark of a record's open transaction.
fn mark_in(seat: &Seat) -> u64
    requires { IsSomeAnd seat.now.transaction (λ t. IsSome t.mark) }
    ensures { IsSomeAnd seat.now.transaction (λ t. t.mark ≡ Some result) }
{
    match open_in(seat).mark {
        Some(commit) => commit,
        None => unreachable!(),
    }
}

// Why a record's open transaction rolls back.
fn cause_in(seat: &Seat) -> Cause
    requires { IsSome seat.now.hand.cause }
    ensures { seat.now.hand.cause ≡ Some result }
{
    match seat.hand.cause {
        Some(cause) => cause,
        None => unreachable!(),
    }
}

// What a story has claimed of the journal: the place of its ending, and those of its writes.
fn claimed_by(story: &Story) -> Claims
    ensures { result ≡ record { entries = 1; writes = writes_in story.now.done } }
{
    Claims {
        entries: 1,
        writes: writes_in(story.done.as_slice()),
    }
}

impl Transactions {
    // Closes a connection's open transaction; the single writer gives the spare undo record back.
    fn close_transaction(&mut self, c: ConnId)
        requires { Has self.old c (λ seat. IsSome seat.transaction) }
        ensures moves { Moves self.old self.new c (ends self.old) [] }
        ensures spare { ExchangesSpare self.old self.new c (λ seat. seat) }
        ensures journal { self.new.journal ≡ self.old.journal }
        ensures claims { self.new.claims ≡ self.old.claims }
    {
        exchange_for_writer(&mut self.registry, c, self.manager, &mut self.spare_undo);
        close_in(&mut self.registry, c);
    }

    /// Marks a connection's open transaction as the next commit, with its story in the journal and an empty undo record; its versions are
    /// then to be stamped. It takes no memory. The cost grows with the operations of the story, and under the manager of a single writer
    /// with what is logged.
    pub fn mark(&mut self, c: ConnId, story: Story)
        requires sound { IsSoundBut story.done self.old }
        requires running { Has self.old c (λ seat. seat.hand.phase ≡ phase.Running kind.ReadWrite) }
        requires live { Has self.old c (λ seat. seat.condemned ≡ None) }
        requires empty { Has self.old c (λ seat. seat.hand.done.items ≡ []) }
        ensures moves { let number = commits self.old.journal.entries + 1 in
            Moves self.old self.new c (becomes_marked number) (entry.Commit story number ∷ []) }
        ensures spare { KeepsSpare self.old self.new }
        ensures sound { IsSound self.new }
    {
        let commit = self.journal.commits() + 1;
        let given = claimed_by(&story);
        self.enter(Entry::Commit { story, commit }, given);
        self.registry.mark(c, commit);
        stamp_from_now(&mut self.registry, c);
    }

    /// Ends a marked transaction that has no version to be stamped. Returns the number of its commit. It takes no memory.
    pub fn end_committed(&mut self, c: ConnId) -> u64
        requires sound { IsSound self.old }
        requires stamping { Has self.old c (λ seat. seat.hand.phase ≡ phase.Stamping) }
        ensures commit { Has self.old c (λ seat. IsSomeAnd seat.transaction (λ t. t.mark ≡ Some result)) }
        ensures moves { Moves self.old self.new c (ends self.old) [] }
        ensures spare { ExchangesSpare self.old self.new c (λ seat. seat) }
        ensures sound { IsSound self.new }
    {
        let commit = mark_in(self.seat(c));
        self.close_transaction(c);
        commit
    }

    /// Ends a transaction that only read: its Read. Returns its snapshot. It takes no memory.
    pub fn end_read(&mut self, c: ConnId) -> u64
        requires sound { IsSound self.old }
        requires reading { Has self.old c (λ seat. seat.hand.phase ≡ phase.Running kind.ReadOnly) }
        ensures moves { (seat : Seat) (t : Transaction) →
            seat_of self.old.registry.seats c ≡ Some seat → seat.transaction ≡ Some t →
            Moves self.old self.new c (ends_with_story self.old) (entry.Read (story_in c t seat.hand) ∷ []) }
        ensures snapshot { Has self.old c (λ seat. IsSomeAnd seat.transaction (λ t. t.snapshot ≡ result)) }
        ensures spare { KeepsSpare self.old self.new }
        ensures sound { IsSound self.new }
    {
        let story = self.story_of(c);
        let snapshot = story.snapshot;
        let given = claimed_by(&story);
        self.enter(Entry::Read { story }, given);
        self.close_transaction(c);
        snapshot
    }

    /// Ends a transaction of which nothing is left to take back or to drop: its Abort, with the cause that its record keeps. It takes no
    /// memory.
    pub fn end_rolled_back(&mut self, c: ConnId)
        requires sound { IsSound self.old }
        requires rolling_back { Has self.old c (λ seat. seat.hand.phase ≡ phase.RollingBack) }
        requires planned { Has self.old c (λ seat. seat.hand.plan.pairs ≡ []) }
        requires logged { Has self.old c (λ seat. seat.hand.undo.pairs ≡ []) }
        ensures moves { (seat : Seat) (t : Transaction) (cause : Cause) →
            seat_of self.old.registry.seats c ≡ Some seat → seat.transaction ≡ Some t → seat.hand.cause ≡ Some cause →
            Moves self.old self.new c (ends_with_story self.old) (entry.Abort (story_in c t seat.hand) cause ∷ []) }
        ensures spare { ExchangesSpare self.old self.new c (λ seat. seat) }
        ensures sound { IsSound self.new }
    {
        let cause = cause_in(self.seat(c));
        let story = self.story_of(c);
        let given = claimed_by(&story);
        self.enter(Entry::Abort { story, cause }, given);
        self.close_transaction(c);
    }
}
