//! A transaction begins. It changes the record of its connection, and claims the place of the entry by which it will end.

ghost use Rattle.std.specs.Prelude.{◌≡◌, ◌+◌, ◌^◌, ◌<◌, ℕ, OnOk, OnErr, [], Some, None, true, false, IsSomeAnd};
ghost use Rattle.std.specs.Option.{option_map_or};
ghost use Rattle.rdb_base.specs.declared.identity.Phase.TheVariants as phase;
ghost use Rattle.rdb_registry.specs.declared.seat.Seat.{Seat};
ghost use Rattle.rdb_registry.specs.Seats.{IsHeld, NoOtherHolds, seat_of, may_write};
ghost use Rattle.rdb_transactions.specs.Records.{is_single_writer, edited, latched, exchanged, spare_left};
ghost use Rattle.rdb_transactions.specs.Sound.{IsSound, Has, FindsNoLatch};
ghost use Rattle.rdb_transactions.specs.Moves.{IsSame, Moves, ExchangesSpare, begins, opens};

use crate::records::{enter_phase, exchange_undo};
use crate::transactions::Transactions;
use rdb_base::identity::{ConnId, Kind, Manager, Phase};
use rdb_base::list::NoMemory;
use rdb_cells::Undo;
use rdb_registry::{Registry, Seat};

// Whether the open transaction of a record is the single writer's.
fn is_single_writer(manager: Manager, seat: &Seat) -> bool
    ensures { result ≡ is_single_writer manager seat.now }
{
    match manager {
        Manager::Mursiw => may_write(seat),
        Manager::Mvcc => false,
    }
}

// Whether a record has an open transaction that may write.
fn may_write(seat: &Seat) -> bool
    ensures { result ≡ option_map_or (λ t. may_write t.kind) seat.now.transaction false }
{
    match seat.transaction {
        Some(transaction) => transaction.kind == Kind::ReadWrite,
        None => false,
    }
}

// The same of the record of a connection that is held.
fn is_single_writers(registry: &Registry, c: ConnId, manager: Manager) -> bool
    requires { IsHeld registry.now.seats c }
    ensures { IsSomeAnd (seat_of registry.now.seats c) (λ seat. result ≡ is_single_writer manager seat) }
{
    match registry.seat(c) {
        Some(seat) => is_single_writer(manager, seat),
        None => unreachable!(),
    }
}

// Takes every latch for the single writer, where no other connection holds any.
fn take_latches(registry: &mut Registry, c: ConnId, manager: Manager)
    requires held { IsHeld registry.old.seats c }
    requires free { (seat : Seat) → seat_of registry.old.seats c ≡ Some seat → is_single_writer manager seat ≡ true →
        (class : ℕ) → NoOtherHolds registry.old.seats c.slot class }
    ensures { registry.new ≡ edited registry.old c.slot (latched manager registry.old.classes) }
{
    if is_single_writers(registry, c, manager) {
        registry.take_all_latches(c);
    }
}

/// Exchanges the undo record of the single writer for the spare one.
pub(crate) fn exchange_for_writer(
    registry: &mut Registry,
    c: ConnId,
    manager: Manager,
    spare: &mut Undo,
)
    requires { IsHeld registry.old.seats c }
    ensures registry { registry.new ≡ edited registry.old c.slot (exchanged manager spare.old) }
    ensures spare { IsSomeAnd (seat_of registry.old.seats c) (λ seat. spare.new ≡ spare_left manager spare.old seat) }
{
    if is_single_writers(registry, c, manager) {
        exchange_undo(registry, c, spare);
    }
}

impl Transactions {
    /// Opens a transaction of an idle connection, and claims the place of the entry by which it will end. It sees all commits so far. Under
    /// the manager of a single writer, a writer gets every latch, and the undo record with a place for each cell. The only error is want of
    /// memory; then nothing has changed. The cost is a walk over the slots.
    pub fn open_transaction(&mut self, c: ConnId, kind: Kind) -> Result<(), NoMemory>
        requires sound { IsSound self.old }
        requires idle { Has self.old c (λ seat. seat.hand.phase ≡ phase.Idle) }
        requires latches { FindsNoLatch self.old c kind }
        ensures ok { OnOk result (Moves self.old self.new c (begins self.old kind) []) }
        ensures spare { OnOk result (ExchangesSpare self.old self.new c (opens self.old kind)) }
        ensures err { OnErr result (IsSame self.old self.new) }
        ensures sound { IsSound self.new }
    {
        self.claim_entry()?;
        self.open_record(c, kind);
        Ok(())
    }

    // Opens a transaction in the record of an idle connection.
    fn open_record(&mut self, c: ConnId, kind: Kind)
        requires idle { Has self.old c (λ seat. seat.transaction ≡ None) }
        requires count { Has self.old c (λ seat. seat.begun + 1 < 2 ^ 64) }
        requires latches { FindsNoLatch self.old c kind }
        ensures moves { Moves self.old self.new c (begins self.old kind) [] }
        ensures spare { ExchangesSpare self.old self.new c (opens self.old kind) }
        ensures journal { self.new.journal ≡ self.old.journal }
        ensures claims { self.new.claims ≡ self.old.claims }
    {
        let begun = self.journal.len() as u64;
        let snapshot = self.journal.commits();
        self.registry.begin(c, kind, begun, snapshot);
        enter_phase(&mut self.registry, c, Phase::Running(kind));
        take_latches(&mut self.registry, c, self.manager);
        exchange_for_writer(&mut self.registry, c, self.manager, &mut self.spare_undo);
    }
}
