//! The open transactions: begin, mark and end, and what is read off them. It touches the records' transactions, and the numbers that are
//! kept of them.

ghost use Rattle.std.specs.Prelude.{◌≡◌, ◌+◌, ◌^◌, ◌<◌, ℕ, position, is_some, length, None, IsSome, IfSome, IfNone, IsSomeAnd, MatchOption, option_map};
ghost use Rattle.rdb_registry.specs.Seats.{slot_count, seat_of, changed, transaction_in, opening_of, opening_in, openings, is_writer, lower, NoneOpen, IsLeastSnapshot, HasUnmarked, mark_of, marked, with_begun, with_mark, without_transaction};
ghost use Rattle.rdb_registry.specs.Kept.{record_of, seats_of, AreOpenings};

use crate::registry::Registry;
use crate::seat::{Slot, Transaction};
use rdb_base::identity::{ConnId, Kind, TxId};

/// What is kept of the open transactions: the lowest slot that has one, the lowest that has a writer's, and the least snapshot.
#[derive(Clone, Copy, Debug)]
pub(crate) struct Openings {
    pub(crate) lowest: Option<u32>,
    pub(crate) writer: Option<u32>,
    pub(crate) least: Option<u64>,
}

impl Openings {
    /// That no transaction is open.
    pub(crate) const NONE: Openings = Openings {
        lowest: None,
        writer: None,
        least: None,
    };

    /// What is to be kept of the slots. The cost is one walk over them.
    pub(crate) fn of(slots: &[Slot]) -> Openings
        requires { length slots.now ≡ slot_count }
        ensures { AreOpenings (openings (seats_of slots.now)) result }
    {
        Openings {
            lowest: lowest_open(slots),
            writer: lowest_writer(slots),
            least: least_snapshot(slots),
        }
    }
}

impl Slot {
    // The open transaction of its record, if it is held and has one.
    fn transaction(&self) -> Option<Transaction>
        ensures { result ≡ transaction_in (record_of self.now) }
    {
        if self.is_held {
            self.seat.transaction
        } else {
            None
        }
    }
}

// The place of the first slot that has an open transaction.
fn first_open(slots: &[Slot]) -> Option<usize>
    ensures first { result ≡ position (λ slot. is_some (opening_in (record_of slot))) slots.now }
    ensures within { IfSome result (λ place. place < length slots.now) }
{
    slots.iter().position(|slot| is_open(slot))
}

// The lowest slot that has an open transaction.
fn lowest_open(slots: &[Slot]) -> Option<u32>
    requires { length slots.now ≡ slot_count }
    ensures { result ≡ position is_some (openings (seats_of slots.now)) }
{
    let place = first_open(slots)?;
    Some(place as u32)
}

// The place of the first slot that has an open transaction which may write.
fn first_writer(slots: &[Slot]) -> Option<usize>
    ensures first { result ≡ position (λ slot. is_writer (opening_in (record_of slot))) slots.now }
    ensures within { IfSome result (λ place. place < length slots.now) }
{
    slots.iter().position(|slot| is_writer(slot))
}

// The lowest slot that has an open transaction which may write.
fn lowest_writer(slots: &[Slot]) -> Option<u32>
    requires { length slots.now ≡ slot_count }
    ensures { result ≡ position is_writer (openings (seats_of slots.now)) }
{
    let place = first_writer(slots)?;
    Some(place as u32)
}

// Whether a slot has an open transaction.
fn is_open(slot: &Slot) -> bool
    ensures { result ≡ is_some (opening_in (record_of slot.now)) }
{
    slot.transaction().is_some()
}

// Whether a slot has an open transaction which may write.
fn is_writer(slot: &Slot) -> bool
    ensures { result ≡ is_writer (opening_in (record_of slot.now)) }
{
    match slot.transaction() {
        Some(transaction) => transaction.kind == Kind::ReadWrite,
        None => false,
    }
}

// The least snapshot of the open transactions.
fn least_snapshot(slots: &[Slot]) -> Option<u64>
    ensures { MatchOption result (NoneOpen (openings (seats_of slots.now))) (IsLeastSnapshot (openings (seats_of slots.now))) }
{
    let mut least = None;
    for slot in slots {
        least = lower(least, slot.transaction());
    }
    least
}

// The least snapshot so far, with one more slot's transaction.
fn lower(least: Option<u64>, transaction: Option<Transaction>) -> Option<u64>
    ensures { result ≡ lower least (option_map opening_of transaction) }
{
    match (least, transaction) {
        (Some(least), Some(transaction)) => Some(least.min(transaction.snapshot)),
        (None, Some(transaction)) => Some(transaction.snapshot),
        (least, None) => least,
    }
}

// A transaction with its mark, if there is a transaction.
fn marked(transaction: Option<Transaction>, commit: u64) -> Option<Transaction>
    ensures { result ≡ option_map (marked commit) transaction }
{
    let transaction = transaction?;
    Some(Transaction {
        mark: Some(commit),
        ..transaction
    })
}

impl Registry {
    /// Opens a transaction of a connection: its number is one more than those that the connection began. The cost is a walk over the slots.
    pub fn begin(&mut self, c: ConnId, kind: Kind, begun: u64, snapshot: u64)
        requires closed { IsSomeAnd (seat_of self.old.seats c) (λ seat. seat.transaction ≡ None) }
        requires count { IsSomeAnd (seat_of self.old.seats c) (λ seat. seat.begun + 1 < 2 ^ 64) }
        ensures { self.new ≡ record self.old { seats = changed self.old.seats c.slot (with_begun kind begun snapshot) } }
    {
        let seat = &mut self.slots[c.slot as usize].seat;
        seat.begun += 1;
        seat.transaction = Some(Transaction {
            number: seat.begun,
            kind,
            begun,
            snapshot,
            mark: None,
        });
        self.openings = Openings::of(&self.slots);
    }

    /// Writes the mark of a connection's open transaction: the number of its commit. From then on its stamps count as that commit's. The
    /// cost is constant.
    pub fn mark(&mut self, c: ConnId, commit: u64)
        requires { HasUnmarked (seat_of self.old.seats c) }
        ensures { self.new ≡ record self.old { seats = changed self.old.seats c.slot (with_mark commit) } }
    {
        let seat = &mut self.slots[c.slot as usize].seat;
        seat.transaction = marked(seat.transaction, commit);
    }

    /// Closes a connection's open transaction; its snapshot and its mark are gone. The cost is a walk over the slots.
    pub fn end(&mut self, c: ConnId)
        requires { IsSomeAnd (seat_of self.old.seats c) (λ seat. IsSome seat.transaction) }
        ensures { self.new ≡ record self.old { seats = changed self.old.seats c.slot without_transaction } }
    {
        self.slots[c.slot as usize].seat.transaction = None;
        self.openings = Openings::of(&self.slots);
    }

    /// The lowest slot whose connection has an open transaction, if there is one. The cost is constant.
    pub fn lowest_open(&self) -> Option<u32>
        ensures { result ≡ position is_some (openings self.now.seats) }
    {
        self.openings.lowest
    }

    /// The lowest slot whose connection has an open transaction which may write, if there is one. The cost is constant.
    pub fn lowest_writer(&self) -> Option<u32>
        ensures { result ≡ position is_writer (openings self.now.seats) }
    {
        self.openings.writer
    }

    /// The least snapshot of the open transactions, if there is one. The cost is constant.
    pub fn least_snapshot(&self) -> Option<u64>
        ensures none { IfNone result (NoneOpen (openings self.now.seats)) }
        ensures least { IfSome result (IsLeastSnapshot (openings self.now.seats)) }
    {
        self.openings.least
    }

    /// The commit of a transaction's mark: none exactly where it isn't open, or isn't marked. The cost is one look at its slot.
    pub fn mark_of(&self, tx: TxId) -> Option<u64>
        ensures { result ≡ mark_of self.now.seats tx }
    {
        let transaction = self.seat(tx.conn)?.transaction?;
        if transaction.number == tx.number {
            transaction.mark
        } else {
            None
        }
    }
}
