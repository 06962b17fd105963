//! The record of one connection, as plain data: who it is, its open transaction, its latches, whether it was condemned, and what it has
//! in hand. It touches nothing but itself.

ghost use Rattle.std.specs.Prelude.{◌≡◌, false, true, OnOk, OnErr};
ghost use Rattle.std.specs.Borrow.{sem};
ghost use Rattle.rdb_registry.specs.Seats.{IsNew};
ghost use Rattle.rdb_registry.specs.SlotLending.{LendsOfSeat, LendsOfSlot};

use crate::hand::Hand;
use rdb_base::identity::{ConnId, Kind};
use rdb_base::list::NoMemory;
use std::alloc::Global;

/// An open transaction: the head of its story, its kind, and the number of its commit once its mark is written.
#[derive(Clone, Copy, Debug, PartialEq, Eq)]
pub struct Transaction {
    /// Its number among those that the connection began, from 1.
    pub number: u64,
    pub kind: Kind,
    /// How long the journal was when it began.
    pub begun: u64,
    /// How many commits it sees.
    pub snapshot: u64,
    pub mark: Option<u64>,
}

/// By whom a connection was condemned, and how long the journal was then.
#[derive(Clone, Copy, Debug, PartialEq, Eq)]
pub struct Condemned {
    pub by: ConnId,
    pub at: u64,
}

/// One entry of the list of the condemned.
#[derive(Clone, Copy, Debug, PartialEq, Eq)]
pub struct Condemnation {
    pub conn: ConnId,
    pub condemned: Condemned,
}

/// The record of a connection.
#[derive(Drop)]
pub struct Seat {
    pub conn: ConnId,
    /// How many transactions it began.
    pub begun: u64,
    /// Its open transaction: from its begin until its commit or its roll-back is answered.
    pub transaction: Option<Transaction>,
    /// The latches that it holds: bit i, from the lowest, is that of class i.
    pub latches: u64,
    pub condemned: Option<Condemned>,
    pub hand: Hand,
}

/// A slot: its record, and whether a connection holds it. A free slot keeps the room of its record for the next one.
#[derive(Drop)]
pub(crate) struct Slot {
    pub(crate) is_held: bool,
    pub(crate) seat: Seat,
}

impl Seat {
    // Lends what it has in hand.
    fn hand_mut(&mut self) -> &mut Hand
        ensures* writes_back { sem 𝓛 (LendsOfSeat self.entry result) }
        ensures value { result.now ≡ self.old.hand }
    {
        &mut self.hand
    }
}

impl Slot {
    /// A free slot, without room. It takes no memory.
    pub(crate) fn free_slot(alloc: Global) -> Slot
        ensures { result.is_held ≡ false }
    {
        Slot {
            is_held: false,
            seat: Seat {
                conn: ConnId { slot: 0, serial: 0 },
                begun: 0,
                transaction: None,
                latches: 0,
                condemned: None,
                hand: Hand::empty(alloc),
            },
        }
    }

    /// Gives a free slot to a connection, with a new record. Where memory is wanting the slot stays free.
    pub(crate) fn connect(&mut self, conn: ConnId, alloc: Global) -> Result<(), NoMemory>
        requires { self.old.is_held ≡ false }
        ensures ok { OnOk result ((self.new.is_held ≡ true) × IsNew conn self.new.seat) }
        ensures err { OnErr result (self.new.is_held ≡ false) }
    {
        let seat = &mut self.seat;
        seat.hand.make_ready(alloc)?;
        seat.conn = conn;
        seat.begun = 0;
        seat.transaction = None;
        seat.latches = 0;
        seat.condemned = None;
        self.is_held = true;
        Ok(())
    }

    /// Frees the slot, and keeps the room of its record. It takes no memory.
    pub(crate) fn free(&mut self, alloc: Global)
        ensures { self.new.is_held ≡ false }
    {
        self.seat.hand.clear(alloc);
        self.is_held = false;
    }

    /// Lends what its record has in hand.
    pub(crate) fn hand_mut(&mut self) -> &mut Hand
        ensures* writes_back { sem 𝓛 (LendsOfSlot self.entry result) }
        ensures value { result.now ≡ self.old.seat.hand }
    {
        self.seat.hand_mut()
    }
}
