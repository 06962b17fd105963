//! The data: the record of each connection, and the journal. It changes nothing.

ghost use Rattle.std.specs.Prelude.{◌≡◌, ◌≤◌, [], IfOk, IsSome, replicate, None};
ghost use Rattle.std.specs.Option.{option_copied};
ghost use Rattle.rdb_registry.specs.Registry.{max_classes};
ghost use Rattle.rdb_registry.specs.Seats.{slot_count, seat_of, IsHeld};
ghost use Rattle.rdb_transactions.specs.Sound.{IsSound};

use crate::claims::Claims;
use rdb_base::identity::{ConnId, Manager};
use rdb_base::list::NoMemory;
use rdb_cells::Undo;
use rdb_history::journal::Journal;
use rdb_registry::{Registry, Seat};
use std::alloc::Global;

/// The connections of a region with their transactions, and the journal.
#[derive(Drop)]
pub struct Transactions {
    pub alloc: Global,
    pub manager: Manager,
    pub registry: Registry,
    pub journal: Journal,
    /// What of the journal's room is claimed.
    pub claims: Claims,
    /// Under the manager of a single writer, the undo record with a place for each cell of the region, while no writer has it.
    pub spare_undo: Undo,
}

impl Transactions {
    /// No connection, and an empty journal, for so many classes. The only error is want of memory.
    pub fn new(
        alloc: Global,
        manager: Manager,
        classes: u32,
        spare_undo: Undo,
    ) -> Result<Transactions, NoMemory>
        requires classes { classes ≤ max_classes }
        requires spare { spare_undo.pairs ≡ [] }
        ensures seats { IfOk result (λ t. t.registry.seats ≡ replicate slot_count None) }
        ensures classes { IfOk result (λ t. t.registry.classes ≡ classes) }
        ensures journal { IfOk result (λ t. t.journal.entries ≡ []) }
        ensures manager { IfOk result (λ t. t.manager ≡ manager) }
        ensures spare { IfOk result (λ t. t.spare_undo ≡ spare_undo) }
        ensures sound { IfOk result IsSound }
    {
        Ok(Transactions {
            alloc,
            manager,
            registry: Registry::new(alloc, classes)?,
            journal: Journal::new(alloc),
            claims: Claims::none(),
            spare_undo,
        })
    }

    /// The record of a connection that is held.
    pub fn seat(&self, c: ConnId) -> &Seat
        requires { IsHeld self.now.registry.seats c }
        ensures { seat_of self.now.registry.seats c ≡ Some result.now }
    {
        match self.registry.seat(c) {
            Some(seat) => seat,
            None => unreachable!(),
        }
    }
}
