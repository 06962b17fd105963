//! The laws of the moves of one record for rooms and numbers: each record has room for what comes, the single writer's undo record is lent
//! and given back, and no number runs over. Their functions do nothing.
ghost use Rattle.std.specs.Prelude.{◌≡◌, ℕ, List, [], ◌∷◌, false, Some, None};
ghost use Rattle.rdb_base.specs.declared.identity.ConnId.{ConnId};
ghost use Rattle.rdb_base.specs.declared.identity.Kind.{Kind};
ghost use Rattle.rdb_base.specs.declared.journal.Cause.{Cause};
ghost use Rattle.rdb_base.specs.declared.journal.Entry.{Entry};
ghost use Rattle.rdb_registry.specs.declared.seat.Seat.{Seat};
ghost use Rattle.rdb_registry.specs.Seats.{seat_of};
ghost use Rattle.rdb_transactions.specs.declared.transactions.Transactions.{Transactions};
ghost use Rattle.rdb_transactions.specs.Claims.{is_unmarked};
ghost use Rattle.rdb_transactions.specs.Moves.{Moves, Comes, Condemns, Leaves, KeepsSpare, ExchangesSpare, begins, opens, ends};
ghost use Rattle.rdb_transactions.specs.Records.{becomes_marked, rolls_back};
ghost use Rattle.rdb_steps.specs.Moves.{MayBegin, TellsAlone};
ghost use Rattle.rdb_steps.specs.Phases.{IsIdle};
ghost use Rattle.rdb_steps.specs.Rooms.{IsOnlyWriter, KeepRooms, KeepsFurniture, TellsFew};

/// A connection comes: it has room for an undo record and a plan.
pub fn a_connection_that_comes_keeps_rooms()
    ensures { (before after : Transactions) (c : ConnId) → Comes before after c → KeepRooms before after }
{}

/// A connection closes that has no open transaction.
pub fn a_connection_that_closes_keeps_rooms()
    ensures { (before after : Transactions) (c : ConnId) (entry : Entry) (seat : Seat) → Leaves before after c entry
        → KeepsSpare before after → seat_of before.registry.seats c ≡ Some seat → seat.transaction ≡ None → KeepRooms before after }
{}

/// A story grows and stays short, or an event is watched, or told.
pub fn what_is_told_keeps_rooms()
    ensures { (before after : Transactions) (c : ConnId) (seat : Seat) (change : Seat → Seat) → Moves before after c change []
        → KeepsSpare before after → seat_of before.registry.seats c ≡ Some seat → TellsAlone seat (change seat)
        → TellsFew seat (change seat) → KeepRooms before after }
{}

/// A roll-back begins.
pub fn a_roll_back_that_begins_keeps_rooms()
    ensures { (before after : Transactions) (c : ConnId) (seat : Seat) (cause : Cause)
        → Moves before after c (rolls_back before.manager cause) [] → KeepsSpare before after
        → seat_of before.registry.seats c ≡ Some seat → KeepRooms before after }
{}

/// A transaction is marked: its story stands in the journal, and its record has no operation in work.
pub fn a_mark_keeps_rooms()
    ensures { (before after : Transactions) (c : ConnId) (seat : Seat) (number : ℕ) (entry : Entry)
        → Moves before after c (becomes_marked number) (entry ∷ []) → KeepsSpare before after
        → seat_of before.registry.seats c ≡ Some seat → seat.hand.work ≡ None → KeepRooms before after }
{}

/// A connection is condemned.
pub fn a_condemnation_keeps_rooms()
    ensures { (before after : Transactions) (d by : ConnId) (seat : Seat) → Condemns before after d by
        → seat_of before.registry.seats d ≡ Some seat → KeepRooms before after }
{}

/// A transaction of an idle connection begins: a single writer has the undo record with a place for each cell, and its own is kept.
pub fn a_transaction_that_begins_keeps_rooms()
    ensures { (before after : Transactions) (c : ConnId) (seat : Seat) (wanted : Kind) → Moves before after c (begins before wanted) []
        → ExchangesSpare before after c (opens before wanted) → seat_of before.registry.seats c ≡ Some seat → IsIdle seat
        → MayBegin before.manager before.registry.seats c.slot wanted → KeepRooms before after }
{}

/// A transaction ends, with the entry that tells of it, or where that stands in the journal: a single writer has its own undo record again.
/// Its record may first become another.
pub fn a_transaction_that_ends_keeps_rooms()
    ensures { (before after : Transactions) (c : ConnId) (seat : Seat) (first : Seat → Seat) (more : List Entry)
        → Moves before after c (λ s. ends before (first s)) more → ExchangesSpare before after c first
        → seat_of before.registry.seats c ≡ Some seat → KeepsFurniture before.manager seat (first seat)
        → (more ≡ [] → is_unmarked seat ≡ false) → IsOnlyWriter before.manager before.registry.seats c.slot seat
        → KeepRooms before after }
{}

/// A condemned connection goes: the undo record with a place for each cell is spare again, if it had it.
pub fn a_connection_that_is_repaired_keeps_rooms()
    ensures { (before after : Transactions) (c : ConnId) (entry : Entry) (seat : Seat) → Leaves before after c entry
        → ExchangesSpare before after c (λ s. s) → seat_of before.registry.seats c ≡ Some seat
        → IsOnlyWriter before.manager before.registry.seats c.slot seat → KeepRooms before after }
{}
