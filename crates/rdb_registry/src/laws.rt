//! Laws of the records by slot, for whoever proves something of a registry that changes. Their functions do nothing.

ghost use Rattle.std.specs.Prelude.{◌≡◌, ◌≢◌, ℕ, Some, option_map};
ghost use Rattle.rdb_base.specs.declared.identity.ConnId.{ConnId};
ghost use Rattle.rdb_registry.specs.declared.seat.Seat.{Seat};
ghost use Rattle.rdb_registry.specs.Seats.{Seats, seat_in, seat_of, changed, opening_in, openings};

/// A change of one record is seen in its slot alone.
pub fn a_change_is_seen_in_its_slot_alone()
    ensures here { (seats : Seats) (slot : ℕ) (change : Seat → Seat)
        → seat_in (changed seats slot change) slot ≡ option_map change (seat_in seats slot) }
    ensures elsewhere { (seats : Seats) (slot other : ℕ) (change : Seat → Seat)
        → other ≢ slot → seat_in (changed seats slot change) other ≡ seat_in seats other }
{}

/// A change that leaves whose record it is, is seen of its connection, and of no connection in another slot.
pub fn a_change_is_seen_of_its_connection_alone()
    ensures own { (seats : Seats) (c : ConnId) (change : Seat → Seat) → ((seat : Seat) → (change seat).conn ≡ seat.conn)
        → seat_of (changed seats c.slot change) c ≡ option_map change (seat_of seats c) }
    ensures others { (seats : Seats) (slot : ℕ) (c : ConnId) (change : Seat → Seat)
        → c.slot ≢ slot → seat_of (changed seats slot change) c ≡ seat_of seats c }
{}

/// A change that leaves the kind and the snapshot of the open transaction leaves the openings.
pub fn a_change_may_leave_the_openings()
    ensures { (seats : Seats) (slot : ℕ) (change : Seat → Seat) → ((seat : Seat) → opening_in (Some (change seat)) ≡ opening_in (Some seat))
        → openings (changed seats slot change) ≡ openings seats }
{}
