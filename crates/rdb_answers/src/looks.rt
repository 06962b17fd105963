//! How a connection stands. It changes nothing.

ghost use Rattle.std.specs.Prelude.{◌≡◌, IfSome};
ghost use Rattle.rdb_registry.specs.Seats.{seat_of};
ghost use Rattle.rdb_answers.specs.Standings.{phase_of, standing_of, standing_in, phase_in, watches, HasFewOperations};

use crate::answer::Standing;
use rdb_base::identity::{ConnId, Phase};
use rdb_registry::Seat;
use rdb_transactions::{Transactions, watched};

/// What a connection is doing: Condemned where it was condemned and is there, Absent where it isn't there.
pub fn phase(t: &Transactions, c: ConnId) -> Phase
    ensures { result ≡ phase_of (seat_of t.now.registry.seats c) }
{
    match t.registry.seat(c) {
        None => Phase::Absent,
        Some(seat) => phase_in(seat),
    }
}

// What the connection of a record is doing.
fn phase_in(seat: &Seat) -> Phase
    ensures { result ≡ phase_in seat.now }
{
    match seat.condemned {
        Some(_) => Phase::Condemned,
        None => seat.hand.phase,
    }
}

/// How a connection stands, whose story has no more operations than a transaction may have, and whether it watches an event, given by its
/// class and its number there. The cost grows with the watches of the connection.
pub fn standing(t: &Transactions, c: ConnId, event: Option<(u32, u32)>) -> Standing
    requires { IfSome (seat_of t.now.registry.seats c) HasFewOperations }
    ensures { result ≡ standing_of event (seat_of t.now.registry.seats c) }
{
    match t.registry.seat(c) {
        None => Standing {
            phase: Phase::Absent,
            operations: 0,
            cause: None,
            watched: false,
        },
        Some(seat) => standing_in(seat, event),
    }
}

// How the connection of a record stands.
fn standing_in(seat: &Seat, event: Option<(u32, u32)>) -> Standing
    requires { HasFewOperations seat.now }
    ensures { result ≡ standing_in event seat.now }
{
    Standing {
        phase: phase_in(seat),
        operations: seat.hand.done.len() as u32,
        cause: seat.hand.cause,
        watched: watches(seat, event),
    }
}

// Whether the connection of a record watches an event, if one is asked about.
fn watches(seat: &Seat, event: Option<(u32, u32)>) -> bool
    ensures { result ≡ watches event seat.now }
{
    match event {
        Some((class, event)) => watched(&seat.hand.subscriptions, class, event).is_some(),
        None => false,
    }
}
