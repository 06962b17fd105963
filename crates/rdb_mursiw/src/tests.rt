//! Who may begin beside whom.

ghost use Rattle.std.specs.Prelude.{◌≡◌, ◌+◌, ◌^◌, ◌<◌, None, IsSomeAnd};
ghost use Rattle.std.specs.Bool.{OnTrue};
ghost use Rattle.rdb_registry.specs.Seats.{seat_of};

use crate::{Admission, admit};
use rdb_base::identity::{ConnId, Kind};
use rdb_registry::{Registry, Seat};
use std::test::Fail;

// Whether nothing is open in a record.
fn is_idle(seat: &Seat) -> bool
    ensures closed { OnTrue result (seat.now.transaction ≡ None) }
    ensures count { OnTrue result (seat.now.begun + 1 < 2 ^ 64) }
{
    seat.transaction.is_none() && seat.begun < 100
}

// Whether a connection is held, and nothing is open in its record.
fn may_begin(registry: &Registry, c: ConnId) -> bool
    ensures closed { OnTrue result (IsSomeAnd (seat_of registry.now.seats c) (λ seat. seat.transaction ≡ None)) }
    ensures count { OnTrue result (IsSomeAnd (seat_of registry.now.seats c) (λ seat. seat.begun + 1 < 2 ^ 64)) }
{
    match registry.seat(c) {
        Some(seat) => is_idle(seat),
        None => false,
    }
}

// Opens a transaction of a connection, where it may.
fn begin(registry: &mut Registry, c: ConnId, kind: Kind) {
    if may_begin(registry, c) {
        registry.begin(c, kind, 0, 0);
    }
}

#[test]
fn a_writer_is_alone_and_readers_are_not(rt: HostRuntime) -> Result<(), Fail> {
    let rows = [
        (None, Kind::ReadWrite, true),
        (None, Kind::ReadOnly, true),
        (Some(Kind::ReadOnly), Kind::ReadWrite, false),
        (Some(Kind::ReadOnly), Kind::ReadOnly, true),
        (Some(Kind::ReadWrite), Kind::ReadWrite, false),
        (Some(Kind::ReadWrite), Kind::ReadOnly, false),
    ];
    for (other, kind, goes) in rows {
        let mut registry = Registry::new(rt.alloc(), 1)?;
        let first = registry.connect()?;
        let second = registry.connect()?;
        let third = registry.connect()?;
        if let Some(other) = other {
            begin(&mut registry, second, other);
            begin(&mut registry, third, other);
        }
        let admission = if goes {
            Admission::Go
        } else {
            Admission::Busy { holder: second }
        };
        assert_eq!(rt; admit(&registry, first, kind), admission);
    }
    Ok(())
}
