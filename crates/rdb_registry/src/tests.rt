//! Connections of a small registry, their transactions and latches, and own writes.

ghost use Rattle.std.specs.Prelude.{◌≡◌, ◌+◌, ◌^◌, ◌<◌, None, IsSomeAnd};
ghost use Rattle.std.specs.Bool.{OnTrue};
ghost use Rattle.rdb_registry.specs.Seats.{seat_of};

use crate::{Condemned, ConnectFault, OwnWrites, Registry, Seat};
use rdb_base::identity::{ConnId, Kind, TxId};
use rdb_pages::CellRef;
use std::test::Fail;

// The slot that the next connection gets, or how many are held where there is none.
fn next_slot(registry: &mut Registry) -> Result<u32, u32> {
    match registry.connect() {
        Ok(c) => Ok(c.slot),
        Err(ConnectFault::TooMany { held }) => Err(held),
        Err(ConnectFault::NoMemory) => Err(0),
    }
}

#[test]
fn a_33rd_connection_waits_for_a_free_slot(rt: HostRuntime) -> Result<(), Fail> {
    let mut registry = Registry::new(rt.alloc(), 2)?;
    for slot in 0..32 {
        assert_eq!(rt; next_slot(&mut registry), Ok(slot));
    }
    assert_eq!(rt; next_slot(&mut registry), Err(32));
    let c = ConnId { slot: 7, serial: 8 };
    assert!(rt; registry.is_held(c));
    registry.free(c);
    assert!(rt; !registry.is_held(c));
    assert!(rt; registry.at(7).is_none());
    assert_eq!(rt;
        registry.connect(),
        Ok(ConnId {
            slot: 7,
            serial: 33
        })
    );
    Ok(())
}

#[test]
fn own_writes_stand_in_order_each_once(rt: HostRuntime) -> Result<(), Fail> {
    let mut own = OwnWrites::new(rt.alloc());
    own.reserve(4)?;
    for (class, id, number) in [(1, 2, 10), (0, 9, 11), (1, 1, 12), (1, 2, 13)] {
        assert!(rt; own.room() > 0);
        own.put(class, id, CellRef { number });
    }
    let numbers: [u32; 3] = [11, 12, 13];
    assert_eq!(rt; own.len(), 3);
    for (write, number) in own.as_slice().iter().zip(numbers) {
        assert_eq!(rt; write.header.number, number);
    }
    own.remove(0, 9);
    assert_eq!(rt; own.get(0, 9), None);
    assert_eq!(rt; own.get(1, 1), Some(CellRef { number: 12 }));
    own.clear();
    assert_eq!(rt; own.room(), 4);
    Ok(())
}

// Whether nothing is open in a record, and its connection wasn't condemned.
fn is_idle(seat: &Seat) -> bool
    ensures closed { OnTrue result (seat.now.transaction ≡ None) }
    ensures count { OnTrue result (seat.now.begun + 1 < 2 ^ 64) }
    ensures live { OnTrue result (seat.now.condemned ≡ None) }
{
    seat.transaction.is_none() && seat.begun < 100 && seat.condemned.is_none()
}

// Whether a connection is held, nothing is open in its record, and it wasn't condemned.
fn may_begin(registry: &Registry, c: ConnId) -> bool
    ensures closed { OnTrue result (IsSomeAnd (seat_of registry.now.seats c) (λ seat. seat.transaction ≡ None)) }
    ensures count { OnTrue result (IsSomeAnd (seat_of registry.now.seats c) (λ seat. seat.begun + 1 < 2 ^ 64)) }
    ensures live { OnTrue result (IsSomeAnd (seat_of registry.now.seats c) (λ seat. seat.condemned ≡ None)) }
{
    match registry.seat(c) {
        Some(seat) => is_idle(seat),
        None => false,
    }
}

#[test]
fn what_is_kept_beside_the_records_follows_them(rt: HostRuntime) -> Result<(), Fail> {
    let mut registry = Registry::new(rt.alloc(), 2)?;
    let first = registry.connect()?;
    let second = registry.connect()?;
    assert!(rt; may_begin(&registry, second));
    registry.begin(second, Kind::ReadWrite, 3, 2);
    assert_eq!(rt; registry.lowest_writer(), Some(1));
    assert!(rt; may_begin(&registry, first));
    registry.begin(first, Kind::ReadOnly, 4, 3);
    assert_eq!(rt; registry.lowest_open(), Some(0));
    assert_eq!(rt; registry.least_snapshot(), Some(2));
    let tx = TxId {
        conn: first,
        number: 1,
    };
    assert_eq!(rt; registry.mark_of(tx), None);
    assert_eq!(rt; registry.classes(), 2);
    assert_eq!(rt; registry.holder(1), None);
    assert_eq!(rt; registry.spent(1, 0), 0);
    registry.spend(1, 0, 7);
    assert_eq!(rt; registry.spent(1, 0), 7);
    Ok(())
}

#[test]
fn the_condemned_are_remembered(rt: HostRuntime) -> Result<(), Fail> {
    let mut registry = Registry::new(rt.alloc(), 1)?;
    let first = registry.connect()?;
    let second = registry.connect()?;
    assert!(rt; may_begin(&registry, second));
    registry.condemn(second, first, 9);
    assert!(rt; registry.is_held(second));
    registry.free(second);
    assert_eq!(rt;
        registry.condemned(second),
        Some(Condemned { by: first, at: 9 })
    );
    assert_eq!(rt; registry.condemned(first), None);
    Ok(())
}
