//! Whether a connection may begin a transaction, under many readers or a single writer.

ghost use Rattle.std.specs.Prelude.{◌≡◌, ℕ, false, IfSome, IfNone};
ghost use Rattle.rdb_mursiw.specs.Admission.{IsAdmission, NoneBarsBelow, bars, bars_in};
ghost use Rattle.rdb_base.specs.declared.identity.ConnId.{ConnId};

use rdb_base::identity::{ConnId, Kind};
use rdb_base::limits::MAX_CONNECTIONS;
use rdb_registry::{Registry, Seat};

/// Whether a connection may begin, or which other connection's transaction is in its way.
#[derive(Clone, Copy, Debug, PartialEq, Eq)]
pub enum Admission {
    Go,
    Busy { holder: ConnId },
}

/// Whether a connection may begin a transaction of a kind: a writer where no other connection has an open transaction, and a reader where
/// no other has one that may write. Else it names the connection in the lowest slot that is in the way. It takes no memory. The cost is
/// constant, but where the connection itself has an open transaction: then the slots above its own are looked at.
pub fn admit(registry: &Registry, c: ConnId, kind: Kind) -> Admission
    ensures { IsAdmission registry.now.seats c kind result }
{
    match lowest_in_the_way(registry, kind) {
        None => Admission::Go,
        Some(slot) => first_bar(registry, c, kind, slot),
    }
}

// The lowest slot whose transaction is in the way of one of the kind.
fn lowest_in_the_way(registry: &Registry, kind: Kind) -> Option<u32>
    ensures found { IfSome result (λ slot. (c : ConnId) → NoneBarsBelow registry.now.seats c kind slot) }
    ensures none { IfNone result ((c : ConnId) (slot : ℕ) → bars_in registry.now.seats c kind slot ≡ false) }
{
    match kind {
        Kind::ReadWrite => registry.lowest_open(),
        Kind::ReadOnly => registry.lowest_writer(),
    }
}

// The admission, where no connection in a slot below this one is in the way.
fn first_bar(registry: &Registry, c: ConnId, kind: Kind, from: u32) -> Admission
    requires { NoneBarsBelow registry.now.seats c kind from }
    ensures { IsAdmission registry.now.seats c kind result }
{
    registry.sound();
    for slot in from..MAX_CONNECTIONS as u32 {
        if let Some(seat) = registry.at(slot)
            && bars(seat, c, kind)
        {
            return Admission::Busy { holder: seat.conn };
        }
    }
    Admission::Go
}

// Whether a record is that of another connection whose open transaction keeps one of the kind from beginning.
fn bars(seat: &Seat, c: ConnId, kind: Kind) -> bool
    ensures { result ≡ bars c kind seat.now }
{
    match seat.transaction {
        Some(transaction) => seat.conn != c
            && (kind == Kind::ReadWrite || transaction.kind == Kind::ReadWrite),
        None => false,
    }
}
