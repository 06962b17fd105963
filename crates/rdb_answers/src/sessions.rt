//! A connection begins a transaction, goes, or is condemned.

ghost use Rattle.std.specs.Prelude.{◌≡◌};
ghost use Rattle.rdb_answers.specs.Callers.{IsAllowed, IsLive, IsFree, IsIdle};
ghost use Rattle.rdb_answers.specs.Begin.{BeginAnswer, AdmissionAnswer};
ghost use Rattle.rdb_answers.specs.Leave.{DisconnectAnswer, CondemnAnswer};
ghost use Rattle.rdb_transactions.specs.Sound.{IsSound, Has};

use crate::answer::{Answer, Outcome};
use rdb_base::identity::{ConnId, Kind, Manager};
use rdb_mursiw::{Admission, admit};
use rdb_registry::Condemned;
use rdb_transactions::Transactions;

/// Begins a transaction of an idle connection, which sees all commits so far. Under the manager of a single writer it is Busy where another
/// connection's transaction is in its way: for a writer any, for a reader a writer's; it names the lowest such connection. Where memory is
/// wanting nothing has changed. The cost is a walk over the connections' slots.
pub fn begin(t: &mut Transactions, c: ConnId, kind: Kind) -> Answer
    requires sound { IsSound t.old }
    requires idle { IsAllowed t.old c IsIdle }
    ensures answer { BeginAnswer t.old t.new c kind result }
    ensures sound { IsSound t.new }
{
    match t.registry.condemned(c) {
        Some(Condemned { by, at }) => Answer::Gone { by, at },
        None => begin_live(t, c, kind),
    }
}

// The same of a connection that wasn't condemned.
fn begin_live(t: &mut Transactions, c: ConnId, kind: Kind) -> Answer
    requires sound { IsSound t.old }
    requires live { IsLive t.old c }
    requires idle { Has t.old c IsIdle }
    ensures answer { BeginAnswer t.old t.new c kind result }
    ensures sound { IsSound t.new }
{
    match admission(t, c, kind) {
        Admission::Busy { holder } => Answer::Busy { holder },
        Admission::Go => begin_now(t, c, kind),
    }
}

// The same where nobody is in its way.
fn begin_now(t: &mut Transactions, c: ConnId, kind: Kind) -> Answer
    requires sound { IsSound t.old }
    requires live { IsLive t.old c }
    requires idle { Has t.old c IsIdle }
    requires free { IsFree t.old c kind }
    ensures answer { BeginAnswer t.old t.new c kind result }
    ensures sound { IsSound t.new }
{
    t.registry.sound();
    let begun = t.journal.len() as u64;
    let snapshot = t.journal.commits();
    match t.open_transaction(c, kind) {
        Ok(()) => Answer::Ready(Outcome::Begun { snapshot, begun }),
        Err(_) => Answer::NoMemory,
    }
}

// Whether a connection may begin now.
fn admission(t: &Transactions, c: ConnId, kind: Kind) -> Admission
    ensures { AdmissionAnswer t.now c kind result }
{
    match t.manager {
        Manager::Mursiw => admit(&t.registry, c, kind),
        Manager::Mvcc => Admission::Go,
    }
}

/// Closes an idle connection; its slot is free. It takes no memory, and the cost is a walk over the connections' slots.
pub fn disconnect(t: &mut Transactions, c: ConnId) -> Answer
    requires sound { IsSound t.old }
    requires idle { IsAllowed t.old c IsIdle }
    ensures answer { DisconnectAnswer t.old t.new c result }
    ensures sound { IsSound t.new }
{
    match t.registry.condemned(c) {
        Some(Condemned { by, at }) => Answer::Gone { by, at },
        None => disconnect_live(t, c),
    }
}

// The same of a connection that wasn't condemned.
fn disconnect_live(t: &mut Transactions, c: ConnId) -> Answer
    requires sound { IsSound t.old }
    requires live { IsLive t.old c }
    requires idle { Has t.old c IsIdle }
    ensures answer { DisconnectAnswer t.old t.new c result }
    ensures sound { IsSound t.new }
{
    t.close(c);
    Answer::Ready(Outcome::Closed)
}

/// Condemns a connection, at the journal's length. One that is condemned already, or isn't there, stays as it is. It takes no memory; the
/// cost grows with the list of the condemned where one of the two isn't there.
pub fn condemn(t: &mut Transactions, by: ConnId, d: ConnId) -> Answer
    requires { IsSound t.old }
    ensures answer { CondemnAnswer t.old t.new by d result }
    ensures sound { IsSound t.new }
{
    match t.registry.condemned(by) {
        Some(Condemned { by, at }) => Answer::Gone { by, at },
        None => condemn_live(t, by, d),
    }
}

// The same by a connection that wasn't condemned.
fn condemn_live(t: &mut Transactions, by: ConnId, d: ConnId) -> Answer
    requires sound { IsSound t.old }
    requires live { IsLive t.old by }
    ensures answer { CondemnAnswer t.old t.new by d result }
    ensures sound { IsSound t.new }
{
    t.condemn(d, by);
    Answer::Ready(Outcome::RolledBack)
}
