//! A connection comes, begins a transaction, goes, or is condemned. It touches no cell.

ghost use Rattle.std.specs.Prelude.{◌≡◌, ℕ, Err, IfOk, OnOk, OnErr};
ghost use Rattle.rdb_answers.specs.Begin.{BeginAnswer};
ghost use Rattle.rdb_answers.specs.Callers.{IsAllowed, IsIdle};
ghost use Rattle.rdb_answers.specs.Leave.{DisconnectAnswer, CondemnAnswer};
ghost use Rattle.rdb_core.specs.Calls.{KeepsCells, aimed_by_condemning};
ghost use Rattle.rdb_registry.specs.declared.fault.ConnectFault.{ConnectFault};
ghost use Rattle.rdb_registry.specs.Seats.{slot_count, AllHeld};
ghost use Rattle.rdb_transactions.specs.Moves.{Comes, IsSame};
ghost use Rattle.rdb_steps.specs.Lists.{the_settled, the_aimed};
ghost use Rattle.rdb_steps.specs.States.{IsKeptSomehow, IsWhole};
ghost use Rattle.rdb_steps.specs.Steps.{KeepsAs, seat_at};

use rdb_answers::Answer;
use rdb_base::identity::{ConnId, Kind};
use rdb_pages::Pages;
use rdb_registry::ConnectFault;
use rdb_steps::State;

/// Connects: the lowest free slot, with a serial that was never used, and nothing in hand. `TooMany` comes only where every slot is held;
/// where memory is wanting, or every slot is held, nothing has changed. The cost is a walk over the connections' slots.
pub fn connect<P: Pages>(state: &mut State<P>) -> Result<ConnId, ConnectFault>
    requires whole { IsWhole state.old }
    requires kept { IsKeptSomehow state.old }
    ensures ok { IfOk result (Comes state.old.transactions state.new.transactions) }
    ensures full { AllHeld state.old.transactions.registry.seats → OnOk result ⊥ }
    ensures too_many { (held : ℕ) → result ≡ Err (ConnectFault.TooMany held) →
        (held ≡ slot_count) × AllHeld state.old.transactions.registry.seats }
    ensures err { OnErr result (IsSame state.old.transactions state.new.transactions) }
    ensures kept { KeepsAs state.old state.new the_settled the_aimed }
    ensures whole { IsWhole state.new }
    ensures cells { KeepsCells state.old state.new }
{
    state.transactions.connect()
}

/// Begins a transaction of an idle connection, which sees all commits so far. Under the manager of a single writer it is Busy where another
/// connection's transaction is in its way: for a writer any, for a reader a writer's; it names the lowest such connection. Where memory is
/// wanting nothing has changed. The cost is a walk over the connections' slots.
pub fn begin<P: Pages>(state: &mut State<P>, c: ConnId, kind: Kind) -> Answer
    requires whole { IsWhole state.old }
    requires kept { IsKeptSomehow state.old }
    requires idle { IsAllowed state.old.transactions c IsIdle }
    ensures answer { BeginAnswer state.old.transactions state.new.transactions c kind result }
    ensures kept { KeepsAs state.old state.new the_settled the_aimed }
    ensures whole { IsWhole state.new }
    ensures cells { KeepsCells state.old state.new }
{
    state.transactions.registry.sound();
    rdb_answers::begin(&mut state.transactions, c, kind)
}

/// Closes an idle connection; its slot is free. It takes no memory, and the cost is a walk over the connections' slots.
pub fn disconnect<P: Pages>(state: &mut State<P>, c: ConnId) -> Answer
    requires whole { IsWhole state.old }
    requires kept { IsKeptSomehow state.old }
    requires idle { IsAllowed state.old.transactions c IsIdle }
    ensures answer { DisconnectAnswer state.old.transactions state.new.transactions c result }
    ensures kept { KeepsAs state.old state.new the_settled the_aimed }
    ensures whole { IsWhole state.new }
    ensures cells { KeepsCells state.old state.new }
{
    state.transactions.registry.sound();
    rdb_answers::disconnect(&mut state.transactions, c)
}

/// Condemns a connection, at the journal's length. One that is condemned already, or isn't there, stays as it is. What it aimed at is no
/// longer spoken of, but where it drops a version. It takes no memory; the cost grows with the list of the condemned where one of the two
/// isn't there.
pub fn condemn<P: Pages>(state: &mut State<P>, by: ConnId, d: ConnId) -> Answer
    requires whole { IsWhole state.old }
    requires kept { IsKeptSomehow state.old }
    ensures answer { CondemnAnswer state.old.transactions state.new.transactions by d result }
    ensures kept { KeepsAs state.old state.new the_settled (aimed_by_condemning result (seat_at state.old d)) }
    ensures whole { IsWhole state.new }
    ensures cells { KeepsCells state.old state.new }
{
    state.transactions.registry.sound();
    rdb_answers::condemn(&mut state.transactions, by, d)
}
