//! A connection watches an event, and asks for the next one. It touches no cell.

ghost use Rattle.std.specs.Prelude.{IsSome};
ghost use Rattle.rdb_answers.specs.Callers.{IsAllowed, IsIdle};
ghost use Rattle.rdb_answers.specs.Watching.{PollAnswer, WatchAnswer, WatchesEvent};
ghost use Rattle.rdb_core.specs.Calls.{KeepsCells};
ghost use Rattle.rdb_model.specs.Events.{event_kind};
ghost use Rattle.rdb_steps.specs.Lists.{the_settled, the_aimed};
ghost use Rattle.rdb_steps.specs.States.{IsKeptSomehow, IsWhole};
ghost use Rattle.rdb_steps.specs.Steps.{KeepsAs};

use rdb_answers::Answer;
use rdb_base::identity::ConnId;
use rdb_pages::Pages;
use rdb_steps::State;

/// Watches an event of a class, which an idle connection doesn't watch yet, behind all events of the commits so far. Where memory is
/// wanting nothing has changed. The cost is constant, spread over many calls.
pub fn watch<P: Pages>(state: &mut State<P>, c: ConnId, class: u32, event: u32) -> Answer
    requires whole { IsWhole state.old }
    requires kept { IsKeptSomehow state.old }
    requires idle { IsAllowed state.old.transactions c IsIdle }
    ensures answer { WatchAnswer state.old.transactions state.new.transactions c class event result }
    ensures kept { KeepsAs state.old state.new the_settled the_aimed }
    ensures whole { IsWhole state.new }
    ensures cells { KeepsCells state.old state.new }
{
    rdb_answers::watch(&mut state.transactions, c, class, event)
}

/// Tells an idle connection the first event behind the place of its watch, and moves the watch there; or that none is left of all commits.
/// It takes no memory. The cost grows with the connection's watches, and with the commits from the watch's place on.
pub fn poll<P: Pages>(state: &mut State<P>, c: ConnId, class: u32, event: u32) -> Answer
    requires whole { IsWhole state.old }
    requires kept { IsKeptSomehow state.old }
    requires idle { IsAllowed state.old.transactions c IsIdle }
    requires watched { IsAllowed state.old.transactions c (WatchesEvent class event) }
    requires event { IsSome (event_kind state.old.schema class event) }
    ensures answer { PollAnswer state.old.schema state.old.transactions state.new.transactions c class event result }
    ensures kept { KeepsAs state.old state.new the_settled the_aimed }
    ensures whole { IsWhole state.new }
    ensures cells { KeepsCells state.old state.new }
{
    rdb_answers::poll(&mut state.transactions, &state.schema, c, class, event)
}
