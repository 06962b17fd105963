//! A running transaction is committed, or rolled back, as its client asks. It touches no cell.

ghost use Rattle.rdb_answers.specs.Callers.{FitsSchema, IsAllowed, Runs};
ghost use Rattle.rdb_answers.specs.Ends.{CommitAnswer, RollBackAnswer};
ghost use Rattle.rdb_core.specs.Calls.{KeepsCells, aimed_by_committing, aimed_by_rolling_back, settled_by_committing};
ghost use Rattle.rdb_steps.specs.Lists.{the_settled};
ghost use Rattle.rdb_steps.specs.States.{IsKeptSomehow, IsWhole};
ghost use Rattle.rdb_steps.specs.Steps.{KeepsAs, seat_at};

use rdb_answers::Answer;
use rdb_base::identity::ConnId;
use rdb_pages::Pages;
use rdb_steps::State;

/// Ends a running transaction that only read, or marks one that may write: its story stands in the journal as the next commit, and what it
/// aimed at is settled. Where many may write, it is rolled back instead where a commit after its snapshot touches it; the answer names the
/// first such commit, and the first operation that it touches. It takes no memory. The cost is that of the operations of the story, and of
/// the commits after its snapshot.
pub fn commit<P: Pages>(state: &mut State<P>, c: ConnId) -> Answer
    requires whole { IsWhole state.old }
    requires kept { IsKeptSomehow state.old }
    requires running { IsAllowed state.old.transactions c Runs }
    requires fits { IsAllowed state.old.transactions c (FitsSchema state.old.schema) }
    ensures answer { CommitAnswer state.old.schema state.old.transactions state.new.transactions c result }
    ensures kept { KeepsAs state.old state.new (settled_by_committing result (seat_at state.old c))
        (aimed_by_committing result (seat_at state.old c)) }
    ensures whole { IsWhole state.new }
    ensures cells { KeepsCells state.old state.new }
{
    state.transactions.registry.sound();
    rdb_answers::commit(&mut state.transactions, &state.schema, c)
}

/// Rolls a running transaction back, as its client asks: at once where there is nothing to take back or to drop. What it aimed at is no
/// longer spoken of. It takes no memory. Its cost is constant, but for the operations of the story.
pub fn roll_back<P: Pages>(state: &mut State<P>, c: ConnId) -> Answer
    requires whole { IsWhole state.old }
    requires kept { IsKeptSomehow state.old }
    requires running { IsAllowed state.old.transactions c Runs }
    ensures answer { RollBackAnswer state.old.transactions state.new.transactions c result }
    ensures kept { KeepsAs state.old state.new the_settled (aimed_by_rolling_back result (seat_at state.old c)) }
    ensures whole { IsWhole state.new }
    ensures cells { KeepsCells state.old state.new }
{
    state.transactions.registry.sound();
    rdb_answers::roll_back(&mut state.transactions, c)
}
