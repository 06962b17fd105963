//! A transaction's end begins: it is ended, marked, refused for a conflict, or rolled back as its client asks.

ghost use Rattle.std.specs.Prelude.{◌≡◌, ◌≢◌, ◌≤◌, [], length};
ghost use Rattle.std.specs.Bool.{OnTrue, OnFalse};
ghost use Rattle.rdb_base.specs.declared.identity.Kind.TheVariants as kind;
ghost use Rattle.rdb_base.specs.declared.identity.Phase.TheVariants as phase;
ghost use Rattle.rdb_base.specs.declared.limits.TheConstants.{MAX_OPERATIONS, MAX_PLACES};
ghost use Rattle.rdb_schema.specs.declared.schema.Schema.{Schema};
ghost use Rattle.rdb_model.specs.Fits.{AllFit};
ghost use Rattle.rdb_registry.specs.Seats.{IsHeld};
ghost use Rattle.rdb_transactions.specs.Sound.{IsSound, IsSoundBut, Has};
ghost use Rattle.rdb_transactions.specs.Moves.{Moves, KeepsSpare};
ghost use Rattle.rdb_answers.specs.declared.answer.Answer.TheVariants as answer;
ghost use Rattle.rdb_answers.specs.Callers.{IsAllowed, IsLive, Runs, FitsSchema};
ghost use Rattle.rdb_answers.specs.Ends.{CommitAnswer, MarkAnswer, RollBackAnswer, IsChecked, IsClean, IsMovedOut, refuses};

use crate::answer::{Answer, Outcome};
use rdb_base::identity::{ConnId, Kind, Manager, Phase};
use rdb_base::journal::{Cause, Story};
use rdb_cells::HasPairs;
use rdb_mvcc::{Checked, validate};
use rdb_registry::{Condemned, Seat};
use rdb_schema::schema::Schema;
use rdb_transactions::Transactions;

/// Ends a running transaction that only read, or marks one that may write: its story stands in the journal as the next commit. Where many
/// may write, it is rolled back instead where a commit after its snapshot touches it; the answer names the first such commit, and the first
/// operation that it touches. It takes no memory. The cost is that of the operations of the story, and of the commits after its snapshot.
pub fn commit(t: &mut Transactions, schema: &Schema, c: ConnId) -> Answer
    requires sound { IsSound t.old }
    requires running { IsAllowed t.old c Runs }
    requires fits { IsAllowed t.old c (FitsSchema schema.now) }
    ensures answer { CommitAnswer schema.now t.old t.new c result }
    ensures sound { IsSound t.new }
{
    match t.registry.condemned(c) {
        Some(Condemned { by, at }) => Answer::Gone { by, at },
        None => commit_live(t, schema, c),
    }
}

// The same of a connection that wasn't condemned.
fn commit_live(t: &mut Transactions, schema: &Schema, c: ConnId) -> Answer
    requires sound { IsSound t.old }
    requires live { IsLive t.old c }
    requires running { Has t.old c Runs }
    requires fits { Has t.old c (FitsSchema schema.now) }
    ensures answer { CommitAnswer schema.now t.old t.new c result }
    ensures sound { IsSound t.new }
{
    if may_write(t, c) {
        commit_writes(t, schema, c)
    } else {
        end_reads(t, c)
    }
}

// Whether a running transaction may write.
fn may_write(t: &Transactions, c: ConnId) -> bool
    requires { Has t.now c Runs }
    ensures yes { OnTrue result (Has t.now c (λ seat. seat.hand.phase ≡ phase.Running kind.ReadWrite)) }
    ensures no { OnFalse result (Has t.now c (λ seat. seat.hand.phase ≡ phase.Running kind.ReadOnly)) }
{
    t.seat(c).hand.phase == Phase::Running(Kind::ReadWrite)
}

// Ends a running transaction that only reads.
fn end_reads(t: &mut Transactions, c: ConnId) -> Answer
    requires sound { IsSound t.old }
    requires live { IsLive t.old c }
    requires reading { Has t.old c (λ seat. seat.hand.phase ≡ phase.Running kind.ReadOnly) }
    ensures answer { (schema : Schema) → CommitAnswer schema t.old t.new c result }
    ensures sound { IsSound t.new }
{
    let at = t.end_read(c);
    Answer::Ready(Outcome::Ended { at })
}

// Marks a running transaction that may write, where no later commit touches it; else it rolls back.
fn commit_writes(t: &mut Transactions, schema: &Schema, c: ConnId) -> Answer
    requires sound { IsSound t.old }
    requires live { IsLive t.old c }
    requires running { Has t.old c (λ seat. seat.hand.phase ≡ phase.Running kind.ReadWrite) }
    requires fits { Has t.old c (FitsSchema schema.now) }
    ensures answer { CommitAnswer schema.now t.old t.new c result }
    ensures sound { IsSound t.new }
{
    t.registry.sound();
    let story = t.story_of(c);
    match checked(t, schema, &story) {
        Checked::Clear => mark_story(t, c, story),
        Checked::Conflict { commit, operation } => refuse(t, c, story, commit, operation),
    }
}

// Whether a commit after a story's snapshot touches it. Under the manager of a single writer there is none.
fn checked(t: &Transactions, schema: &Schema, story: &Story) -> Checked
    requires fits { AllFit schema.now kind.ReadWrite story.now.done }
    requires few { length story.now.done ≤ MAX_OPERATIONS }
    ensures { IsChecked schema.now t.now.manager t.now.journal.entries story.now result }
{
    match t.manager {
        Manager::Mvcc => validate(schema, story, &t.journal),
        Manager::Mursiw => Checked::Clear,
    }
}

// Marks a transaction with the story that was moved out of its record. Without versions it is committed at once.
fn mark_story(t: &mut Transactions, c: ConnId, story: Story) -> Answer
    requires sound { IsSoundBut story.done t.old }
    requires moved { Has t.old c IsMovedOut }
    ensures answer { MarkAnswer t.old t.new c story result }
    ensures sound { IsSound t.new }
{
    let commit = t.journal.commits() + 1;
    t.mark(c, story);
    if has_no_version(t, c) {
        t.end_committed(c);
        Answer::Ready(Outcome::Committed { commit })
    } else {
        Answer::More
    }
}

// Whether a transaction has no version.
fn has_no_version(t: &Transactions, c: ConnId) -> bool
    requires { IsHeld t.now.registry.seats c }
    ensures yes { OnTrue result (Has t.now c (λ seat. seat.hand.own.items ≡ [])) }
    ensures no { OnFalse result (Has t.now c (λ seat. seat.hand.own.items ≢ [])) }
{
    t.seat(c).hand.own.is_empty()
}

// Rolls a transaction back that a commit touches, with the story that was moved out of its record.
fn refuse(t: &mut Transactions, c: ConnId, story: Story, commit: u64, operation: u32) -> Answer
    requires sound { IsSoundBut story.done t.old }
    requires moved { Has t.old c IsMovedOut }
    requires limit { length story.done ≤ MAX_PLACES }
    ensures answer { result ≡ answer.Conflict commit operation }
    ensures moves { Moves t.old t.new c (refuses t.old.manager story.done commit operation) [] }
    ensures spare { KeepsSpare t.old t.new }
    ensures sound { IsSound t.new }
{
    t.put_story_back(c, story);
    t.begin_roll_back(c, Cause::Conflict { commit, operation });
    Answer::Conflict { commit, operation }
}

/// Rolls a running transaction back, as its client asks: at once where there is nothing to take back or to drop. It takes no memory. Its
/// cost is constant, but for the operations of the story.
pub fn roll_back(t: &mut Transactions, c: ConnId) -> Answer
    requires sound { IsSound t.old }
    requires running { IsAllowed t.old c Runs }
    ensures answer { RollBackAnswer t.old t.new c result }
    ensures sound { IsSound t.new }
{
    match t.registry.condemned(c) {
        Some(Condemned { by, at }) => Answer::Gone { by, at },
        None => roll_back_live(t, c),
    }
}

// The same of a connection that wasn't condemned.
fn roll_back_live(t: &mut Transactions, c: ConnId) -> Answer
    requires sound { IsSound t.old }
    requires live { IsLive t.old c }
    requires running { Has t.old c Runs }
    ensures answer { RollBackAnswer t.old t.new c result }
    ensures sound { IsSound t.new }
{
    let clean = is_clean(t.seat(c));
    t.begin_roll_back(c, Cause::Asked);
    if clean {
        t.end_rolled_back(c);
        Answer::Ready(Outcome::RolledBack)
    } else {
        Answer::More
    }
}

// Whether nothing is there to take back or to drop.
fn is_clean(seat: &Seat) -> bool
    ensures yes { OnTrue result (IsClean seat.now) }
    ensures no { OnFalse result (¬ IsClean seat.now) }
{
    seat.hand.undo.len() == 0 && seat.hand.own.is_empty()
}
