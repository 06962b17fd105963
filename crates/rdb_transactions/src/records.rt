//! Changes of one record, each once. They touch that record alone, and take no memory.

ghost use Rattle.std.specs.Prelude.{◌≡◌, ◌<◌, ◌≤◌, length, IsSome, IsSomeAnd, OnOk, OnErr};
ghost use Rattle.rdb_base.specs.declared.limits.TheConstants.{MAX_PLACES};
ghost use Rattle.rdb_registry.specs.Seats.{seat_of, IsHeld};
ghost use Rattle.rdb_transactions.specs.Hands.{in_phase, rolling_back, given_up, to_be_stamped, without_story, with_story, noted, with_undo, at_rest, with_watch, with_watch_at};
ghost use Rattle.rdb_transactions.specs.Records.{edited, on_hand, unlatched, closed};

use rdb_base::identity::{ConnId, Manager, Phase};
use rdb_base::journal::{Cause, Done};
use rdb_base::list::NoMemory;
use rdb_base::operation::{Op, Reply};
use rdb_base::ready::Ready;
use rdb_cells::Undo;
use rdb_registry::{Hand, Registry, Subscription};
use std::alloc::Global;
use std::mem;

/// Goes over to a phase.
pub(crate) fn enter_phase(registry: &mut Registry, c: ConnId, phase: Phase)
    requires { IsHeld registry.old.seats c }
    ensures { registry.new ≡ edited registry.old c.slot (on_hand (in_phase phase)) }
{
    registry.seat_mut(c).phase = phase;
}

// A roll-back begins in a hand.
fn start_roll_back(hand: &mut Hand, cause: Cause)
    ensures { hand.new ≡ rolling_back cause hand.old }
{
    hand.phase = Phase::RollingBack;
    hand.cause = Some(cause);
}

/// Begins a roll-back, for a cause.
pub(crate) fn roll_back_for(registry: &mut Registry, c: ConnId, cause: Cause)
    requires { IsHeld registry.old.seats c }
    ensures { registry.new ≡ edited registry.old c.slot (on_hand (rolling_back cause)) }
{
    start_roll_back(registry.seat_mut(c), cause);
}

// Gives up the operation in work of a hand, and its plan.
fn drop_work(hand: &mut Hand)
    ensures { hand.new ≡ given_up hand.old }
{
    hand.work = None;
    hand.plan.clear();
}

/// Gives up an operation in work, and what is left of a plan.
pub(crate) fn give_up_work(registry: &mut Registry, c: ConnId)
    requires { IsHeld registry.old.seats c }
    ensures { registry.new ≡ edited registry.old c.slot (on_hand given_up) }
{
    drop_work(registry.seat_mut(c));
}

// Nothing of a hand is taken back any more.
fn start_stamping(hand: &mut Hand)
    ensures { hand.new ≡ to_be_stamped hand.old }
{
    hand.undo.clear();
    hand.phase = Phase::Stamping;
}

/// Begins to stamp: nothing is taken back any more. The cost grows with what is logged.
pub(crate) fn stamp_from_now(registry: &mut Registry, c: ConnId)
    requires { IsHeld registry.old.seats c }
    ensures { registry.new ≡ edited registry.old c.slot (on_hand to_be_stamped) }
{
    start_stamping(registry.seat_mut(c));
}

// Moves the operations of a hand's story out.
fn take_done(hand: &mut Hand, alloc: Global) -> Done
    ensures hand { hand.new ≡ without_story hand.old }
    ensures done { result ≡ hand.old.done.items }
    ensures limit { length result ≤ MAX_PLACES }
{
    mem::replace(&mut hand.done, Ready::new(alloc)).into_list()
}

/// Moves the operations of a story out of its record.
pub(crate) fn take_story(registry: &mut Registry, c: ConnId, alloc: Global) -> Done
    requires { IsHeld registry.old.seats c }
    ensures registry { registry.new ≡ edited registry.old c.slot (on_hand without_story) }
    ensures done { IsSomeAnd (seat_of registry.old.seats c) (λ seat. result ≡ seat.hand.done.items) }
    ensures limit { length result ≤ MAX_PLACES }
{
    take_done(registry.seat_mut(c), alloc)
}

/// Moves the operations of a story back into its record.
pub(crate) fn put_story(registry: &mut Registry, c: ConnId, done: Done)
    requires held { IsHeld registry.old.seats c }
    requires limit { length done ≤ MAX_PLACES }
    ensures { registry.new ≡ edited registry.old c.slot (on_hand (with_story done)) }
{
    registry.seat_mut(c).done = Ready::from_list(done);
}

/// Exchanges the undo record of a record for another one.
pub(crate) fn exchange_undo(registry: &mut Registry, c: ConnId, other: &mut Undo)
    requires { IsHeld registry.old.seats c }
    ensures registry { registry.new ≡ edited registry.old c.slot (on_hand (with_undo other.old)) }
    ensures other { IsSomeAnd (seat_of registry.old.seats c) (λ seat. other.new ≡ seat.hand.undo) }
{
    mem::swap(&mut registry.seat_mut(c).undo, other);
}

// Lays down what a hand has of its transaction.
fn rest(hand: &mut Hand)
    ensures { hand.new ≡ at_rest hand.old }
{
    hand.phase = Phase::Idle;
    hand.cause = None;
    hand.own.clear();
}

/// Is idle again: lays down why it rolled back, and what it wrote.
pub(crate) fn lay_down(registry: &mut Registry, c: ConnId)
    requires { IsHeld registry.old.seats c }
    ensures { registry.new ≡ edited registry.old c.slot (on_hand at_rest) }
{
    rest(registry.seat_mut(c));
}

// Appends an operation with its reply to the story of a hand.
fn append_to(hand: &mut Hand, op: Op, reply: Reply) -> Result<(), NoMemory>
    ensures ok { OnOk result (hand.new ≡ noted op reply hand.old) }
    ensures err { OnErr result (hand.new ≡ hand.old) }
{
    if hand.done.room() == 0 {
        hand.done.reserve(1)?;
    }
    hand.done.append((op, reply));
    Ok(())
}

/// Appends an operation with its reply to the story of a record. The only error is want of memory; then nothing has changed.
pub(crate) fn append_done(
    registry: &mut Registry,
    c: ConnId,
    op: Op,
    reply: Reply,
) -> Result<(), NoMemory>
    requires { IsHeld registry.old.seats c }
    ensures ok { OnOk result (registry.new ≡ edited registry.old c.slot (on_hand (noted op reply))) }
    ensures err { OnErr result (registry.new ≡ registry.old) }
{
    append_to(registry.seat_mut(c), op, reply)
}

/// Gives up the latches that a record has under the manager of many writers.
pub(crate) fn leave_class(registry: &mut Registry, c: ConnId, manager: Manager)
    requires { IsHeld registry.old.seats c }
    ensures { registry.new ≡ edited registry.old c.slot (unlatched manager) }
{
    match manager {
        Manager::Mvcc => registry.release_latches(c),
        Manager::Mursiw => (),
    }
}

/// Closes the open transaction of a record: its snapshot, its mark and its latches are gone.
pub(crate) fn close_in(registry: &mut Registry, c: ConnId)
    requires { IsSomeAnd (seat_of registry.old.seats c) (λ seat. IsSome seat.transaction) }
    ensures { registry.new ≡ edited registry.old c.slot closed }
{
    registry.end(c);
    registry.release_latches(c);
    lay_down(registry, c);
}

// Appends a watch to those of a hand.
fn push_to(hand: &mut Hand, watch: Subscription) -> Result<(), NoMemory>
    ensures ok { OnOk result (hand.new ≡ with_watch watch hand.old) }
    ensures err { OnErr result (hand.new ≡ hand.old) }
{
    hand.subscriptions.push(watch)
}

/// Watches one event more. The only error is want of memory; then nothing has changed.
pub(crate) fn push_watch(
    registry: &mut Registry,
    c: ConnId,
    watch: Subscription,
) -> Result<(), NoMemory>
    requires { IsHeld registry.old.seats c }
    ensures ok { OnOk result (registry.new ≡ edited registry.old c.slot (on_hand (with_watch watch))) }
    ensures err { OnErr result (registry.new ≡ registry.old) }
{
    push_to(registry.seat_mut(c), watch)
}

// Moves the watch at a place of a hand.
fn set_in(hand: &mut Hand, place: usize, watch: Subscription)
    requires { place < length hand.old.subscriptions }
    ensures { hand.new ≡ with_watch_at place watch hand.old }
{
    hand.subscriptions.set(place, watch);
}

/// Moves the watch at a place among those of a record.
pub(crate) fn set_watch(registry: &mut Registry, c: ConnId, place: usize, watch: Subscription)
    requires { IsSomeAnd (seat_of registry.old.seats c) (λ seat. place < length seat.hand.subscriptions) }
    ensures { registry.new ≡ edited registry.old c.slot (on_hand (with_watch_at place watch)) }
{
    set_in(registry.seat_mut(c), place, watch);
}
