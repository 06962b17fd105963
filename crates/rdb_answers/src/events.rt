//! Events are watched, and told one by one.

ghost use Rattle.std.specs.Prelude.{IsSome};
ghost use Rattle.rdb_model.specs.Events.{event_kind};
ghost use Rattle.rdb_transactions.specs.Sound.{IsSound, Has};
ghost use Rattle.rdb_transactions.specs.Hands.{watch_of};
ghost use Rattle.rdb_answers.specs.Callers.{IsAllowed, IsLive, IsIdle};
ghost use Rattle.rdb_answers.specs.Watching.{WatchAnswer, PollAnswer, WatchesEvent, IsWatchAmong};

use crate::answer::{Answer, Outcome};
use rdb_base::identity::{ConnId, EventPlace};
use rdb_events::next;
use rdb_history::watches::watch_place;
use rdb_registry::{Condemned, Subscription, Subscriptions};
use rdb_schema::schema::Schema;
use rdb_transactions::{Transactions, watched};

/// Watches an event of a class, which an idle connection doesn't watch yet, behind all events of the commits so far. Where memory is
/// wanting nothing has changed. The cost is constant, spread over many calls.
pub fn watch(t: &mut Transactions, c: ConnId, class: u32, event: u32) -> Answer
    requires sound { IsSound t.old }
    requires idle { IsAllowed t.old c IsIdle }
    ensures answer { WatchAnswer t.old t.new c class event result }
    ensures sound { IsSound t.new }
{
    match t.registry.condemned(c) {
        Some(Condemned { by, at }) => Answer::Gone { by, at },
        None => watch_live(t, c, class, event),
    }
}

// The same of a connection that wasn't condemned.
fn watch_live(t: &mut Transactions, c: ConnId, class: u32, event: u32) -> Answer
    requires sound { IsSound t.old }
    requires live { IsLive t.old c }
    requires idle { Has t.old c IsIdle }
    ensures answer { WatchAnswer t.old t.new c class event result }
    ensures sound { IsSound t.new }
{
    let at = t.journal.commits();
    let subscription = Subscription {
        class,
        event,
        place: watch_place(at),
    };
    match t.add_watch(c, subscription) {
        Ok(()) => Answer::Ready(Outcome::Watching { at }),
        Err(_) => Answer::NoMemory,
    }
}

/// Tells an idle connection the first event behind the place of its watch, and moves the watch there; or that none is left of all commits.
/// It takes no memory. The cost grows with the connection's watches, and with the commits from the watch's place on.
pub fn poll(t: &mut Transactions, schema: &Schema, c: ConnId, class: u32, event: u32) -> Answer
    requires sound { IsSound t.old }
    requires idle { IsAllowed t.old c IsIdle }
    requires watched { IsAllowed t.old c (WatchesEvent class event) }
    requires event { IsSome (event_kind schema.now class event) }
    ensures answer { PollAnswer schema.now t.old t.new c class event result }
    ensures sound { IsSound t.new }
{
    match t.registry.condemned(c) {
        Some(Condemned { by, at }) => Answer::Gone { by, at },
        None => poll_live(t, schema, c, class, event),
    }
}

// The same of a connection that wasn't condemned.
fn poll_live(t: &mut Transactions, schema: &Schema, c: ConnId, class: u32, event: u32) -> Answer
    requires sound { IsSound t.old }
    requires live { IsLive t.old c }
    requires idle { Has t.old c IsIdle }
    requires watched { Has t.old c (WatchesEvent class event) }
    requires event { IsSome (event_kind schema.now class event) }
    ensures answer { PollAnswer schema.now t.old t.new c class event result }
    ensures sound { IsSound t.new }
{
    let (number, place) = place_of_watch(t, c, class, event);
    match next(schema, class, event, place, &t.journal) {
        Some(found) => {
            let told = Subscription {
                class,
                event,
                place: EventPlace {
                    commit: found.commit,
                    id: found.id,
                },
            };
            t.move_watch(c, number, told);
            Answer::Ready(Outcome::Event {
                commit: found.commit,
                id: found.id,
            })
        }
        None => {
            let at = t.journal.commits();
            Answer::Ready(Outcome::NoEvent { at })
        }
    }
}

// The number of a connection's watch of an event, from 0, and the place where it stands.
fn place_of_watch(t: &Transactions, c: ConnId, class: u32, event: u32) -> (usize, EventPlace)
    requires { Has t.now c (WatchesEvent class event) }
    ensures { Has t.now c (λ seat. IsWatchAmong class event seat.hand.subscriptions result.0 result.1) }
{
    watch_in(&t.seat(c).hand.subscriptions, class, event)
}

// The same among the watches of a connection.
fn watch_in(watches: &Subscriptions, class: u32, event: u32) -> (usize, EventPlace)
    requires { IsSome (watch_of class event watches.now) }
    ensures { IsWatchAmong class event watches.now result.0 result.1 }
{
    match watched(watches, class, event) {
        Some(number) => (number, watches.at(number).place),
        None => unreachable!(),
    }
}
