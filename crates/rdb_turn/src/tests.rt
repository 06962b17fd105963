//! What threads see of a turn, over a small log.

ghost use Rattle.std.specs.Prelude.{◌≡◌, ◌<◌, [], true, false};
ghost use mathlib.Core.List.{IsPrefix};
ghost use Rattle.rdb_turn.specs.Passes.{known, seen, IsPassOf, base_of};

use crate::{Pass, Turn, TurnOut};
use rdb_base::chronicle::Chronicle;
use rdb_base::list::List;
use std::alloc::Global;
use std::marker::Model;
use std::rt::Clock;
use std::sync::Wait;
use std::test::Fail;
use std::thread;
use std::thread::{Threads, join};
use std::time::Duration;

/// One entry of a client, with its number.
#[derive(Clone, Copy, Debug, PartialEq, Eq)]
struct Line {
    client: u32,
    number: u32,
}

/// The first line of client 1.
const FIRST_LINE: Line = Line {
    client: 1,
    number: 0,
};

/// Entries under a title.
#[derive(Drop)]
struct Log {
    title: u32,
    lines: List<Line>,
}

impl Chronicle for Log {
    type Entry = Line;

    type Base = u32;

    type Part = ();

    ghost use Rattle.std.specs.Prelude.{[]};

    ghost history = { λ log. log.lines };

    ghost base = { λ log. log.title };

    ghost gone = { λ _. [] };

    ghost part = { λ _ _. tt };

    ghost later = { λ _ _. Unit {0} };

    fn length(&self) -> u64 {
        self.lines.len() as u64
    }

    ghost later_same = { λ _. tt };

    ghost later_again = { λ _ _ _ _ _. tt };
}

impl Log {
    fn new(alloc: Global) -> Log
        ensures { result.lines ≡ [] }
    {
        Log {
            title: 7,
            lines: List::new(alloc),
        }
    }

    /// Adds a line, if there is memory.
    fn add(&mut self, line: Line)
        ensures title { self.new.title ≡ self.old.title }
        ensures later { IsPrefix self.old.lines self.new.lines }
    {
        let _ = self.lines.push(line);
    }

    /// Whether this client's numbers are 0, 1 and so on up to `count`.
    fn has_in_order(&self, client: u32, count: u32) -> bool {
        let mut next = 0u32;
        for line in self.lines.as_slice() {
            if line.client == client {
                if line.number != next || next == count {
                    return false;
                }
                next = next.saturating_add(1);
            }
        }
        next == count
    }
}

/// Gives a log back, to which lines were added.
fn give_back(turn: &Turn<Log>, pass: &mut Pass<Log>, log: Log)
    requires pass { IsPassOf ⟦<Log as Chronicle>⟧ turn.now pass.old }
    requires holds { (known pass.old).has_turn ≡ true }
    requires gone { (known pass.old).gone ≡ [] }
    requires title { log.title ≡ base_of ⟦<Log as Chronicle>⟧ turn.now }
    requires later { IsPrefix (seen ⟦<Log as Chronicle>⟧ pass.old) log.lines }
    ensures away { (known pass.new).has_turn ≡ false }
    ensures pass { IsPassOf ⟦<Log as Chronicle>⟧ turn.now pass.new }
{
    turn.leave(pass, log);
}

/// Naps for a millisecond, or doesn't.
fn nap<R: Clock>(rt: &R, long: bool) {
    if long {
        thread::sleep(rt, Duration::from_millis(1));
    }
}

/// Adds a line in a turn of its own, if there is memory, and naps inside the turn or doesn't.
fn write_line<R: Wait + Clock>(
    rt: &R,
    turn: &Turn<Log>,
    pass: &mut Pass<Log>,
    line: Line,
    naps: bool,
)
    requires pass { IsPassOf ⟦<Log as Chronicle>⟧ turn.now pass.old }
    requires away { (known pass.old).has_turn ≡ false }
    ensures away { (known pass.new).has_turn ≡ false }
    ensures pass { IsPassOf ⟦<Log as Chronicle>⟧ turn.now pass.new }
{
    let mut log = turn.enter(rt, pass);
    log.add(line);
    nap(rt, naps);
    give_back(turn, pass, log);
}

#[test]
fn the_front_moves_while_another_has_the_turn(rt: HostRuntime) -> Result<(), Fail> {
    let (turn, mut first) = Turn::make(rt.alloc(), Log::new(rt.alloc()))?;
    let mut second = turn.split(&mut first)?;
    let before = turn.front(&mut second);
    write_line(&rt, &turn, &mut first, FIRST_LINE, false);
    let held = turn.enter(&rt, &mut first);
    let after = turn.front(&mut second);
    let closed = turn.close(second);
    drop(held);
    assert_eq!(rt; (before, after), (0, 1));
    let Err(out) = closed else {
        panic!(rt; "a ticket was out")
    };
    assert_eq!(rt;
        out,
        TurnOut {
            ticket: 2,
            serving: 1
        }
    );
    Ok(())
}

#[test]
fn the_front_moves_while_a_third_has_the_turn(rt: HostRuntime) -> Result<(), Fail> {
    let (turn, mut first) = Turn::make(rt.alloc(), Log::new(rt.alloc()))?;
    let mut second = turn.split(&mut first)?;
    let mut third = turn.split(&mut first)?;
    write_line(&rt, &turn, &mut first, FIRST_LINE, false);
    let held = turn.enter(&rt, &mut third);
    let seen = turn.front(&mut second);
    give_back(&turn, &mut third, held);
    turn.meet(&mut first, second);
    turn.meet(&mut first, third);
    let Ok(log) = turn.close(first) else {
        panic!(rt; "no ticket was out")
    };
    assert_eq!(rt; (seen, log.length()), (1, 1));
    Ok(())
}

#[test]
fn a_pass_that_has_met_all_others_ends_the_turn(rt: HostRuntime) -> Result<(), Fail> {
    let (turn, mut first) = Turn::make(rt.alloc(), Log::new(rt.alloc()))?;
    let second = turn.split(&mut first)?;
    turn.meet(&mut first, second);
    let Ok(log) = turn.close(first) else {
        unreachable!()
    };
    assert_eq!(rt; log.length(), 0);
    Ok(())
}

#[test]
fn a_client_has_stopped_once_it_wrote_so(rt: HostRuntime) -> Result<(), Fail> {
    let (turn, mut first) = Turn::make_boarded(rt.alloc(), Log::new(rt.alloc()))?;
    let mut client = turn.split_for(&mut first, 1)?;
    let before = turn.stopped(&mut first, 1);
    turn.write_stop(&mut client);
    let after = turn.stopped(&mut first, 1);
    let other = turn.stopped(&mut first, 2);
    assert!(rt; turn.boarded());
    assert_eq!(rt; (before, after, other), (false, true, false));
    Ok(())
}

/// A client that naps does so in one of so many turns.
const TURNS_A_NAP: u32 = 400;

/// What each client writes.
#[derive(Clone, Copy)]
struct Job {
    lines: u32,
    /// Whether clients nap inside some of their turns.
    naps: bool,
}

impl Job {
    fn naps_at(self, client: u32, number: u32) -> bool {
        self.naps && number % TURNS_A_NAP == client
    }
}

/// A pass with its turn, which it does not hold.
#[derive(Drop)]
struct Writer<'a> {
    turn: &'a Turn<Log>,
    pass: Pass<Log>,
}

impl<'a> Model for Writer<'a> {
    ghost Value = { Unit {0} };

    ghost view = { λ _. tt };

    ghost invariant = { λ w. IsPassOf ⟦<Log as Chronicle>⟧ w.turn.now w.pass × ((known w.pass).has_turn ≡ false) };
}

impl<'a> Writer<'a> {
    fn line<R: Wait + Clock>(&mut self, rt: &R, line: Line, naps: bool) {
        write_line(rt, self.turn, &mut self.pass, line, naps);
    }

    fn fork(&mut self) -> Option<Writer<'a>> {
        let pass = self.turn.split(&mut self.pass).ok()?;
        Some(Writer {
            turn: self.turn,
            pass,
        })
    }
}

/// Adds a client's lines, each in a turn of its own.
fn write<R: Wait + Clock>(rt: &R, mut writer: Writer, job: Job, client: u32) {
    for number in 0..job.lines {
        writer.line(rt, Line { client, number }, job.naps_at(client, number));
    }
}

/// Lets two clients write, each in a thread of its own.
fn write_two<R: Threads + Wait + Clock + Sync>(rt: &R, mut writer: Writer, job: Job, first: u32) {
    let Some(other) = writer.fork() else {
        return;
    };
    let second = first.wrapping_add(1);
    join(
        rt,
        move || write(rt, writer, job, first),
        move || write(rt, other, job, second),
    );
}

/// Lets four clients write, each in a thread of its own.
fn write_four<R: Threads + Wait + Clock + Sync>(rt: &R, mut writer: Writer, job: Job, first: u32) {
    let Some(other) = writer.fork() else {
        return;
    };
    let second = first.wrapping_add(2);
    join(
        rt,
        move || write_two(rt, writer, job, first),
        move || write_two(rt, other, job, second),
    );
}

/// Lets eight clients write, each in a thread of its own.
fn write_eight<R: Threads + Wait + Clock + Sync>(rt: &R, mut writer: Writer, job: Job, first: u32) {
    let Some(other) = writer.fork() else {
        return;
    };
    let second = first.wrapping_add(4);
    join(
        rt,
        move || write_four(rt, writer, job, first),
        move || write_four(rt, other, job, second),
    );
}

/// Lets sixteen clients write, each in a thread of its own.
fn write_sixteen<R: Threads + Wait + Clock + Sync>(
    rt: &R,
    mut writer: Writer,
    job: Job,
    first: u32,
) {
    let Some(other) = writer.fork() else {
        return;
    };
    let second = first.wrapping_add(8);
    join(
        rt,
        move || write_eight(rt, writer, job, first),
        move || write_eight(rt, other, job, second),
    );
}

/// Whether a log has the lines of so many clients and no others, each client's in order.
fn is_complete(log: &Log, clients: u32, job: Job) -> bool {
    for client in 0..clients {
        if !log.has_in_order(client, job.lines) {
            return false;
        }
    }
    log.length() == u64::from(clients) * u64::from(job.lines)
}

#[test]
fn eight_threads_lose_no_line(rt: HostRuntime) -> Result<(), Fail> {
    let job = Job {
        lines: 1000,
        naps: false,
    };
    let (turn, mut first) = Turn::make(rt.alloc(), Log::new(rt.alloc()))?;
    let pass = turn.split(&mut first)?;
    write_eight(&rt, Writer { turn: &turn, pass }, job, 0);
    let Ok(log) = turn.close(first) else {
        panic!(rt; "no ticket was out")
    };
    assert!(rt; is_complete(&log, 8, job));
    Ok(())
}

#[test]
fn sixteen_threads_that_nap_inside_lose_no_line(rt: HostRuntime) -> Result<(), Fail> {
    let job = Job {
        lines: 2000,
        naps: true,
    };
    let (turn, mut first) = Turn::make(rt.alloc(), Log::new(rt.alloc()))?;
    let pass = turn.split(&mut first)?;
    write_sixteen(&rt, Writer { turn: &turn, pass }, job, 0);
    let Ok(log) = turn.close(first) else {
        panic!(rt; "no ticket was out")
    };
    assert!(rt; is_complete(&log, 16, job));
    Ok(())
}
