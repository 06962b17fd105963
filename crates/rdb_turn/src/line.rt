//! The line of those who have no ticket yet: its numbers, and how the first one is called. It touches the words below, which may
//! hold any number. `waiting` says why no wake-up is lost.
//!
//! | Word | What it holds |
//! |---|---|
//! | 19 | the number that is given next |
//! | 20 | the number of who is first, and 1 more while it is called |
//! | 22 to 34 | the bells: number n sleeps on the one at 22 + (n / 2 mod 13) |
//!
//! Numbers go up by 2, modulo 2^64. Nobody stands in the line where words 19 and 20 are equal.
ghost use Rattle.std.specs.Prelude.{◌≡◌, ◌+◌, ◌/◌, ◌%◌};
ghost use Rattle.rdb_turn.specs.Steps.{IsAt, IsSamePlace};

use crate::bells::{announce, ring, sleep};
use crate::plays::Signal;
use crate::rule::{Board, Place};
use rdb_base::chronicle::Chronicle;
use std::sync::Wait;

/// The word with the number that is given next.
const NEXT: usize = 19;

/// The word with the number of who is first.
const FIRST: usize = 20;

/// The first of the line's bells.
const FIRST_BELL: usize = 22;

/// How many bells the line has.
const BELLS: u64 = 13;

/// From one number to the next.
const STEP: u64 = 2;

/// What is added to the number of who is first while it is called.
const CALLED: u64 = 1;

/// The bell of a number.
fn bell_of(number: u64) -> usize
    ensures { result ≡ 22 + number / 2 % 13 }
{
    FIRST_BELL + (number / STEP % BELLS) as usize
}

/// How many were called and have drawn no ticket yet: 0 or 1.
pub(crate) fn called<T: Chronicle>(board: &Board<T>) -> u64
    requires { board.now.table_id.words ≡ 35 }
{
    board.peek(FIRST) & CALLED
}

/// Takes a number at the end of the line.
pub(crate) fn stand_in_line<T: Chronicle>(board: &Board<T>, place: &mut Place<T>) -> u64
    requires table { IsAt board.now.table_id place.old }
    ensures same { IsSamePlace place.old place.new }
    ensures known { place.new.me ≡ place.old.me }
{
    board.fetch_add::<Signal>(place, NEXT, STEP)
}

/// Sleeps until a number is called.
pub(crate) fn wait_for_call<T: Chronicle, R: Wait>(
    rt: &R,
    board: &Board<T>,
    place: &mut Place<T>,
    number: u64,
)
    requires table { IsAt board.now.table_id place.old }
    ensures same { IsSamePlace place.old place.new }
    ensures known { place.new.me ≡ place.old.me }
{
    let bell = bell_of(number);
    for _ in rt.forever() {
        let announced = announce(board, place, bell);
        if board.peek(FIRST) == number | CALLED {
            return;
        }
        sleep(rt, board, bell, announced);
    }
    unreachable!()
}

/// Leaves the line, as one who was called and has drawn its ticket.
pub(crate) fn leave_line<T: Chronicle>(board: &Board<T>, place: &mut Place<T>)
    requires table { IsAt board.now.table_id place.old }
    ensures same { IsSamePlace place.old place.new }
    ensures known { place.new.me ≡ place.old.me }
{
    board.fetch_add::<Signal>(place, FIRST, STEP - CALLED);
}

/// Calls the first in the line, if somebody stands there and nobody is called.
pub(crate) fn call_first<T: Chronicle>(board: &Board<T>, place: &mut Place<T>)
    requires table { IsAt board.now.table_id place.old }
    ensures same { IsSamePlace place.old place.new }
    ensures known { place.new.me ≡ place.old.me }
{
    let first = board.peek(FIRST);
    if first & CALLED == CALLED || board.peek(NEXT) == first {
        return;
    }
    if board.compare_exchange::<Signal>(place, FIRST, first, first | CALLED) == first {
        ring(board, place, bell_of(first));
    }
}
