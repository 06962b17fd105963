//! Bells: words on which threads sleep until somebody rings. It touches the words 21 to 34, which may hold any number.
//! A bell is odd while a thread sleeps on it, or is about to. Who rings it adds 1, which makes it even, and wakes all that sleep on it.
ghost use Rattle.std.specs.Prelude.{◌≡◌, ◌≤◌, ◌<◌};
ghost use Rattle.rdb_turn.specs.Steps.{IsAt, IsSamePlace};

use crate::plays::Signal;
use crate::rule::{Board, Place};
use rdb_base::chronicle::Chronicle;
use std::sync::Wait;

/// The lowest bit of a bell: somebody sleeps there, or is about to.
const ASLEEP: u64 = 1;

/// Says on a bell that a thread is about to sleep there, and answers what the bell then holds.
pub(crate) fn announce<T: Chronicle>(board: &Board<T>, place: &mut Place<T>, bell: usize) -> u64
    requires table { IsAt board.now.table_id place.old }
    requires bell { (19 ≤ bell) × (bell < 35) }
    ensures same { IsSamePlace place.old place.new }
    ensures known { place.new.me ≡ place.old.me }
{
    board.fetch_or::<Signal>(place, bell, ASLEEP) | ASLEEP
}

/// Sleeps until a bell holds another number than what was announced, or wakes for no reason.
pub(crate) fn sleep<T: Chronicle, R: Wait>(rt: &R, board: &Board<T>, bell: usize, announced: u64)
    requires words { board.now.table_id.words ≡ 35 }
    requires bell { bell < 35 }
{
    board.park(rt, bell, (announced & 0xffff_ffff) as u32);
}

/// Wakes those who sleep on a bell, and says whether anybody did or was about to.
pub(crate) fn ring<T: Chronicle>(board: &Board<T>, place: &mut Place<T>, bell: usize) -> bool
    requires table { IsAt board.now.table_id place.old }
    requires bell { (19 ≤ bell) × (bell < 35) }
    ensures same { IsSamePlace place.old place.new }
    ensures known { place.new.me ≡ place.old.me }
{
    if board.peek(bell) & ASLEEP != ASLEEP {
        return false;
    }
    board.fetch_add::<Signal>(place, bell, 1);
    board.wake_all(bell);
    true
}
