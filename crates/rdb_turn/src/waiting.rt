//! How a thread waits for its turn, and how it is woken. It reads all words and writes those from 19 on; the look that finds
//! the own ticket served takes the slot.
//!
//! At most three tickets are out (or a few more, where threads draw at the same moment): that of the thread whose turn it is,
//! the next one and the one behind. The threads with those two look without sleep, and only for a while. All other threads
//! sleep: those with a ticket on the ticket bell, word 21, and those without one in the line, where each has a bell.
//! Tickets are served in the order in which they were drawn, and the line is called in the order of its numbers.
//!
//! Who leaves its turn serves the next ticket (word 1), and wakes those who sleep with a ticket. It calls the first in the line
//! where fewer than two tickets are out, so that one more can wait awake; where somebody slept with a ticket, since the turn
//! was long; and at each 16th ticket, so that the line goes on while others take turns without a pause. Who is called counts
//! like a ticket until it has drawn its own.
//!
//! # No wake-up is lost
//!
//! All steps on words have one order. A thread that waits for a fact to become true, and sleeps on a bell, takes these steps:
//! 1. It makes the bell odd (`announce`).
//! 2. It looks whether the fact is true.
//! 3. If it is not, the thread sleeps, but only while the bell is as step 1 left it (`sleep`). Awake again, it starts anew.
//!
//! A thread that makes the fact true takes these:
//! 4. It makes it true.
//! 5. It reads the bell. If that is odd, it adds 1 and then wakes all who sleep there (`ring`).
//!
//! Where step 2 didn't find the fact, step 4 came after it, so step 5 comes after step 1. Nothing but a ring makes a bell even.
//! So either step 5 finds the bell odd and rings it, or it was rung since step 1. Both times it changes after step 1, and who
//! sleeps on it is woken after the change: the thread doesn't fall asleep, or is woken. (Step 3 compares the low 32 bits, which
//! come round only after 2^32 steps on one bell.)
//!
//! **With a ticket**, the fact is that word 1 is the own ticket. `release` makes it true, and `wake` takes step 5, unless it finds
//! in word 0 that no ticket from the next one on is out. That ticket is then drawn later, and its first look finds it served.
//!
//! **In the line**, the fact for number n is that word 20 is n + 1. `call_first` makes it true and takes step 5. The fact stays
//! until the thread itself, which has drawn its ticket by then, adds 1.
//!
//! **The line is called as long as turns end.** While somebody stands in the line, one of these holds:
//! - (a) Somebody is called: word 20 is odd. It draws its ticket before it makes that word even, and then (b) holds.
//! - (b) A ticket is drawn whose thread has not yet looked at the line in its `wake`.
//! - (c) Somebody has taken a number and not yet looked for room after it.
//!
//! Who looks for room at (c) reads words 1, 0 and 20 in this order. If it finds room, it calls the first: (a). If it finds
//! somebody called: (a). Else word 0 is past what word 1 was: that ticket had not been left when word 1 was read, so its thread
//! looks at the line after the number was taken: (b). Who looks at the line at (b) served the next ticket before. If one from
//! that on is out, (b) holds for it. If none is, it calls the first: (a). Or it finds the line empty: who takes a number later
//! is at (c). `call_first` does nothing where somebody is called, where the line is empty, or where word 20 changes meanwhile,
//! which only a call or one who was called does: (a) or (b).
//!
//! No proof claims that a thread is woken, or that one gets on.
ghost use Rattle.std.specs.Prelude.{◌≡◌, ◌<◌, ℕ, ◌%◌, ◌^◌, true, false};
ghost use Rattle.rdb_turn.specs.declared.view.Stand.TheVariants.{Away, Waits};
ghost use Rattle.rdb_turn.specs.Steps.{IsAt, IsSamePlace, Draws, Enters};

use crate::bells::{announce, ring, sleep};
use crate::line::{call_first, called, leave_line, stand_in_line, wait_for_call};
use crate::rule::{Board, Place};
use crate::steps::{SERVING, TICKET, draw, look};
use rdb_base::chronicle::Chronicle;
use std::hint::spin_loop;
use std::sync::Wait;

/// The bell of those who have a ticket.
const TICKET_BELL: usize = 21;

/// How many of those who wait look without sleep: who is next, and the one behind.
const AWAKE: u64 = 2;

/// Looks after which a thread sleeps.
const LOOKS: u32 = 1000;

/// The first in the line is called at each ticket that is a multiple of this, whoever else has a ticket.
const TURNS_A_CALL: u64 = 16;

/// Whether a ticket may be drawn at once: at most two are out, with who is called. Word 1 is read before word 0.
fn has_room<T: Chronicle>(board: &Board<T>) -> bool
    requires { board.now.table_id.words ≡ 35 }
{
    let serving = board.peek(SERVING);
    let out = board.peek(TICKET).wrapping_sub(serving);
    out.wrapping_add(called(board)) <= AWAKE
}

/// Draws a ticket: at once where there is room, else as one who is called from the line.
pub(crate) fn get_ticket<T: Chronicle, R: Wait>(
    rt: &R,
    board: &Board<T>,
    place: &mut Place<T>,
) -> u64
    requires table { IsAt board.now.table_id place.old }
    requires away { (place.old.me.0.stand ≡ Away) × (0 < place.old.me.0.shares) }
    ensures same { IsSamePlace place.old place.new }
    ensures drawn { Draws place.old.me result place.new.me }
{
    if has_room(board) {
        return draw(board, place);
    }
    let number = stand_in_line(board, place);
    if has_room(board) {
        call_first(board, place);
    }
    wait_for_call(rt, board, place, number);
    let ticket = draw(board, place);
    leave_line(board, place);
    ticket
}

/// Waits until a ticket is served, and takes the slot.
pub(crate) fn wait_for<T: Chronicle, R: Wait>(
    rt: &R,
    board: &Board<T>,
    place: &mut Place<T>,
    ticket: u64,
)
    requires table { IsAt board.now.table_id place.old }
    requires waits { (n : ℕ) × (place.old.me.0.stand ≡ Waits n) × (n % 2 ^ 64 ≡ ticket) }
    ensures same { IsSamePlace place.old place.new }
    ensures enters { (n : ℕ) × (n % 2 ^ 64 ≡ ticket) × Enters T.Chronicle place.old.me n place.new.me }
{
    for _ in rt.forever() {
        if look_awhile(board, place, ticket) {
            return;
        }
        let announced = announce(board, place, TICKET_BELL);
        if look(board, place) == ticket {
            return;
        }
        sleep(rt, board, TICKET_BELL, announced);
    }
    unreachable!()
}

/// Looks again and again whether a ticket is served, and takes the slot once it is. It gives up after a while, and at once where
/// the ticket is neither next nor the one behind.
fn look_awhile<T: Chronicle>(board: &Board<T>, place: &mut Place<T>, ticket: u64) -> bool
    requires table { IsAt board.now.table_id place.old }
    requires waits { (n : ℕ) × (place.old.me.0.stand ≡ Waits n) × (n % 2 ^ 64 ≡ ticket) }
    ensures same { IsSamePlace place.old place.new }
    ensures yes { result ≡ true → (n : ℕ) × (n % 2 ^ 64 ≡ ticket) × Enters T.Chronicle place.old.me n place.new.me }
    ensures no { result ≡ false → place.new.me ≡ place.old.me }
{
    for _ in 0..LOOKS {
        let serving = look(board, place);
        if serving == ticket {
            return true;
        }
        if ticket.wrapping_sub(serving) > AWAKE {
            return false;
        }
        spin_loop();
    }
    false
}

/// Wakes those who sleep with a ticket, after the ticket `next` was served, and calls the first in the line where it is time for it.
pub(crate) fn wake<T: Chronicle>(board: &Board<T>, place: &mut Place<T>, next: u64)
    requires table { IsAt board.now.table_id place.old }
    ensures same { IsSamePlace place.old place.new }
    ensures known { place.new.me ≡ place.old.me }
{
    let out = board.peek(TICKET).wrapping_sub(next);
    let slept = out != 0 && ring(board, place, TICKET_BELL);
    if slept || out < AWAKE || next % TURNS_A_CALL == 0 {
        call_first(board, place);
    }
}
