//! The next step of a repair, by the record of the connection that is repaired.

ghost use Rattle.std.specs.Prelude.{◌≡◌, Some, find};
ghost use Rattle.rdb_sniffer.specs.Things.{in_order, applies, needs_stamp, needs_release, is_marked, is_drop_planned, has_plan, has_undo};

use rdb_cells::HasPairs;
use rdb_registry::{Hand, Seat};

/// A step of a repair.
#[derive(Clone, Copy, Debug, PartialEq, Eq)]
pub enum Thing {
    /// Stamp the first version of a marked transaction that lacks its stamp.
    Stamp,
    /// Write the next cell of the planned drop of a version.
    GoOn,
    /// Put the newest logged cell back.
    TakeBack,
    /// Give up a plan and latches.
    Release,
    /// Plan the drop of the first open version.
    PlanDrop,
    /// Close the record and free its slot.
    Close,
}

/// The first of the steps, in their order, that applies to a connection's record; `left` says whether a version with an open stamp of
/// the connection's stands in the settled image. It takes no memory, and the cost is constant.
pub fn next_thing(seat: &Seat, left: bool) -> Thing
    ensures { find (applies seat.now left) in_order ≡ Some result }
{
    if needs_stamp(seat, left) {
        Thing::Stamp
    } else if is_drop_planned(&seat.hand) {
        Thing::GoOn
    } else if has_undo(&seat.hand) {
        Thing::TakeBack
    } else if needs_release(seat) {
        Thing::Release
    } else if left {
        Thing::PlanDrop
    } else {
        Thing::Close
    }
}

// Whether a version of a marked transaction is to be stamped.
fn needs_stamp(seat: &Seat, left: bool) -> bool
    ensures { result ≡ needs_stamp seat.now left }
{
    is_marked(seat) && left
}

// Whether a plan or latches are to be given up.
fn needs_release(seat: &Seat) -> bool
    ensures { result ≡ needs_release seat.now }
{
    has_plan(&seat.hand) || seat.latches != 0
}

// Whether its transaction is open and marked.
fn is_marked(seat: &Seat) -> bool
    ensures { result ≡ is_marked seat.now }
{
    match seat.transaction {
        Some(transaction) => transaction.mark.is_some(),
        None => false,
    }
}

// Whether what is left of its plan is the drop of a version: a plan that no operation in work made.
fn is_drop_planned(hand: &Hand) -> bool
    ensures { result ≡ is_drop_planned hand.now }
{
    hand.work.is_none() && has_plan(hand)
}

// Whether a plan is left.
fn has_plan(hand: &Hand) -> bool
    ensures { result ≡ has_plan hand.now }
{
    hand.plan.len() != 0
}

// Whether a cell is to be put back.
fn has_undo(hand: &Hand) -> bool
    ensures { result ≡ has_undo hand.now }
{
    hand.undo.len() != 0
}
