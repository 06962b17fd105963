//! What a pass knows. No value of these types is made: they stand in contracts and proofs alone.

use std::collections::LinkedList;
use std::snapshot::Snapshot;

/// Where a pass stands to the turn. The numbers are those of the tickets, counted without an end.
pub enum Stand {
    /// It has no ticket out.
    Away,
    /// It has drawn this ticket.
    Waits(u64),
    /// It has the turn, with this ticket.
    Inside(u64),
}

/// What a pass knows.
pub struct View<T> {
    /// The values that it has seen, the last one first.
    pub seen: LinkedList<T>,
    /// How many passes it may become.
    pub shares: u64,
    pub stand: Stand,
    /// The slots whose parts it owns, each with the value in which its owner left it last.
    pub owned: LinkedList<(u64, T)>,
    /// The slots that it has seen condemned.
    pub gone: LinkedList<u64>,
    /// The clients that it has seen stopped.
    pub stopped: LinkedList<u64>,
    /// Whether the lock has a board.
    pub boarded: bool,
    /// The slot whose part is cut off next.
    pub parting: u64,
}

/// What a lock is told as it is made.
#[derive(Drop)]
pub struct Founding<T> {
    /// The first value.
    pub made: Snapshot<T>,
    /// Whether the lock has a board.
    pub boarded: bool,
}
