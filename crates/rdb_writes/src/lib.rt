//! The writes of connections: plans written a cell at a time under undo records, and their taking back, each in classes whose latch the
//! connection holds. It touches cells, and of each connection's record its undo record and its plan. It knows no version: what a step
//! leaves is said of two images, the settled one, which is there once all unfinished work is taken back, and the one aimed at, which is
//! there once a connection's plan is written.
#![tactic(auto)]

mod laws;
mod take_back;
#[cfg(test)]
mod tests;
mod unlogged;
mod write;

pub use laws::{
    a_class_is_settled_by_its_holder, a_hand_may_change, cells_may_come, connections_come_and_go,
    latches_may_change,
};
pub use take_back::take_newest_back;
pub use unlogged::write_unlogged;
pub use write::write_next;
