//! The calls of a World, each one step of one connection. Those that stand here touch no cell: a connection comes, begins a
//! transaction, goes, is condemned, watches an event and asks for the next one, commits, and rolls back. What is kept of the cells, the
//! records and their rooms is kept by each, and of which versions. What a connection is doing, and how it stands, changes nothing.
#![tactic(auto)]

mod closing;
mod events;
mod looks;
mod sessions;

pub use closing::{commit, roll_back};
pub use events::{poll, watch};
pub use looks::{phase, standing};
pub use sessions::{begin, condemn, connect, disconnect};
