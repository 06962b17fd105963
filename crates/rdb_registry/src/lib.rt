//! Who is connected to a region, and what each connection has open: its transaction, its latches, and the work that it has in hand. It
//! touches no cell.
#![tactic(auto)]

mod fault;
mod hand;
mod latches;
mod laws;
mod own_writes;
mod registry;
mod seat;
#[cfg(test)]
mod tests;
mod transactions;

pub use fault::ConnectFault;
pub use hand::{Hand, Subscription, Subscriptions, UNDO_PLACES, Work};
pub use laws::{
    a_change_is_seen_in_its_slot_alone, a_change_is_seen_of_its_connection_alone,
    a_change_may_leave_the_openings,
};
pub use own_writes::{OwnWrite, OwnWrites};
pub use registry::Registry;
pub use seat::{Condemnation, Condemned, Seat, Transaction};
