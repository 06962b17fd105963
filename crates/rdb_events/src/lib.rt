//! Which event comes next.
#![tactic(auto)]

mod events;
mod laws;
#[cfg(test)]
mod tests;

pub use events::{Found, next};
pub use laws::next_event_is_one;
