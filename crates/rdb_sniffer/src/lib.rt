//! What the repair of a connection's unfinished work does next. It touches nothing.
#![tactic(auto)]

mod repair;
#[cfg(test)]
mod tests;

pub use repair::{Thing, next_thing};
