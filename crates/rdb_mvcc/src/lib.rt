//! Which commit a transaction conflicts with.
#![tactic(auto)]

mod laws;
#[cfg(test)]
mod tests;
mod validation;

pub use laws::{clear_commit_keeps_the_law, validation_has_one_answer};
pub use validation::{Checked, validate};
