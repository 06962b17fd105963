//! The turn lock: threads take turns on one value with a history, and whoever enters gets a value
//! whose history begins with all that the entering pass has seen. It knows nothing of what the value is.
#![tactic(auto)]

mod bells;
mod crossing;
mod line;
mod pass;
mod plays;
mod rule;
mod steps;
#[cfg(test)]
mod tests;
#[cfg(test)]
mod tests_of_parts;
mod turn;
mod view;
mod waiting;

pub use pass::Pass;
pub use turn::{Indivisible, Turn, TurnOut};
