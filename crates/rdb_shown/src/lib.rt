//! What versions show, against the plain database and the journal: laws over lists of versions, each the contract of a function that does
//! nothing. A world's steps are proved by them, and nothing here speaks of cells.
#![tactic(auto)]

pub mod changes;
pub mod commits;
pub mod puts;
pub mod rows;
#[cfg(test)]
mod tests;
