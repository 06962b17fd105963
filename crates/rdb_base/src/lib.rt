//! Values, ids, the journal's types and the traits of the outside, on which all other crates stand.
#![tactic(auto)]

pub mod chronicle;
pub mod duplicate;
pub mod files;
pub mod folder;
pub mod gate;
pub mod identity;
pub mod journal;
pub mod limits;
pub mod list;
pub mod listed_deaths;
pub mod liveness;
pub mod memory_files;
pub mod memory_sink;
pub mod operation;
pub mod order;
pub mod ready;
pub mod sink;
pub mod steps;
pub mod sure;
#[cfg(test)]
mod tests;
pub mod text;
pub mod value;
