//! The report: the journal, what became of each client and the totals, as lines of text. It reads and writes no file.
#![tactic(auto)]

pub mod clients;
pub mod endings;
pub mod entries;
mod names;
mod operations;
mod replies;
pub mod summary;
#[cfg(test)]
mod tests;
