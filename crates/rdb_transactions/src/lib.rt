//! Connections and their transactions: who is connected, what each has open, and the journal in which it ends. Each move is one public
//! function, which changes one connection's record and appends at most one entry; no cell is touched. Whose turn it is, and what is
//! answered, is for whoever calls.
//!
//! | Module         | Moves                                                                                                |
//! |----------------|------------------------------------------------------------------------------------------------------|
//! | `connections`  | a connection comes, is condemned, closes, or is closed for a dead client                              |
//! | `opening`      | a transaction begins                                                                                  |
//! | `stories`      | an operation that wrote nothing is told; a story is moved out to be validated, and back                |
//! | `ending`       | a transaction is marked, ends as a reader, as committed, or as rolled back                             |
//! | `rolling_back` | a roll-back begins                                                                                    |
//! | `watches`      | an event is watched, or told                                                                          |
//! | `claims`       | what is claimed of the journal's room, so that no ending lacks memory                                  |
//! | `records`      | changes of one record, each once                                                                      |
#![tactic(auto)]

mod claims;
mod connections;
mod ending;
mod opening;
mod records;
mod rolling_back;
mod stories;
#[cfg(test)]
mod tests;
mod transactions;
mod watches;

pub use claims::{Claims, writes_in};
pub use connections::is_marked;
pub use stories::open_in;
pub use transactions::Transactions;
pub use watches::watched;
