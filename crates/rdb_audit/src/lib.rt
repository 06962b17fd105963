//! Reads reports back, as rdb_journal prints them, and judges their journals. It reads and writes no file.
#![tactic(auto)]

mod client_reader;
mod fronts;
mod head_reader;
mod line_reader;
mod operation_reader;
mod progress;
pub mod reader;
#[cfg(test)]
mod reader_tests;
mod reply_reader;
mod step_reader;
mod tally;
mod values;
pub mod verdict;
