//! The commands tried out over files in memory: rows of words, each with the status and the lines that it answers. It touches
//! `rdb_runner` alone, and what its doubles of files and sinks hold.
#![tactic(auto)]

#[cfg(test)]
mod audits;
#[cfg(test)]
mod checks;
#[cfg(test)]
mod command_lines;
#[cfg(test)]
mod generated_jobs;
#[cfg(test)]
mod refusals;
#[cfg(test)]
mod replays;
pub mod trial;
