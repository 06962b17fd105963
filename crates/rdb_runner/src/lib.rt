//! The commands of the program, over files and a sink that the caller gives.
#![tactic(auto)]

pub mod audit;
pub mod check;
pub mod command_line;
mod halt;
pub mod laws;
mod part_reading;
mod plain_job;
pub mod plain_laws;
mod plain_run;
pub mod reading;
pub mod region;
pub mod replay;
pub mod schema_reading;
pub mod status;
mod telling;
