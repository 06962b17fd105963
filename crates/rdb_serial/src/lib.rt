//! That the journal is one serial history, and stays so: laws of what moves of a connection leave of the journal, of the versions and of
//! each connection's open work. Each is the contract of a function that does nothing; none speaks of a cell.
#![tactic(auto)]

pub mod endings;
pub mod facts;
pub mod openings;
pub mod plans;
pub mod repairs;
pub mod stories;
