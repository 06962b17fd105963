//! What the names of a client's script stand for, and the operations that its lines ask for by the replies so far.
#![tactic(auto)]

mod assigners;
mod bindings;
mod filling;
pub mod laws;
pub mod referent;
mod survey;
#[cfg(test)]
mod tests;

pub use bindings::Bindings;
