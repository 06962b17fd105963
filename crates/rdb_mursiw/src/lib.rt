//! Many readers or a single writer: who may begin a transaction. It touches nothing.
#![tactic(auto)]

mod admission;
#[cfg(test)]
mod tests;

pub use admission::{Admission, admit};
