//! Rows as bytes: the encoding of a class's rows, its writer and its readers.
#![tactic(auto)]

pub mod accessors;
mod decode;
pub mod encode;
mod places;
mod read;
#[cfg(test)]
mod tests;
mod walk;
mod write;
