//! The hash index: versions by their whole key, found in one bucket of 225. It touches cells through the traits `Cells` and
//! `Index` alone.
#![tactic(auto)]

mod bucket;
mod chain;
mod hash;
#[cfg(test)]
mod tests;

pub use hash::Hash;
