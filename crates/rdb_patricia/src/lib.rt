//! The Patricia index: versions by a key that is one text, in a binary tree over the bits of the keys (Morrison, "PATRICIA",
//! 1968). It touches cells through the traits of `rdb_cells` alone.
#![tactic(auto)]

mod bits;
mod change;
mod how;
mod lead;
mod lookup;
mod patricia;
#[cfg(test)]
mod tests;
mod walk;

pub use how::How;
pub use patricia::Patricia;
