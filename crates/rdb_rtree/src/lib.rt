//! An R-tree index: a tree of boxes over the cells of a class, with 4 to 11 entries in each node but the root, which finds the
//! versions whose box meets a rectangle. It touches its own cells alone, and knows keys through the trait `Keys`.
#![tactic(auto)]

mod boxes;
mod entry;
mod insert;
mod lookup;
mod node;
mod remove;
mod rtree;
mod split;
#[cfg(test)]
mod tests;

pub use rtree::Rtree;
