//! A tree index: a B-tree of minimum degree 4 over the cells of a class, which keeps the versions in the order of key, id and
//! serial. It touches its own cells alone, and knows keys through the trait `Keys`.
#![tactic(auto)]

mod insert;
mod lookup;
mod node;
mod path;
mod remove;
mod search;
#[cfg(test)]
mod tests;
mod tree;

pub use tree::Tree;
