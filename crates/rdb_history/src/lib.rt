//! The journal as a world keeps it: what each commit found and left of the objects that it wrote, and what is read off it.
#![tactic(auto)]

mod classes;
pub mod events;
pub mod first_touch;
mod index;
pub mod journal;
pub mod laws;
pub mod rows;
#[cfg(test)]
mod tests;
pub mod watches;
