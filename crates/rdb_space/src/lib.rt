//! The memory of a region: its pages and heads, who owns the pages, and which of their cells are free. Also how much an
//! operation may take of them. It stands over any pages.
#![tactic(auto)]

mod claims;
mod class_pages;
mod heads;
mod memory;
mod page;
mod page_set;
mod space;
#[cfg(test)]
mod tests;
mod words;

pub use claims::{claim, claim_of_op};
pub use memory::RegionMemory;
pub use page::PageState;
pub use space::Space;
