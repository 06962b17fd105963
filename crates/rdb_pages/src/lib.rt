//! The pages of a region: cells of 64 bytes in pages of 64, which hold nothing until they are claimed.
#![tactic(auto)]

mod block;
mod cell;
mod pages;
mod raw_pages;
#[cfg(test)]
mod tests;

pub use cell::{Cell, CellRef, PAGE_CELLS};
pub use pages::{MAX_PAGES, Pages};
pub use raw_pages::RawPages;
