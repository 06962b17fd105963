//! Lookups for a reader: what the plain database of the rows that it is shown would answer, from the cells of the versions.
#![tactic(auto)]

mod ids;
mod marks;
mod refusals;
mod replies;
mod seek;
mod view;

pub use marks::{Marks, Reader};
pub use refusals::refusal;
pub use replies::lookup;
