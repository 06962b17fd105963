//! The plain database and the law of journals: what every answer of the product is measured by.
#![tactic(auto)]

mod answering;
mod clash;
pub mod db;
mod declared;
mod endings;
pub mod fitting;
#[cfg(test)]
mod fixtures;
mod judging;
mod keys;
pub mod laws;
#[cfg(test)]
mod legal_tests;
pub mod legality;
mod lookups;
pub mod objects;
mod placing;
mod seek;
#[cfg(test)]
mod tests;
#[cfg(test)]
mod touch_tests;
pub mod touching;
