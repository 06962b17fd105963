//! The schema language: its tokens, its grammar, and the canonical text of a schema.
#![tactic(auto)]

mod expect;
pub mod fault;
mod laws;
mod parse;
pub mod place;
mod reader;
#[cfg(test)]
mod tests;
pub mod token;
mod writer;

pub use laws::{
    canonical_text_has_the_parts, canonical_text_is_read_again, canonical_text_is_short,
    parts_declare_the_schema, what_is_read_is_a_schema,
};
pub use reader::{one_answer, read};
pub use writer::text;
