//! Schemas: what classes, fields, indexes and events a database has, which values they have, and what a row's bytes are.
#![tactic(auto)]

mod checking;
mod declared;
mod first_fault;
pub mod key_values;
pub mod keyword;
mod laws;
pub mod lengths;
pub mod names;
mod resolver;
mod rules;
pub mod schema;
pub mod syntax;
pub mod types;
pub mod values;

pub use checking::is_schema;
pub use laws::{index_has_a_key, rows_have_encodings, schema_is_small};
pub use resolver::resolve;
