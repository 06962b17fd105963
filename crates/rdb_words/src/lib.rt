//! What the words behind a command's word give: options, each at most once, and names. The definition tests any words and allocates
//! nothing; clap reads those that pass. It touches nothing but the words that it is lent, and the memory that clap takes.
#![tactic(auto)]

mod arguments;
mod definition;
mod simple_command;

pub use arguments::{Arguments, MAX_NAMES, Names};
pub use definition::arguments_in;
pub use simple_command::{read, words_are_read};
