//! Values in text, as scripts and reports have them: their printed form, and a reader of each way in which they may be written. It
//! touches nothing but the text that it is lent and the memory that it takes.
#![tactic(auto)]

pub mod decimal;
pub mod front;
pub mod printed;
pub mod spelled;
