//! What the calls of a World answer, and those calls that touch no cell: a connection begins, commits, rolls back, watches, polls, goes, or
//! is condemned. Each decides by the record of who calls, and then makes one move of `rdb_transactions`. A call of a connection that was
//! condemned is answered Gone before anything else is looked at, and then nothing has changed.
//!
//! | Module     | Calls                                                  |
//! |------------|--------------------------------------------------------|
//! | `answer`   | the answers                                            |
//! | `sessions` | `begin`, `disconnect`, `condemn`                       |
//! | `closing`  | `commit`, `roll_back`                                  |
//! | `events`   | `watch`, `poll`                                        |
//! | `looks`    | `phase`, `standing`, which change nothing              |
#![tactic(auto)]

mod answer;
mod closing;
mod events;
mod looks;
mod sessions;
#[cfg(test)]
mod tests;

pub use answer::{Answer, Outcome, Standing, Tended};
pub use closing::{commit, roll_back};
pub use events::{poll, watch};
pub use looks::{phase, standing};
pub use sessions::{begin, condemn, disconnect};
