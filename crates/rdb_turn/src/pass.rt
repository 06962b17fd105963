//! The token of a client: it remembers what the client has seen.

use crate::rule::Place;

/// What one client has seen, and whether it has the turn. A thread at a time uses it.
#[derive(Drop)]
pub struct Pass<T> {
    pub(crate) place: Place<T>,
    /// How long the history is that it has seen.
    pub(crate) length: u64,
    /// How many turns it has entered, as far as the type counts.
    pub(crate) turns: u64,
    /// How many passes it may become.
    pub(crate) shares: u64,
    /// Whose it is: a client, or 0 for nobody's.
    pub(crate) client: u32,
    /// Its last ticket.
    pub(crate) ticket: u64,
}
