//! What a schedule's items stand for.

use rdb_base::list::List;

/// One item of a schedule. Clients go by their numbers, from 1.
#[derive(Clone, Copy, Debug, PartialEq, Eq)]
pub enum Item {
    /// `c`: one step of the client.
    Step(u32),
    /// `c*`: steps of the client until its unit ends or it has to wait.
    Unit(u32),
    /// `s`: one step of the sniffer.
    Sniff,
    /// `s*`: steps of the sniffer until it is done with a client or has to wait.
    SniffUnit,
    /// `!c`: the client is called dead from here on.
    Dead(u32),
}

/// A schedule's items, in order.
pub type Items = List<Item>;
