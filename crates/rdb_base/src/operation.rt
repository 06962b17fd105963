//! What a transaction asks of the database, and what it is told.

ghost use Rattle.std.specs.Prelude.{◌≡◌};
ghost use Rattle.rdb_base.specs.Operations.{class_of, index_named, is_write};

use crate::list::List;
use crate::text::Text;
use crate::value::{Rect, Row};

/// A place in the order of an ordered index, by key and then by id.
#[derive(Debug, Drop, PartialEq, Eq)]
pub enum Place {
    Start,
    End,
    At { key: Row, id: u64 },
}

/// How a text is looked up among prefixes: the text itself, the longest key that is a prefix of it, or each key that begins with it.
#[derive(Clone, Copy, Debug, PartialEq, Eq)]
pub enum How {
    Exact,
    Longest,
    Starting,
}

/// One operation of a transaction. Classes and indexes go by their place in the schema, from 0.
#[derive(Debug, Drop, PartialEq, Eq)]
pub enum Op {
    /// Makes an object. `id` is the one that was made, or 0 where none was.
    New {
        class: u32,
        row: Row,
        id: u64,
    },
    Get {
        class: u32,
        id: u64,
    },
    Put {
        class: u32,
        id: u64,
        row: Row,
    },
    Del {
        class: u32,
        id: u64,
    },
    Find {
        class: u32,
        index: u32,
        key: Row,
    },
    Seek {
        class: u32,
        index: u32,
        place: Place,
        up: bool,
    },
    Area {
        class: u32,
        index: u32,
        rect: Rect,
        inside: bool,
    },
    Prefix {
        class: u32,
        index: u32,
        text: Text,
        how: How,
    },
    Count {
        class: u32,
    },
}

impl Op {
    /// The class that the operation is of.
    pub fn class(&self) -> u32
        ensures { result ≡ class_of self.now }
    {
        match self {
            Op::New { class, .. }
            | Op::Get { class, .. }
            | Op::Put { class, .. }
            | Op::Del { class, .. }
            | Op::Find { class, .. }
            | Op::Seek { class, .. }
            | Op::Area { class, .. }
            | Op::Prefix { class, .. }
            | Op::Count { class } => *class,
        }
    }

    /// The index of its class that the operation looks in, if it names one.
    pub fn index(&self) -> Option<u32>
        ensures { result ≡ index_named self.now }
    {
        match self {
            Op::Find { index, .. }
            | Op::Seek { index, .. }
            | Op::Area { index, .. }
            | Op::Prefix { index, .. } => Some(*index),
            Op::New { .. } | Op::Get { .. } | Op::Put { .. } | Op::Del { .. } | Op::Count { .. } =>
                None,
        }
    }

    /// Whether the operation is of those that write: it makes, replaces or deletes an object.
    pub fn writes(&self) -> bool
        ensures { result ≡ is_write self.now }
    {
        matches!(self, Op::New { .. } | Op::Put { .. } | Op::Del { .. })
    }
}

pub type Ids = List<u64>;

/// The answer to an operation.
#[derive(Debug, Drop, PartialEq, Eq)]
pub enum Reply {
    Made(u64),
    Row(Row),
    Done,
    NotFound,
    /// The first unique index whose key another object has, and that object's id.
    Duplicate { index: u32, id: u64 },
    /// Ids in ascending order.
    Ids(Ids),
    At { key: Row, id: u64 },
    End,
    Count(u64),
}
