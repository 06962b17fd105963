//! What a client's script stands for.

use rdb_base::identity::Kind;
use rdb_base::list::List;
use rdb_base::operation::Op;
use rdb_base::text::Text;

/// A client's script.
#[derive(Debug, Drop, PartialEq, Eq)]
pub struct Script {
    /// The number of the step before which the client stops, from 1.
    pub stop: Option<u64>,
    pub units: Units,
}

/// What a client does in one go. Classes and events go by their places in the schema, from 0.
#[derive(Debug, Drop, PartialEq, Eq)]
pub enum Unit {
    /// A transaction, which is begun again up to so many times where it ends by a conflict.
    Tx {
        kind: Kind,
        retries: u32,
        lines: ScriptLines,
        /// Whether it ends by a commit; else it is rolled back.
        commits: bool,
    },
    Watch {
        class: u32,
        event: u32,
    },
    Poll {
        class: u32,
        event: u32,
    },
}

pub type Units = List<Unit>;

/// One operation of a transaction.
#[derive(Debug, Drop, PartialEq, Eq)]
pub struct ScriptLine {
    /// The name that the line assigns.
    pub name: Option<Text>,
    /// The name whose object or place takes the place of the id or the place in `op`. There `op` has id 0, or the place
    /// at which nothing is found.
    pub from: Option<Text>,
    pub op: Op,
}

pub type ScriptLines = List<ScriptLine>;
