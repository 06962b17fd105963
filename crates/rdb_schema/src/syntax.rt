//! A schema's text as a list of parts, before any name is looked up, and what may be wrong with it.

ghost use Rattle.std.specs.Prelude.{◌≡◌};
ghost use Rattle.rdb_schema.specs.declared.syntax.DdlCause.TheVariants.{NoMemory};

use crate::schema::{EventKind, IndexKind, Plain};
use rdb_base::list::List;
use rdb_base::text::Text;
use std::alloc::AllocError;
use thiserror::Error;

/// What one or a few tokens of a schema's text say. Parts stand in the order of the text.
#[derive(Debug, Drop)]
pub enum Part {
    /// The database's name.
    Database(Text),
    /// A struct begins.
    Struct(Text),
    /// A class begins.
    Class(Text),
    /// The type of the next member: a plain one, or a vector of it.
    Plain { ty: Plain, vector: bool },
    /// The type of the next member: the struct of that name, or a vector of it.
    Named { name: Text, vector: bool },
    /// A field's name.
    Member(Text),
    /// Objects may be named by number, and so many are expected.
    Autoid(Option<u32>),
    /// An index begins.
    Index { unique: bool, kind: IndexKind },
    /// A field of the index's key.
    Key(Text),
    /// The index ends.
    IndexName { name: Text, estimate: Option<u32> },
    /// An event begins.
    Event(EventKind),
    /// The field whose updates the event tells of.
    Update(Text),
    /// The event ends.
    EventName(Text),
}

pub type Syntax = List<Part>;

/// Why a schema is refused.
#[derive(Clone, Copy, Debug, PartialEq, Eq)]
pub enum DdlCause {
    /// A token that the grammar does not allow there.
    Unexpected,
    /// No struct, or no field, has the name.
    Unknown,
    /// The name is taken, or the class has an autoid already.
    Twice,
    /// The index cannot have this key, or a class has no field.
    BadKey,
    /// One more than the limit.
    TooMany,
    /// Memory was wanting.
    NoMemory,
}

/// The first part that breaks a rule, by its place from 0, and the rule.
#[derive(Clone, Copy, Debug, PartialEq, Eq, Error)]
#[error("part {at} of the schema is refused")]
pub struct SchemaFault {
    pub at: usize,
    pub cause: DdlCause,
}

impl From<AllocError> for SchemaFault {
    ghost from_gives = { λ _ fault. fault.cause ≡ NoMemory };

    fn from(_error: AllocError) -> SchemaFault {
        SchemaFault {
            at: 0,
            cause: DdlCause::NoMemory,
        }
    }
}
