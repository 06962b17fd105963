//! What a line of a script says.

use crate::unit::ScriptLine;
use rdb_base::identity::Kind;
use rdb_base::operation::{Op, Place};
use rdb_base::text::Text;

/// What a word that may begin a line, or an operation behind a name, asks for.
#[derive(Clone, Copy, Debug, PartialEq, Eq)]
pub enum Keyword {
    Stop,
    Begin,
    Commit,
    Rollback,
    Watch,
    Poll,
    Operation(Verb),
}

/// What an operation does.
#[derive(Clone, Copy, Debug, PartialEq, Eq)]
pub enum Verb {
    New,
    Get,
    Put,
    Del,
    Find,
    Seek,
    Area,
    Prefix,
    Count,
}

/// Where a `seek` begins.
#[derive(Clone, Copy, Debug, PartialEq, Eq)]
pub enum Where {
    First,
    Last,
    Ge,
    Gt,
    Le,
    Lt,
    Next,
    Prev,
}

/// What a line says. Classes and events go by their places in the schema, from 0.
#[derive(Debug, Drop, PartialEq, Eq)]
pub enum Statement {
    /// The line is empty or a comment.
    Nothing,
    Stop(u64),
    Begin { kind: Kind, retries: u32 },
    Operation(ScriptLine),
    Commit,
    Rollback,
    Watch { class: u32, event: u32 },
    Poll { class: u32, event: u32 },
}

/// An index or an event of a class, by their places in the schema and in the class.
#[derive(Clone, Copy, Debug, PartialEq, Eq)]
pub struct Member {
    pub class: u32,
    pub place: u32,
}

/// The object that an operation is about: the name that stands for it, or its id. A name leaves the id 0.
#[derive(Debug, Drop, PartialEq, Eq)]
pub struct Target {
    pub from: Option<Text>,
    pub id: u64,
}

/// Where a `seek` begins, and whether it goes up. A name whose place is taken leaves the place at which nothing is found.
#[derive(Debug, Drop, PartialEq, Eq)]
pub struct Origin {
    pub from: Option<Text>,
    pub place: Place,
    pub up: bool,
}

/// An operation, and the name whose object or place takes the place of the id or the place in it.
#[derive(Debug, Drop, PartialEq, Eq)]
pub struct Call {
    pub from: Option<Text>,
    pub op: Op,
}
