//! Who works on the region: connections, transactions and what they may do.

/// A connection: its slot in the registry, and a serial that is never used again.
#[derive(Clone, Copy, Debug, PartialEq, Eq, PartialOrd, Ord)]
pub struct ConnId {
    pub slot: u32,
    pub serial: u64,
}

/// A transaction: its connection, and its number among those that the connection began.
#[derive(Clone, Copy, Debug, PartialEq, Eq, PartialOrd, Ord)]
pub struct TxId {
    pub conn: ConnId,
    pub number: u64,
}

/// How transactions are kept apart: many readers or a single writer, or versions for all.
#[derive(Clone, Copy, Debug, PartialEq, Eq)]
pub enum Manager {
    Mursiw,
    Mvcc,
}

/// What a transaction may do.
#[derive(Clone, Copy, Debug, PartialEq, Eq)]
pub enum Kind {
    ReadWrite,
    ReadOnly,
}

/// Whose a version is: still of an open transaction, or of the commit with a number.
#[derive(Clone, Copy, Debug, PartialEq, Eq)]
pub enum Stamp {
    By(TxId),
    Done(u64),
}

/// What a connection is doing.
#[derive(Clone, Copy, Debug, PartialEq, Eq)]
pub enum Phase {
    Idle,
    Running(Kind),
    Writing,
    RollingBack,
    Stamping,
    Condemned,
    Absent,
}

/// A place in the list of events of one kind: behind the pair (commit, id).
#[derive(Clone, Copy, Debug, PartialEq, Eq)]
pub struct EventPlace {
    pub commit: u64,
    pub id: u64,
}
