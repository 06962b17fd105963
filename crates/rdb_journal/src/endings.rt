//! What became of each client, and what its watches and polls were told. Classes and events go by their place in the schema.

use rdb_base::list::List;

/// How a client ended.
#[derive(Clone, Copy, Debug, PartialEq, Eq)]
pub enum End {
    /// It came to its script's end.
    Done,
    /// It was stopped before the step of this number, from 1.
    Stopped { step: u64 },
    /// It was called dead: condemned by slot `by` when the journal had `at` entries.
    Gone { by: u32, at: u64 },
}

/// What a watch or a poll was told. `at` is the number of commits at that moment.
#[derive(Clone, Copy, Debug, PartialEq, Eq)]
pub enum Note {
    Watch {
        class: u32,
        event: u32,
        at: u64,
    },
    /// A poll that was given the event of an object in a commit.
    Event {
        class: u32,
        event: u32,
        commit: u64,
        id: u64,
    },
    /// A poll for which no event was left.
    NoEvent {
        class: u32,
        event: u32,
        at: u64,
    },
}

/// The ends of the clients 1, 2 and so on.
pub type Ends = List<End>;

/// What one client's watches and polls were told, in order.
pub type Notes = List<Note>;

/// The notes of the clients 1, 2 and so on.
pub type NotesOfClients = List<Notes>;
