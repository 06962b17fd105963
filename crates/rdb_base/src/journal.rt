//! What has happened: the story of each transaction, and the entries in which they end.

ghost use Rattle.std.specs.Prelude.{◌≡◌};
ghost use Rattle.std.specs.Option.{option_copied};
ghost use Rattle.rdb_base.specs.Entries.{is_commit, story_of, client_of};

use crate::list::List;
use crate::operation::{Op, Reply};

/// The operations of a transaction with their answers, in order.
pub type Done = List<(Op, Reply)>;

/// One transaction.
#[derive(Debug, Drop, PartialEq, Eq)]
pub struct Story {
    /// The slot of its connection.
    pub client: u32,
    /// Its number among the transactions that the connection began, from 1.
    pub number: u64,
    /// How long the journal was when it began.
    pub begun: u64,
    /// How many commits it sees.
    pub snapshot: u64,
    pub done: Done,
}

/// Why a transaction was rolled back.
#[derive(Clone, Copy, Debug, PartialEq, Eq)]
pub enum Cause {
    Asked,
    /// The commit that touches it, and the first of its operations that is touched, from 1.
    Conflict { commit: u64, operation: u32 },
    /// The cells that an operation needs, and those that its class has.
    Full { need: u32, room: u32 },
}

/// One entry of the journal.
#[derive(Debug, Drop, PartialEq, Eq)]
pub enum Entry {
    Commit {
        story: Story,
        commit: u64,
    },
    Read {
        story: Story,
    },
    Abort {
        story: Story,
        cause: Cause,
    },
    /// A dead client was handled: condemned by slot `by` when the journal had `at` entries; `finished` where its last transaction
    /// stood marked.
    Handled {
        client: u32,
        by: u32,
        at: u64,
        finished: bool,
    },
    Closed {
        client: u32,
    },
}

impl Entry {
    /// Whether the entry is a commit.
    pub fn is_commit(&self) -> bool
        ensures { result ≡ is_commit self.now }
    {
        matches!(self, Entry::Commit { .. })
    }

    /// The story of the transaction that the entry ends, if it ends one.
    pub fn story(&self) -> Option<&Story>
        ensures { option_copied result ≡ story_of self.now }
    {
        match self {
            Entry::Commit { story, .. } | Entry::Read { story } | Entry::Abort { story, .. } =>
                Some(story),
            Entry::Handled { .. } | Entry::Closed { .. } => None,
        }
    }

    /// The client that the entry is of: the one whose transaction it ends, or that it takes leave of.
    pub fn client(&self) -> u32
        ensures { result ≡ client_of self.now }
    {
        match self {
            Entry::Commit { story, .. } | Entry::Read { story } | Entry::Abort { story, .. } =>
                story.client,
            Entry::Handled { client, .. } | Entry::Closed { client } => *client,
        }
    }
}

/// Entries in the order in which they came.
pub type Entries = List<Entry>;
