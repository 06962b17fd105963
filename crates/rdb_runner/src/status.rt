//! The statuses with which a command ends, and their numbers. No other module knows the numbers.
//!
//! | Number | Status         | Number | Status            |
//! |--------|----------------|--------|-------------------|
//! | 0      | done           | 6      | bad schedule      |
//! | 2      | usage          | 7      | cut off           |
//! | 3      | unreadable     | 8      | want of memory    |
//! | 4      | bad schema     | 9      | bad report        |
//! | 5      | bad script     | 10     | not built         |
ghost use Rattle.std.specs.Prelude.{◌≡◌};
ghost use Rattle.rdb_runner.specs.Statuses.{number_of};

/// How a command ends.
#[derive(Clone, Copy, Debug, PartialEq, Eq)]
pub enum Status {
    /// All is done.
    Done,
    /// The words are no command line.
    Usage,
    /// A file can't be read.
    Unreadable,
    /// A schema breaks the grammar or a rule.
    BadSchema,
    /// A client is no script for the schema.
    BadScript,
    /// A schedule is none for the clients.
    BadSchedule,
    /// A write failed.
    CutOff,
    /// Memory was wanting.
    NoMemory,
    /// A text is no report, or its journal isn't legal.
    BadReport,
    /// The command, or the form of a file, isn't built yet.
    NotBuilt,
}

impl Status {
    /// The number of the status, which the program answers.
    pub fn number(self) -> u8
        ensures { result ≡ number_of self }
    {
        match self {
            Status::Done => 0,
            Status::Usage => 2,
            Status::Unreadable => 3,
            Status::BadSchema => 4,
            Status::BadScript => 5,
            Status::BadSchedule => 6,
            Status::CutOff => 7,
            Status::NoMemory => 8,
            Status::BadReport => 9,
            Status::NotBuilt => 10,
        }
    }
}
