//! The limits of schemas, rows, jobs and regions, each once. A length in bytes or a number of things is in `usize`.

/// The longest name, in bytes.
pub const MAX_NAME: usize = 32;

/// The most structs that a schema declares.
pub const MAX_STRUCTS: usize = 64;

/// The most classes that a schema declares.
pub const MAX_CLASSES: usize = 64;

/// The most fields of a struct or of a class.
pub const MAX_FIELDS: usize = 32;

/// The most indexes of a class.
pub const MAX_INDEXES: usize = 8;

/// The most events of a class.
pub const MAX_EVENTS: usize = 8;

/// The most fields of an index's key.
pub const MAX_KEY_FIELDS: usize = 4;

/// The longest text in a row, in bytes.
pub const MAX_TEXT: usize = 255;

/// The most elements of a vector in a row.
pub const MAX_ELEMENTS: usize = 64;

/// The longest encoded row, in bytes.
pub const MAX_ROW: usize = 4_000;

/// The most connections of a region at once.
pub const MAX_CONNECTIONS: usize = 32;

/// The most clients of a job.
pub const MAX_CLIENTS: usize = 16;

/// The most operations of a transaction.
pub const MAX_OPERATIONS: usize = 1_000;

/// The most transactions of a client's script.
pub const MAX_TRANSACTIONS: usize = 10_000;

/// The most retries of a transaction.
pub const MAX_RETRIES: u32 = 1_000;

/// The most items of a schedule.
pub const MAX_ITEMS: usize = 100_000;

/// The longest file that is read, in bytes.
pub const MAX_FILE: u64 = 16_777_216;

/// The most places of a growing list with reserved room, a journal among them: 2^44, the used and the reserved ones together.
pub const MAX_PLACES: usize = 17_592_186_044_416;
