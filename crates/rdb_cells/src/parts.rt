//! How many free cells a version takes at most in an index of each kind: that index's part of an operation's claim.

/// The part of a hash index: an entry, and a table cell.
pub const HASH_PART: u32 = 2;

/// The part of a B-tree: a node for each level, and a new root.
pub const TREE_PART: u32 = 12;

/// The part of an R-tree: a node for each level, and a new root.
pub const RTREE_PART: u32 = 12;

/// The part of a Patricia tree: an entry, and a branch.
pub const PATRICIA_PART: u32 = 2;
