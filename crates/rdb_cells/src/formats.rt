//! What each kind of cell says: for each a struct with named fields, written to a cell and read from one, each the other's
//! inverse. A file here opens with the words of its kinds; words that it doesn't name are zero. The lowest 8 bits of the first
//! word are the kind, and "high" names its other 24. A number of 64 bits takes two words, the lower half first.
//!
//! A reading is total: of a cell of another kind it gives values without a meaning.

mod hash;
mod heads;
mod object;
mod patricia;
mod row;
mod rtree;
mod tree;
mod version;
mod words;

pub use hash::{HashEntry, HashTable, TABLE_BUCKETS};
pub use heads::{ClassHead, INDEX_ROOTS, IndexHead};
pub use object::{ObjectSlot, SLOT_CHILDREN};
pub use patricia::{PatriciaBranch, PatriciaEntry};
pub use row::{ROW_CELL_BYTES, RowCell};
pub use rtree::{RTREE_ENTRIES, RtreeNode};
pub use tree::{TREE_CHILDREN, TREE_KEYS, TreeNode};
pub use version::VersionHeader;
