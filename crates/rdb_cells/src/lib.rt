//! The cells of a region as all layers above read and write them: plans, undo records, and what a reader sees while work
//! is unfinished. It touches cells only through the traits `Cells` and `Region`.
#![tactic(auto)]

mod cells;
pub mod doubles;
#[cfg(test)]
mod format_tests;
mod formats;
mod free;
mod index;
#[cfg(test)]
mod index_caller;
#[cfg(test)]
mod index_tests;
mod keys;
mod kind;
mod laws;
mod log;
mod overlay;
mod pairs;
mod parts;
mod places;
mod plan;
mod reference;
mod seen;
mod settled;
#[cfg(test)]
mod tests;
mod undo;

pub use cells::{Cells, Region};
pub use formats::{
    ClassHead, HashEntry, HashTable, INDEX_ROOTS, IndexHead, ObjectSlot, PatriciaBranch,
    PatriciaEntry, ROW_CELL_BYTES, RTREE_ENTRIES, RowCell, RtreeNode, SLOT_CHILDREN, TABLE_BUCKETS,
    TREE_CHILDREN, TREE_KEYS, TreeNode, VersionHeader,
};
pub use index::{Index, Refs};
pub use keys::Keys;
pub use kind::{Kind, is_zero};
pub use laws::{
    fewer_cells_are_left, one_record_settles_its_cells, records_go_back_in_any_order,
    unlogged_write_settles, version_cells_stay, version_order_is_total,
    written_plan_reads_the_same,
};
pub use log::{log_write, take_back};
pub use overlay::Overlay;
pub use pairs::{HasPairs, Pair, Pairs};
pub use parts::{HASH_PART, PATRICIA_PART, RTREE_PART, TREE_PART};
pub use plan::{MAX_PLAN, Plan};
pub use reference::{
    FIRST_HEAD, HEADS_OF_A_CLASS, LAST_HEAD, LAST_PAGE_CELL, NONE, class_head, class_of_head,
    index_head, is_head, is_page_cell,
};
pub use seen::Seen;
pub use settled::Settled;
pub use undo::Undo;
