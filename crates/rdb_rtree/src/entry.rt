//! The entries of a node as values, apart from cells.
use arrayvec::ArrayVec;
use rdb_base::value::Rect;
use rdb_cells::NONE;
use rdb_pages::CellRef;

/// The least entries of a node that isn't the root.
pub(crate) const LEAST_ENTRIES: usize = 4;

/// How many entries two nodes have at most that are to share them: one too few, and as many as a node can have.
pub(crate) const MOST_SHARED: usize = 14;

/// An entry of a node: the cell of a version or of a node below, and its box.
#[derive(Clone, Copy, Debug, PartialEq, Eq)]
pub(crate) struct Entry {
    pub at: CellRef,
    pub cover: Rect,
}

impl Default for Entry {
    fn default() -> Entry {
        Entry {
            at: NONE,
            cover: Rect {
                x1: 0,
                y1: 0,
                x2: 0,
                y2: 0,
            },
        }
    }
}

/// The entries of a node, of which there may be too few or too many, or those of two nodes. They take no memory.
pub(crate) type Entries = ArrayVec<Entry, MOST_SHARED>;
