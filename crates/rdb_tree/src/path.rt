//! The way from the root down to a node.
use rdb_cells::NONE;
use rdb_pages::CellRef;
use smallvec::SmallVec;

/// How many steps lie inline: more than a tree has levels.
pub(crate) const PATH_PLACES: usize = 16;

/// A step down: the node, and the place of the child that was taken.
#[derive(Clone, Copy)]
pub(crate) struct Step {
    pub at: CellRef,
    pub place: usize,
}

impl Default for Step {
    fn default() -> Step {
        Step { at: NONE, place: 0 }
    }
}

/// Steps from the root down. It takes no memory.
pub(crate) type Path = SmallVec<Step, PATH_PLACES>;
