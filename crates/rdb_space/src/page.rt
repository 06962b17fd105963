//! What is kept of one page: its owner, and which of its cells are free.
ghost use Rattle.std.specs.Prelude.{◌≡◌, ◌<◌};
ghost use Rattle.rdb_pages.specs.Pages.{page_cells};
ghost use Rattle.rdb_space.specs.Space.{granted_to, Marks};

use crate::words::with_bit;

/// A page's owner, if it has one, and its free map: bit i of the word, from the lowest, is 1 exactly where the cell at place
/// i is free.
#[derive(Clone, Copy, Debug, PartialEq, Eq)]
pub struct PageState {
    pub owner: Option<u32>,
    pub free: u64,
}

impl PageState {
    /// A page without an owner.
    pub const UNOWNED: PageState = PageState {
        owner: None,
        free: 0,
    };

    /// A page of the class, all of whose cells are free.
    pub(crate) fn granted_to(class: u32) -> PageState
        ensures { result ≡ granted_to class }
    {
        PageState {
            owner: Some(class),
            free: u64::MAX,
        }
    }

    /// Returns the page with the cell at the place free or not.
    pub(crate) fn marked(self, place: u32, free: bool) -> PageState
        requires { place < page_cells }
        ensures { Marks self result place free }
    {
        PageState {
            owner: self.owner,
            free: with_bit(self.free, place, free),
        }
    }
}
