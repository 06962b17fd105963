//! What is kept of one class: how many of its cells are free, and which of its pages have a free one.
ghost use Rattle.std.specs.Prelude.{◌≡◌, ◌<◌, ◌≤◌, ◌+◌, ◌*◌, ◌^◌, length, replicate, count_ones, nat_lt, IfOk};
ghost use Rattle.rdb_pages.specs.Pages.{max_pages};
ghost use Rattle.rdb_space.specs.Bits.{word_bits};
ghost use Rattle.rdb_space.specs.PageSet.{words_for, Puts};

use crate::page_set::PageSet;
use rdb_base::list::NoMemory;
use std::alloc::Global;

/// The free cells of a class, as their number and as the pages that they stand in.
#[derive(Drop)]
pub(crate) struct ClassPages {
    pub(crate) free: u32,
    pub(crate) with_room: PageSet,
}

impl ClassPages {
    /// A class without a page. The only error is want of memory.
    pub(crate) fn new(alloc: Global, pages: u32) -> Result<ClassPages, NoMemory>
        requires { pages ≤ max_pages }
        ensures { IfOk result (λ c. c ≡ record { free = 0; with_room = replicate (words_for pages) 0 }) }
    {
        Ok(ClassPages {
            free: 0,
            with_room: PageSet::new(alloc, pages)?,
        })
    }

    /// Notes that the free map of one of its pages was `before` and is `after`. The cost is constant.
    pub(crate) fn follow(&mut self, page: u32, before: u64, after: u64)
        requires page { page < word_bits * length self.old.with_room }
        requires counted { count_ones before ≤ self.old.free }
        requires few { self.old.free < 2 ^ 31 }
        ensures free { self.new.free + count_ones before ≡ self.old.free + count_ones after }
        ensures with_room { Puts self.old.with_room self.new.with_room page (nat_lt 0 after) }
    {
        self.free = self.free - before.count_ones() + after.count_ones();
        self.with_room.put(page, after > 0);
    }
}
