//! A set of pages, by number: one bit for each page of the region.
ghost use Rattle.std.specs.Prelude.{◌≡◌, ◌<◌, ◌≤◌, ◌*◌, ◌+◌, ◌/◌, ℕ, length, replicate, IfOk, IfSome, IfNone};
ghost use Rattle.rdb_pages.specs.Pages.{max_pages};
ghost use Rattle.rdb_space.specs.Bits.{word_bits};
ghost use Rattle.rdb_space.specs.PageSet.{words_for, Puts, member_bit, IsFirstMember};

use crate::words::{WORD_BITS, first_bit, with_bit};
use rdb_base::list::NoMemory;
use std::alloc::Global;
use std::marker::Model;

/// Pages by number, as bits of words: page i is bit i % 64 of word i / 64. Contracts see the words. Only `new` takes memory.
#[derive(Drop)]
pub(crate) struct PageSet {
    words: Vec<u64>,
}

impl Model for PageSet {
    ghost use Rattle.std.specs.Prelude.{List, ℕ, length, ◌≤◌};
    ghost use Rattle.rdb_space.specs.PageSet.{max_words};

    ghost Value = { List ℕ };

    ghost view = { λ s. s.words.items };

    ghost invariant = { λ s. length s.words.items ≤ max_words };
}

impl PageSet {
    /// Makes the empty set, of pages below a number. The only error is want of memory.
    pub(crate) fn new(alloc: Global, pages: u32) -> Result<PageSet, NoMemory>
        requires { pages ≤ max_pages }
        ensures { IfOk result (λ s. s ≡ replicate (words_for pages) 0) }
    {
        Ok(PageSet {
            words: vec![in alloc; 0u64; pages.div_ceil(WORD_BITS) as usize]?,
        })
    }

    /// Puts the page into the set, or takes it out. All other pages stay. The cost is constant.
    pub(crate) fn put(&mut self, page: u32, is_member: bool)
        requires { page < word_bits * length self.old }
        ensures { Puts self.old self.new page is_member }
    {
        let at = (page / WORD_BITS) as usize;
        self.words[at] = with_bit(self.words[at], page % WORD_BITS, is_member);
    }

    /// Returns the lowest page of the set from a number on. The cost grows with the pages between, 64 of which are seen at
    /// one look.
    pub(crate) fn first_from(&self, page: u32) -> Option<u32>
        ensures found { IfSome result (IsFirstMember self.now page) }
        ensures none { IfNone result ((i : ℕ) → page ≤ i → member_bit self.now i ≡ 0) }
    {
        let mut from = page % WORD_BITS;
        for at in (page / WORD_BITS) as usize..self.words.len() {
            match first_bit(self.words[at], from) {
                Some(place) => return Some(WORD_BITS * at as u32 + place),
                None => from = 0,
            }
        }
        None
    }
}
