//! The Patricia index of a class.
//!
//! | Cell            | Leads to                                                                    |
//! |-----------------|-----------------------------------------------------------------------------|
//! | the index head  | the first cell of the tree, none where it lists nothing                      |
//! | a branch        | its two sides: the keys in which its bit is 0, and those in which it is 1   |
//! | an entry        | its version, and the next entry of the same key                             |
ghost use Rattle.std.specs.Prelude.{◌≡◌, ◌<◌, IfOk};
ghost use Rattle.rdb_cells.specs.PlainList.{LeadsTo};
ghost use Rattle.rdb_cells.specs.References.{index_head_ref, max_classes, max_indexes};
ghost use Rattle.rdb_patricia.specs.Lookup.{StandsBy, IsFound};
ghost use Rattle.rdb_patricia.specs.Shape.{patricia_nature};
ghost use Rattle.rdb_patricia.specs.Walks.{HasHead};

use crate::bits::{ALL_BITS, key_bit, parting_of_keys};
use crate::change::{enter, part, take_alone, take_behind, take_first};
use crate::how::How;
use crate::lookup::part_by;
use crate::walk::{Spot, down_by_key, find, list};
use rdb_base::list::{List, NoMemory};
use rdb_cells::{Cells, Index, IndexHead, Keys, NONE, Overlay, PatriciaEntry, Refs, index_head};
use rdb_pages::CellRef;
use std::alloc::Global;

/// The Patricia index with this head. It lists each version below the bits of its key, the newest of a key first. It takes
/// versions whose key is one text of at most 255 bytes.
#[derive(Drop)]
pub struct Patricia {
    pub class: u32,
    pub head: CellRef,
    pub alloc: Global,
}

/// The spot below the head.
const HEAD: Spot = Spot {
    parent: NONE,
    one_side: false,
    at: NONE,
};

impl Patricia {
    /// Returns the Patricia index with that number of the class. It takes no memory; answers are made with the allocator.
    pub fn of(alloc: Global, class: u32, index: u32) -> Patricia
        requires class { class < max_classes }
        requires index { index < max_indexes }
        ensures { result ≡ record { class = class; head = index_head_ref class index; alloc = alloc } }
    {
        Patricia {
            class,
            head: index_head(class, index),
            alloc,
        }
    }

    /// Returns the listed versions whose key is the text, is the longest listed one with which the text begins, or begins with
    /// the text, each once. The search costs the length of the text, and the answer that of its versions; the number of keys
    /// doesn't matter. The only error is want of memory.
    pub fn prefix<C: Cells, K: Keys>(
        &self,
        cells: &C,
        keys: &K,
        text: &str,
        how: How,
    ) -> Result<Refs, NoMemory>
        requires { StandsBy (patricia_nature self.now.class self.now.head.number) (K.meaning keys.now) (C.image cells.now) }
        ensures { IfOk result (IsFound (patricia_nature self.now.class self.now.head.number) (K.meaning keys.now)
            (C.image cells.now) how text.now) }
    {
        let mut refs = List::new(self.alloc);
        let root = self.root(cells);
        if root == NONE {
            return Ok(refs);
        }
        let first = part_by(cells, keys, root, text, how);
        list(cells, self.alloc, first, &mut refs)?;
        Ok(refs)
    }

    /// Returns the first cell of the tree, `NONE` where it lists nothing.
    fn root<C: Cells>(&self, cells: &C) -> CellRef
        requires { HasHead (C.image cells.now) self.now.head.number }
        ensures { LeadsTo (C.image cells.now) self.now.head.number result }
    {
        IndexHead::root_in(cells.read(self.head), 0)
    }
}

impl Index for Patricia {
    ghost use Rattle.rdb_patricia.specs.Shape.{patricia_nature};
    ghost use Rattle.rdb_patricia.specs.PatriciaLaws.{patricia_starts_empty, patricia_lists_once, patricia_has_index_cells};
    ghost use Rattle.rdb_patricia.specs.PatriciaLaws.{patricia_has_few_nodes, patricia_rests_on_nodes};

    ghost nature = { λ patricia. patricia_nature patricia.class patricia.head.number };

    /// The cost grows with the length of the key: at most two takes and three puts.
    fn put<C: Cells, K: Keys>(&self, cells: &mut Overlay<C>, keys: &K, version: CellRef) {
        let root = self.root(&*cells);
        if root == NONE {
            enter(cells, self.head, HEAD, NONE, version);
            return;
        }
        let near = down_by_key(&*cells, keys, root, version, ALL_BITS);
        let other = PatriciaEntry::of_cell(cells.planned(near.at)).version;
        match parting_of_keys(&*cells, keys, version, other) {
            None => enter(cells, self.head, near, near.at, version),
            Some(bit) => {
                let one_side = key_bit(&*cells, keys, version, bit);
                let spot = down_by_key(&*cells, keys, root, version, bit);
                part(cells, self.head, spot, bit, one_side, version);
            }
        }
    }

    /// The cost grows with the length of the key and with the number of its entries: three puts at most.
    fn remove<C: Cells, K: Keys>(&self, cells: &mut Overlay<C>, keys: &K, version: CellRef) {
        let root = self.root(&*cells);
        let spot = down_by_key(&*cells, keys, root, version, ALL_BITS);
        let found = find(&*cells, spot.at, version);
        if found.before != NONE {
            take_behind(cells, found);
        } else if found.next != NONE || spot.parent == NONE {
            take_first(cells, self.head, spot, found);
        } else {
            take_alone(cells, spot, found);
        }
    }

    /// The versions come by ascending keys. The cost grows with their number.
    fn refs<C: Cells>(&self, cells: &C) -> Result<Refs, NoMemory> {
        let mut refs = List::new(self.alloc);
        list(cells, self.alloc, self.root(cells), &mut refs)?;
        Ok(refs)
    }

    ghost starts_empty = { λ patricia. patricia_starts_empty patricia.class patricia.head.number };

    ghost lists_once = { λ patricia. patricia_lists_once patricia.class patricia.head.number };

    ghost has_index_cells = { λ patricia. patricia_has_index_cells patricia.class patricia.head.number };

    ghost has_few_nodes = { λ patricia. patricia_has_few_nodes patricia.class patricia.head.number };

    ghost rests_on_nodes = { λ patricia. patricia_rests_on_nodes patricia.class patricia.head.number };
}
