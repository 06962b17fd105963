//! The tree index of a class, as all layers above use it. The head's first root leads to the root node; a root of none is that
//! of a tree without a node.
ghost use Rattle.std.specs.Prelude.{◌≡◌, ◌<◌, ◌≤◌, ◌+◌, ◌*◌, ℕ, length, IfOk, true};
ghost use Rattle.std.specs.List.{filter};
ghost use Rattle.rdb_cells.specs.Index.{Lists, WhateverListed};
ghost use Rattle.rdb_cells.specs.Keys.{says};
ghost use Rattle.rdb_cells.specs.References.{index_head_ref, max_classes, max_indexes};
ghost use Rattle.rdb_tree.specs.Lookups.{has_key, first_past, PlaceFits};
ghost use Rattle.rdb_tree.specs.Nature.{tree_nature};
ghost use Rattle.rdb_tree.specs.Trees.{AreLevels};

use crate::lookup::{gather_equal, gather_versions, seek_from};
use crate::node::MAX_LEVELS;
use rdb_base::list::{List, NoMemory};
use rdb_base::operation::Place;
use rdb_base::steps::Steps;
use rdb_base::value::Row;
use rdb_cells::{Cells, Index, IndexHead, Keys, NONE, Overlay, Refs, index_head};
use rdb_pages::CellRef;
use std::alloc::Global;
use std::sync::ledger::Ledger;

/// The tree index of a class whose head this is. Its allocator serves the lists that it gives; paths from the root lie inline
/// and take no memory.
#[derive(Drop)]
pub struct Tree {
    pub class: u32,
    pub head: CellRef,
    pub alloc: Global,
}

impl Tree {
    /// Returns the tree of one of a class's indexes. It takes no memory.
    pub fn of(alloc: Global, class: u32, index: u32) -> Tree
        requires class { class < max_classes }
        requires index { index < max_indexes }
        ensures class { result.class ≡ class }
        ensures head { result.head ≡ index_head_ref class index }
    {
        Tree {
            class,
            head: index_head(class, index),
            alloc,
        }
    }

    /// Lists the versions with the key, by id and serial. The only error is want of memory. Each call of `Keys::against` is a
    /// step. The cost grows with the height, and with the number of versions that are found.
    pub fn equal<C: Cells, K: Keys, L: Ledger>(
        &self,
        cells: &C,
        keys: &K,
        key: &Row,
        steps: &mut Steps<L>,
    ) -> Result<Refs, NoMemory>
        requires standing { (listed : _) × (nodes : _)
            × Lists (tree_nature self.now.class self.now.head.number) (K.meaning keys.now) (C.image cells.now) listed nodes }
        requires key { (K.meaning keys.now).fits key.now ≡ true }
        ensures { IfOk result (λ refs. WhateverListed (tree_nature self.now.class self.now.head.number) (K.meaning keys.now)
            (C.image cells.now) (λ listed nodes. refs ≡ filter (has_key (says (K.meaning keys.now) (C.image cells.now)) key.now) listed)) }
    {
        let mut refs = List::new(self.alloc);
        let root = IndexHead::root_in(cells.read(self.head), 0);
        if root == NONE {
            return Ok(refs);
        }
        gather_equal(cells, keys, key, root, MAX_LEVELS, &mut refs, steps)?;
        Ok(refs)
    }

    /// Returns the first version past the place, upwards or downwards in the order of key, id and serial, and `None` where
    /// none is past it. Each call of `Keys::against` is a step: at most seven on each level of a B-tree of minimum degree 4.
    /// It takes no memory.
    pub fn seek<C: Cells, K: Keys, L: Ledger>(
        &self,
        cells: &C,
        keys: &K,
        place: &Place,
        up: bool,
        steps: &mut Steps<L>,
    ) -> Option<CellRef>
        requires standing { (listed : _) × (nodes : _)
            × Lists (tree_nature self.now.class self.now.head.number) (K.meaning keys.now) (C.image cells.now) listed nodes }
        requires place { PlaceFits (K.meaning keys.now) place.now }
        ensures first { WhateverListed (tree_nature self.now.class self.now.head.number) (K.meaning keys.now) (C.image cells.now)
            (λ listed nodes. result ≡ first_past (says (K.meaning keys.now) (C.image cells.now)) place.now up listed) }
        ensures bound { WhateverListed (tree_nature self.now.class self.now.head.number) (K.meaning keys.now) (C.image cells.now)
            (λ listed nodes. (levels : ℕ) × AreLevels levels (length listed) × (steps.new ≤ steps.old + 7 * levels)) }
    {
        let root = IndexHead::root_in(cells.read(self.head), 0);
        seek_from(cells, keys, place, up, root, steps)
    }
}

impl Index for Tree {
    ghost use Rattle.rdb_tree.specs.Nature.{tree_nature};
    ghost use Rattle.rdb_tree.specs.TreeLaws.{tree_starts_empty, tree_lists_once, tree_has_index_cells, tree_has_few_nodes, tree_rests_on_nodes};

    ghost nature = { λ tree. tree_nature tree.class tree.head.number };

    /// The cost grows with the height, and so do the calls of `Keys::order`: at most seven on each level.
    fn put<C: Cells, K: Keys>(&self, cells: &mut Overlay<C>, keys: &K, version: CellRef) {
        crate::insert::put(self, cells, keys, version);
    }

    /// The cost grows with the height, and so do the calls of `Keys::order`: at most seven on each level.
    fn remove<C: Cells, K: Keys>(&self, cells: &mut Overlay<C>, keys: &K, version: CellRef) {
        crate::remove::remove(self, cells, keys, version);
    }

    /// The cost grows with the number of nodes.
    fn refs<C: Cells>(&self, cells: &C) -> Result<Refs, NoMemory> {
        let mut refs = List::new(self.alloc);
        let root = IndexHead::root_in(cells.read(self.head), 0);
        if root == NONE {
            return Ok(refs);
        }
        gather_versions(cells, root, MAX_LEVELS, &mut refs)?;
        Ok(refs)
    }

    ghost starts_empty = { λ tree. tree_starts_empty tree.class tree.head.number };

    ghost lists_once = { λ tree. tree_lists_once tree.class tree.head.number };

    ghost has_index_cells = { λ tree. tree_has_index_cells tree.class tree.head.number };

    ghost has_few_nodes = { λ tree. tree_has_few_nodes tree.class tree.head.number };

    ghost rests_on_nodes = { λ tree. tree_rests_on_nodes tree.class tree.head.number };
}
