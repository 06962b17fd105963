//! The R-tree index of a class, as all layers above use it. The head's first root leads to the root node; a root of none is that
//! of a tree without a node.
ghost use Rattle.std.specs.Prelude.{◌≡◌, ◌<◌, ℕ, IfOk};
ghost use Rattle.rdb_cells.specs.Index.{Lists, WhateverListed};
ghost use Rattle.rdb_cells.specs.Keys.{says};
ghost use Rattle.rdb_cells.specs.References.{index_head_ref, max_classes, max_indexes};
ghost use Rattle.rdb_rtree.specs.Lookups.{found_in};
ghost use Rattle.rdb_rtree.specs.Nature.{rtree_nature};

use crate::lookup::{gather_boxes, gather_versions};
use crate::node::node_at;
use rdb_base::list::{List, NoMemory};
use rdb_base::value::Rect;
use rdb_cells::{Cells, Index, IndexHead, Keys, NONE, Overlay, Refs, index_head};
use rdb_pages::CellRef;
use std::alloc::Global;

/// The R-tree index of a class whose head this is. Its allocator serves the lists that it gives.
#[derive(Drop)]
pub struct Rtree {
    pub class: u32,
    pub head: CellRef,
    pub alloc: Global,
}

impl Rtree {
    /// Returns the R-tree of one of a class's indexes. It takes no memory.
    pub fn of(alloc: Global, class: u32, index: u32) -> Rtree
        requires class { class < max_classes }
        requires index { index < max_indexes }
        ensures class { result.class ≡ class }
        ensures head { result.head ≡ index_head_ref class index }
    {
        Rtree {
            class,
            head: index_head(class, index),
            alloc,
        }
    }

    /// Lists the versions whose box lies in the rectangle, or overlaps it, edges included. The only error is want of memory. The
    /// cost grows with the number of nodes whose box overlaps the rectangle: no other one is read, but the root.
    pub fn boxes<C: Cells, K: Keys>(
        &self,
        cells: &C,
        keys: &K,
        rect: &Rect,
        inside: bool,
    ) -> Result<Refs, NoMemory>
        requires { (listed : _) × (nodes : _)
            × Lists (rtree_nature self.now.class self.now.head.number) (K.meaning keys.now) (C.image cells.now) listed nodes }
        ensures { IfOk result (λ refs. WhateverListed (rtree_nature self.now.class self.now.head.number) (K.meaning keys.now)
            (C.image cells.now) (λ listed nodes.
            refs ≡ found_in (says (K.meaning keys.now) (C.image cells.now)) rect.now inside listed)) }
    {
        let mut refs = List::new(self.alloc);
        let root = IndexHead::root_in(cells.read(self.head), 0);
        if root == NONE {
            return Ok(refs);
        }
        let level = node_at(cells, root).level;
        gather_boxes(cells, keys, root, level, rect, inside, &mut refs)?;
        Ok(refs)
    }
}

impl Index for Rtree {
    ghost use Rattle.rdb_rtree.specs.Nature.{rtree_nature};
    ghost use Rattle.rdb_rtree.specs.RtreeLaws.{rtree_starts_empty, rtree_lists_once, rtree_has_index_cells, rtree_has_few_nodes, rtree_rests_on_nodes};

    ghost nature = { λ tree. rtree_nature tree.class tree.head.number };

    /// The cost grows with the height.
    fn put<C: Cells, K: Keys>(&self, cells: &mut Overlay<C>, keys: &K, version: CellRef) {
        crate::insert::put(self, cells, keys, version);
    }

    /// The cost grows with the number of nodes whose box covers the version's.
    fn remove<C: Cells, K: Keys>(&self, cells: &mut Overlay<C>, keys: &K, version: CellRef) {
        crate::remove::remove(self, cells, keys, version);
    }

    /// The cost grows with the number of nodes.
    fn refs<C: Cells>(&self, cells: &C) -> Result<Refs, NoMemory> {
        let mut refs = List::new(self.alloc);
        let root = IndexHead::root_in(cells.read(self.head), 0);
        if root == NONE {
            return Ok(refs);
        }
        let level = node_at(cells, root).level;
        gather_versions(cells, root, level, &mut refs)?;
        Ok(refs)
    }

    ghost starts_empty = { λ tree. rtree_starts_empty tree.class tree.head.number };

    ghost lists_once = { λ tree. rtree_lists_once tree.class tree.head.number };

    ghost has_index_cells = { λ tree. rtree_has_index_cells tree.class tree.head.number };

    ghost has_few_nodes = { λ tree. rtree_has_few_nodes tree.class tree.head.number };

    ghost rests_on_nodes = { λ tree. rtree_rests_on_nodes tree.class tree.head.number };
}
