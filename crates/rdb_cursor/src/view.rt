//! A class as one reader sees it: of each object the version that it is shown. It reads cells, and takes memory for rows alone.
ghost use Rattle.std.specs.Prelude.{◌≡◌, ◌<◌, ◌↔◌, IsTrue, IfOk, Some, true, false, length};
ghost use Rattle.std.specs.Option.{option_map, option_map_or};
ghost use Rattle.rdb_model.specs.Index.{has_key};
ghost use Rattle.rdb_rows.specs.Versions.{HasVersion, ForVersion};
ghost use Rattle.rdb_sight.specs.Versions.{counted, chain_of};
ghost use Rattle.rdb_store.specs.Shapes.{index_at, nature_of_class};
ghost use Rattle.rdb_store.specs.Stored.{HasHeader, HasRowAt};
ghost use Rattle.rdb_cursor.specs.Seeks.{CanSeekFrom};
ghost use Rattle.rdb_cursor.specs.Views.{CanLook, OfObjects, BeginsChain, WhateverChain, IsIndexAt, HasRow, IsOf, IsIdIfShown};
ghost use Rattle.rdb_cursor.specs.Views.{row_of, version_of, ref_shown, sighted, better_of};

use crate::marks::{Marks, Reader};
use rdb_base::identity::Stamp;
use rdb_base::list::NoMemory;
use rdb_base::value::Row;
use rdb_cells::{Cells, Keys, LAST_HEAD, NONE};
use rdb_pages::CellRef;
use rdb_rows::{id_in, is_tombstone, older_in, stamp_in};
use rdb_sight::{counted, is_better};
use rdb_store::{ClassStore, KeyedIndex};

/// A class, its cells, and who reads them.
#[derive(Drop)]
pub(crate) struct View<'a, C: Cells, M: Marks> {
    pub(crate) class: &'a ClassStore,
    pub(crate) cells: &'a C,
    pub(crate) marks: &'a M,
    pub(crate) reader: Reader,
}

impl<'a, C: Cells, M: Marks> View<'a, C, M> {
    /// Lends the index at a place of the class, with its keys.
    pub(crate) fn index(&self, place: usize) -> &KeyedIndex
        requires { place < length self.now.class.now.indexes }
        ensures { IsIndexAt self.now.class.now place result.now }
    {
        &self.class.indexes()[place]
    }

    /// Returns a version's stamp as the reader counts it.
    fn stamp(&self, version: CellRef) -> Stamp
        requires { HasVersion (C.image self.now.cells.now) version.number }
        ensures { ForVersion (C.image self.now.cells.now) version.number (λ v places.
            result ≡ counted (M.marked self.now.marks.now) v.label.stamp) }
    {
        let stamp = stamp_in(self.cells, version);
        match stamp {
            Stamp::By(tx) => counted(stamp, self.marks.mark(tx)),
            Stamp::Done(_) => stamp,
        }
    }

    /// Returns the better for the reader of two versions, each with its stamp, where the first is the best so far, if there is one.
    fn better_of(
        &self,
        best: Option<(CellRef, Stamp)>,
        other: (CellRef, Stamp),
    ) -> Option<(CellRef, Stamp)>
        ensures { result ≡ better_of self.now.reader best other }
    {
        let before = match best {
            Some((_, stamp)) => Some(stamp),
            None => None,
        };
        if is_better(before, other.1, self.reader.snapshot, self.reader.tx) {
            Some(other)
        } else {
            best
        }
    }

    /// Returns the version that the reader sees among those from the newest of an object on, tombstone or not, with its stamp.
    fn best_from(&self, newest: CellRef) -> Option<(CellRef, Stamp)>
        requires { BeginsChain self.now.class.now (C.image self.now.cells.now) newest }
        ensures { WhateverChain self.now.class.now (C.image self.now.cells.now) newest (λ chain.
            result ≡ option_map (sighted (M.marked self.now.marks.now))
            (version_of (M.marked self.now.marks.now) self.now.reader chain)) }
    {
        self.cells.bounded();
        let mut best = None;
        let mut at = newest;
        for _ in 0..LAST_HEAD {
            if at == NONE {
                return best;
            }
            best = self.better_of(best, (at, self.stamp(at)));
            at = older_in(self.cells, at);
        }
        best
    }

    /// Returns the version that the reader is shown among those from the newest of an object on: the one that it sees, unless that is
    /// a tombstone. The cost grows with their number.
    pub(crate) fn seen_from(&self, newest: CellRef) -> Option<CellRef>
        requires { BeginsChain self.now.class.now (C.image self.now.cells.now) newest }
        ensures { WhateverChain self.now.class.now (C.image self.now.cells.now) newest (λ chain.
            result ≡ ref_shown (M.marked self.now.marks.now) self.now.reader chain) }
    {
        let (version, _) = self.best_from(newest)?;
        if is_tombstone(self.cells, version) {
            None
        } else {
            Some(version)
        }
    }

    /// Returns the version that the reader is shown of the object with this id. The cost is that of a find among the class's
    /// objects, and grows with the number of the object's versions.
    pub(crate) fn seen(&self, id: u64) -> Option<CellRef>
        requires { CanLook self.now.class.now (C.image self.now.cells.now) (C.class_of self.now.cells.now) }
        ensures { OfObjects self.now.class.now (C.image self.now.cells.now) (C.class_of self.now.cells.now) (λ objects.
            result ≡ ref_shown (M.marked self.now.marks.now) self.now.reader (chain_of objects id)) }
    {
        self.seen_from(self.class.objects().newest_version(self.cells, id)?)
    }

    /// Returns the id of the object that a version is of.
    pub(crate) fn id(&self, version: CellRef) -> u64
        requires look { CanLook self.now.class.now (C.image self.now.cells.now) (C.class_of self.now.cells.now) }
        requires version { OfObjects self.now.class.now (C.image self.now.cells.now) (C.class_of self.now.cells.now) (λ objects.
            HasHeader objects version.number) }
        ensures { OfObjects self.now.class.now (C.image self.now.cells.now) (C.class_of self.now.cells.now) (λ objects.
            IsOf objects version result) }
    {
        id_in(self.cells, version)
    }

    /// Returns the id of a version's object, if the reader is shown that version of it.
    pub(crate) fn id_if_seen(&self, version: CellRef) -> Option<u64>
        requires look { CanLook self.now.class.now (C.image self.now.cells.now) (C.class_of self.now.cells.now) }
        requires version { OfObjects self.now.class.now (C.image self.now.cells.now) (C.class_of self.now.cells.now) (λ objects.
            HasHeader objects version.number) }
        ensures { OfObjects self.now.class.now (C.image self.now.cells.now) (C.class_of self.now.cells.now)
            (IsIdIfShown (M.marked self.now.marks.now) self.now.reader version result) }
    {
        let id = self.id(version);
        if self.seen(id) == Some(version) {
            Some(id)
        } else {
            None
        }
    }

    /// Returns whether the reader is shown a row with this key of the object with this id.
    pub(crate) fn shows(&self, index: usize, id: u64, key: &Row) -> bool
        requires look { CanLook self.now.class.now (C.image self.now.cells.now) (C.class_of self.now.cells.now) }
        requires index { index < length self.now.class.now.indexes }
        requires key { ((nature_of_class self.now.class.now).at index).keys.fits key.now ≡ true }
        ensures { OfObjects self.now.class.now (C.image self.now.cells.now) (C.class_of self.now.cells.now) (λ objects.
            result ≡ option_map_or (has_key (index_at self.now.class.now index).fields key.now)
            (row_of (M.marked self.now.marks.now) self.now.reader (chain_of objects id)) false) }
    {
        match self.seen(id) {
            Some(version) => self.index(index).keys.same(self.cells, version, key),
            None => false,
        }
    }

    /// Returns the row of a version that isn't a tombstone. The only error is want of memory.
    pub(crate) fn row(&self, version: CellRef) -> Result<Row, NoMemory>
        requires look { CanLook self.now.class.now (C.image self.now.cells.now) (C.class_of self.now.cells.now) }
        requires row { OfObjects self.now.class.now (C.image self.now.cells.now) (C.class_of self.now.cells.now) (λ objects.
            HasRowAt objects version.number) }
        ensures { OfObjects self.now.class.now (C.image self.now.cells.now) (C.class_of self.now.cells.now) (λ objects.
            IfOk result (HasRow objects version)) }
    {
        match self.class.row_in(self.cells, version)? {
            Some(row) => Ok(row),
            None => unreachable!(),
        }
    }
}
