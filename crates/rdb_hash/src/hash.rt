//! The hash index of a class.
//!
//! | Cell            | Leads to                                                          |
//! |-----------------|-------------------------------------------------------------------|
//! | the index head  | the tables, each in a cell while one of its buckets has an entry  |
//! | a table         | the first entry of each of its buckets                            |
//! | an entry        | its version, and the next entry of its bucket                     |
ghost use Rattle.std.specs.Prelude.{◌≡◌, ◌≢◌, ◌==◌, ◌+◌, ◌<◌, ◌≤◌, length, IfOk, OnOk, true};
ghost use Rattle.std.specs.List.{list_all};
ghost use Rattle.rdb_cells.specs.HashFormat.{table_buckets};
ghost use Rattle.rdb_cells.specs.HeadFormat.{index_roots};
ghost use Rattle.rdb_cells.specs.References.{index_head_ref, max_classes, max_indexes};
ghost use Rattle.rdb_cells.specs.Parts.{hash_part};
ghost use Rattle.rdb_cells.specs.Words.{no_ref};
ghost use Rattle.rdb_cells.specs.Work.{work, reading, HasLeft};
ghost use Rattle.rdb_hash.specs.Changes.{IsPutHashed, IsRemovedByAny, HasRoot, IsBucketOf, IsIn};
ghost use Rattle.rdb_hash.specs.Lookup.{StandsBy, IsFound};
ghost use Rattle.rdb_hash.specs.Shape.{hash_nature};
ghost use Rattle.rdb_hash.specs.Walks.{HasTables, IsFirst, ListsTable};

use crate::bucket::Bucket;
use crate::chain::{Found, find, gather, list};
use rdb_base::list::{List, NoMemory};
use rdb_base::value::Row;
use rdb_cells::{
    Cells, HashEntry, HashTable, INDEX_ROOTS, Index, IndexHead, Keys, NONE, Overlay, Refs,
    TABLE_BUCKETS, index_head,
};
use rdb_pages::{Cell, CellRef};
use std::alloc::Global;

/// The hash index with this head. It lists each version in the bucket of its key's hash, the newest entry first.
#[derive(Drop)]
pub struct Hash {
    pub class: u32,
    pub head: CellRef,
    pub alloc: Global,
}

impl Hash {
    /// Returns the hash index with that number of the class. It takes no memory; answers are made with the allocator.
    pub fn of(alloc: Global, class: u32, index: u32) -> Hash
        requires class { class < max_classes }
        requires index { index < max_indexes }
        ensures { result ≡ record { class = class; head = index_head_ref class index; alloc = alloc } }
    {
        Hash {
            class,
            head: index_head(class, index),
            alloc,
        }
    }

    /// Returns the listed versions whose key is the key, each once, by reference. It looks at one bucket: the cost grows
    /// with the number of its entries, which is that of all versions divided by 225 where the hashes spread evenly. The only
    /// error is want of memory.
    pub fn equal<C: Cells, K: Keys>(&self, cells: &C, keys: &K, key: &Row) -> Result<Refs, NoMemory>
        requires stands { StandsBy (hash_nature self.now.class self.now.head.number) (K.meaning keys.now) (C.image cells.now) }
        requires key { (K.meaning keys.now).fits key.now ≡ true }
        ensures { IfOk result (IsFound (hash_nature self.now.class self.now.head.number) (K.meaning keys.now) (C.image cells.now) key.now) }
    {
        let hash = keys.hash_of(key);
        let first = self.first_of(cells, Bucket::of(hash));
        let mut found = Vec::new(self.alloc);
        gather(cells, keys, first, key, hash, &mut found)?;
        found.sort_unstable();
        List::from_slice(self.alloc, found.as_slice())
    }

    /// Returns the first entry of a bucket, `NONE` where it has none.
    fn first_of<C: Cells>(&self, cells: &C, bucket: Bucket) -> CellRef
        requires tables { HasTables (C.image cells.now) self.now.head.number }
        requires table { bucket.table < index_roots }
        requires place { bucket.place < table_buckets }
        ensures { IsFirst (C.image cells.now) self.now.head.number bucket.table bucket.place result.number }
    {
        let table = IndexHead::root_in(cells.read(self.head), bucket.table);
        if table == NONE {
            return NONE;
        }
        HashTable::bucket_in(cells.read(table), bucket.place)
    }

    /// Appends the versions of a table, bucket by bucket.
    fn list_table<C: Cells>(&self, cells: &C, table: usize, refs: &mut Refs) -> Result<(), NoMemory>
        requires tables { HasTables (C.image cells.now) self.now.head.number }
        requires table { table < index_roots }
        ensures { OnOk result (ListsTable (C.image cells.now) self.now.head.number table refs.old refs.new) }
    {
        for place in 0..TABLE_BUCKETS {
            let first = self.first_of(cells, Bucket { table, place });
            list(cells, first, refs)?;
        }
        Ok(())
    }

    /// Makes a table with the entry alone. The entry takes the lower cell.
    fn put_in_new_table<C: Cells>(
        &self,
        cells: &mut Overlay<C>,
        bucket: Bucket,
        version: CellRef,
        hash: u32,
    )
        requires tables { HasTables (reading (work C.Cells cells.old)) self.now.head.number }
        requires root { HasRoot (reading (work C.Cells cells.old)) self.now.head.number bucket.table no_ref }
        requires bucket { IsBucketOf bucket hash }
        requires places { length cells.old.plan.pairs + 50 ≤ cells.old.plan.room }
        requires free { HasLeft (work C.Cells cells.old) hash_part }
        ensures put { IsPutHashed (hash_nature self.now.class self.now.head.number)
            (work C.Cells cells.old) (work C.Cells cells.new) version hash }
        ensures below { (cells.new.cells ≡ cells.old.cells) × (cells.new.class ≡ cells.old.class) }
    {
        let mut head = IndexHead::of_cell(cells.planned(self.head));
        let place = cells.take();
        let table = cells.take();
        let mut buckets = [NONE; TABLE_BUCKETS];
        buckets[bucket.place] = place;
        cells.put(table, HashTable { buckets }.to_cell());
        let entry = HashEntry {
            next: NONE,
            version,
            hash,
        };
        cells.put(place, entry.to_cell());
        head.roots[bucket.table] = table;
        cells.put(self.head, head.to_cell());
    }

    /// Puts the entry first into its bucket of a table.
    fn put_in_table<C: Cells>(
        &self,
        cells: &mut Overlay<C>,
        table: CellRef,
        bucket: Bucket,
        version: CellRef,
        hash: u32,
    )
        requires tables { HasTables (reading (work C.Cells cells.old)) self.now.head.number }
        requires root { HasRoot (reading (work C.Cells cells.old)) self.now.head.number bucket.table table }
        requires some { table.number ≢ 0 }
        requires bucket { IsBucketOf bucket hash }
        requires places { length cells.old.plan.pairs + 50 ≤ cells.old.plan.room }
        requires free { HasLeft (work C.Cells cells.old) hash_part }
        ensures put { IsPutHashed (hash_nature self.now.class self.now.head.number)
            (work C.Cells cells.old) (work C.Cells cells.new) version hash }
        ensures below { (cells.new.cells ≡ cells.old.cells) × (cells.new.class ≡ cells.old.class) }
    {
        let mut buckets = HashTable::of_cell(cells.planned(table)).buckets;
        let place = cells.take();
        let entry = HashEntry {
            next: buckets[bucket.place],
            version,
            hash,
        };
        cells.put(place, entry.to_cell());
        buckets[bucket.place] = place;
        cells.put(table, HashTable { buckets }.to_cell());
    }

    /// Takes the entry out from behind another one, which leads past it then.
    fn take_behind<C: Cells>(
        &self,
        cells: &mut Overlay<C>,
        bucket: Bucket,
        version: CellRef,
        found: Found,
    )
        requires tables { HasTables (reading (work C.Cells cells.old)) self.now.head.number }
        requires found { IsIn (reading (work C.Cells cells.old)) self.now.head.number bucket.table bucket.place version found }
        requires behind { found.before.number ≢ 0 }
        requires table { bucket.table < index_roots }
        requires place { bucket.place < table_buckets }
        requires places { length cells.old.plan.pairs + 50 ≤ cells.old.plan.room }
        ensures removed { IsRemovedByAny (hash_nature self.now.class self.now.head.number)
            (work C.Cells cells.old) (work C.Cells cells.new) version }
        ensures below { (cells.new.cells ≡ cells.old.cells) × (cells.new.class ≡ cells.old.class) }
    {
        let entry = HashEntry::of_cell(cells.planned(found.before));
        cells.put(found.at, Cell::ZERO);
        let led = HashEntry {
            next: found.next,
            version: entry.version,
            hash: entry.hash,
        };
        cells.put(found.before, led.to_cell());
    }

    /// Takes the first entry out of its bucket, and gives the table's cell back with the last entry of all its buckets.
    fn take_first<C: Cells>(
        &self,
        cells: &mut Overlay<C>,
        bucket: Bucket,
        version: CellRef,
        found: Found,
    )
        requires tables { HasTables (reading (work C.Cells cells.old)) self.now.head.number }
        requires found { IsIn (reading (work C.Cells cells.old)) self.now.head.number bucket.table bucket.place version found }
        requires first { found.before.number ≡ 0 }
        requires table { bucket.table < index_roots }
        requires place { bucket.place < table_buckets }
        requires places { length cells.old.plan.pairs + 50 ≤ cells.old.plan.room }
        ensures removed { IsRemovedByAny (hash_nature self.now.class self.now.head.number)
            (work C.Cells cells.old) (work C.Cells cells.new) version }
        ensures below { (cells.new.cells ≡ cells.old.cells) × (cells.new.class ≡ cells.old.class) }
    {
        let mut head = IndexHead::of_cell(cells.planned(self.head));
        let table = head.roots[bucket.table];
        let mut buckets = HashTable::of_cell(cells.planned(table)).buckets;
        cells.put(found.at, Cell::ZERO);
        buckets[bucket.place] = found.next;
        if are_none(&buckets) {
            cells.put(table, Cell::ZERO);
            head.roots[bucket.table] = NONE;
            cells.put(self.head, head.to_cell());
        } else {
            cells.put(table, HashTable { buckets }.to_cell());
        }
    }
}

/// Returns whether none of the buckets has an entry.
fn are_none(buckets: &[CellRef]) -> bool
    ensures { result ≡ list_all (λ r. r.number == 0) buckets.now }
{
    buckets.iter().all(|first| *first == NONE)
}

impl Index for Hash {
    ghost use Rattle.rdb_hash.specs.Shape.{hash_nature};
    ghost use Rattle.rdb_hash.specs.HashLaws.{hash_starts_empty, hash_lists_once, hash_has_index_cells};
    ghost use Rattle.rdb_hash.specs.HashLaws.{hash_has_few_nodes, hash_rests_on_nodes};

    ghost nature = { λ hash. hash_nature hash.class hash.head.number };

    /// The cost is that of a hash, at most two takes and three puts.
    fn put<C: Cells, K: Keys>(&self, cells: &mut Overlay<C>, keys: &K, version: CellRef) {
        let hash = keys.hash(&*cells, version);
        let bucket = Bucket::of(hash);
        let table = IndexHead::root_in(cells.planned(self.head), bucket.table);
        if table == NONE {
            self.put_in_new_table(cells, bucket, version, hash);
        } else {
            self.put_in_table(cells, table, bucket, version, hash);
        }
    }

    /// The cost grows with the number of entries of the version's bucket.
    fn remove<C: Cells, K: Keys>(&self, cells: &mut Overlay<C>, keys: &K, version: CellRef) {
        let bucket = Bucket::of(keys.hash(&*cells, version));
        let first = self.first_of(&*cells, bucket);
        let found = find(&*cells, first, version);
        if found.before == NONE {
            self.take_first(cells, bucket, version, found);
        } else {
            self.take_behind(cells, bucket, version, found);
        }
    }

    /// The cost grows with the number of entries, beside a look at each of the 225 buckets.
    fn refs<C: Cells>(&self, cells: &C) -> Result<Refs, NoMemory> {
        let mut refs = List::new(self.alloc);
        for table in 0..INDEX_ROOTS {
            self.list_table(cells, table, &mut refs)?;
        }
        Ok(refs)
    }

    ghost starts_empty = { λ hash. hash_starts_empty hash.class hash.head.number };

    ghost lists_once = { λ hash. hash_lists_once hash.class hash.head.number };

    ghost has_index_cells = { λ hash. hash_has_index_cells hash.class hash.head.number };

    ghost has_few_nodes = { λ hash. hash_has_few_nodes hash.class hash.head.number };

    ghost rests_on_nodes = { λ hash. hash_rests_on_nodes hash.class hash.head.number };
}
