//! Which bucket of a hash index a hash belongs to. There are 15 tables of 15 buckets, and a bucket has the hashes that leave
//! its number when they are divided by the number of buckets.
ghost use Rattle.std.specs.Prelude.{◌≡◌, ◌<◌};
ghost use Rattle.rdb_cells.specs.HeadFormat.{index_roots};
ghost use Rattle.rdb_cells.specs.HashFormat.{table_buckets};
ghost use Rattle.rdb_hash.specs.Shape.{bucket_of, bucket_number};

use rdb_cells::{INDEX_ROOTS, TABLE_BUCKETS};

/// How many buckets an index has.
const BUCKETS: usize = INDEX_ROOTS * TABLE_BUCKETS;

/// The place of a bucket: of its table in the head, and its own in the table.
#[derive(Clone, Copy)]
pub struct Bucket {
    pub table: usize,
    pub place: usize,
}

impl Bucket {
    /// Returns the bucket of a hash.
    pub fn of(hash: u32) -> Bucket
        ensures table { result.table < index_roots }
        ensures place { result.place < table_buckets }
        ensures number { bucket_number result.table result.place ≡ bucket_of hash }
    {
        let number = hash as usize % BUCKETS;
        Bucket {
            table: number / TABLE_BUCKETS,
            place: number % TABLE_BUCKETS,
        }
    }
}
