//! How many cells an operation may take.
ghost use Rattle.std.specs.Prelude.{◌≡◌, ◌<◌, ◌≤◌, length, sum_by, take};
ghost use Rattle.rdb_schema.specs.Schemas.{IsSchema};
ghost use Rattle.rdb_space.specs.Claim.{claim_of, claim_of_row, index_part, row_cells, IsOfClass};

use rdb_base::operation::Op;
use rdb_cells::{HASH_PART, PATRICIA_PART, RTREE_PART, TREE_PART};
use rdb_schema::schema::{IndexDecl, IndexKind, Schema};

/// How many bytes of a row stand in a cell.
const ROW_BYTES: u32 = 60;

/// A version's header, and its object's slot.
const HEADER_AND_SLOT: u32 = 2;

/// The claim of an operation that deletes an object: the header of its tombstone.
const TOMBSTONE_CLAIM: u32 = 1;

/// Returns the claim of an operation: the most free cells of its class that its plan takes. `bytes` is how long its row is
/// encoded, where it writes one. What only reads claims nothing. The cost grows with the number of the class's indexes.
pub fn claim_of_op(schema: &Schema, op: &Op, bytes: u32) -> u32
    requires schema { IsSchema schema.now }
    requires class { IsOfClass schema.now op.now }
    ensures { result ≡ claim_of schema.now op.now bytes }
{
    match op {
        Op::New { class, .. } | Op::Put { class, .. } => claim(schema, *class, bytes),
        Op::Del { .. } => TOMBSTONE_CLAIM,
        _ => 0,
    }
}

/// Returns the claim of an operation that makes a row of `bytes` bytes in the class: the cells of the row, a header, a slot,
/// and the part of each index. The cost grows with the number of the class's indexes.
pub fn claim(schema: &Schema, class: u32, bytes: u32) -> u32
    requires schema { IsSchema schema.now }
    requires class { class < length schema.now.classes }
    ensures { result ≡ claim_of_row schema.now class bytes }
{
    let cells = cells_of_row(bytes) + HEADER_AND_SLOT;
    cells + cells_of_indexes(schema.classes.at(class as usize).indexes.as_slice())
}

/// Returns how many cells hold a row of so many bytes.
fn cells_of_row(bytes: u32) -> u32
    ensures row { result ≡ row_cells bytes }
    ensures small { result ≤ 71582789 }
{
    bytes.div_ceil(ROW_BYTES)
}

/// Returns the most cells that a version takes in all the indexes.
fn cells_of_indexes(indexes: &[IndexDecl]) -> u32
    requires { length indexes.now ≤ 8 }
    ensures cells { result ≡ sum_by index_part indexes.now }
    ensures small { result ≤ 96 }
{
    let mut cells = 0;
    for index in indexes {
        cells += part_of(index);
    }
    cells
}

/// Returns the most cells that a version takes in the index.
fn part_of(index: &IndexDecl) -> u32
    ensures cells { result ≡ index_part index.now }
    ensures small { result ≤ 12 }
{
    match index.kind {
        IndexKind::Hash => HASH_PART,
        IndexKind::Tree => TREE_PART,
        IndexKind::Rtree => RTREE_PART,
        IndexKind::Patricia => PATRICIA_PART,
    }
}
