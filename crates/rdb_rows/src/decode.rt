//! The rows of versions, decoded for a reply. It reads cells, and takes memory for the row.
ghost use Rattle.std.specs.Prelude.{IfOk};
ghost use Rattle.rdb_rows.specs.Decoded.{IsRowOf};
ghost use Rattle.rdb_rows.specs.Versions.{HasVersion, ForVersion};

use crate::versions::{is_tombstone, row_bytes};
use rdb_access::accessors::Accessors;
use rdb_base::list::NoMemory;
use rdb_base::value::Row;
use rdb_cells::Cells;
use rdb_pages::CellRef;
use std::alloc::Global;

/// Returns the row of the version by the accessors of its class; `None` for a tombstone. The only error is want of memory. The
/// cost grows with the row.
pub fn row_in<C: Cells>(
    alloc: Global,
    accessors: &Accessors,
    cells: &C,
    version: CellRef,
) -> Result<Option<Row>, NoMemory>
    requires { HasVersion (C.image cells.now) version.number }
    ensures { ForVersion (C.image cells.now) version.number (λ v places. IfOk result (IsRowOf accessors.now v.row)) }
{
    if is_tombstone(cells, version) {
        return Ok(None);
    }
    let bytes = row_bytes(alloc, cells, version)?;
    Ok(Some(accessors.decode(bytes.as_slice())?))
}
