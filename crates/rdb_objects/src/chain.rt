//! The chain of an object's versions: each header leads to the next older one. It reads headers alone, and writes nothing.
ghost use Rattle.rdb_objects.specs.Chains.{IsBehind, IsNewer};

use rdb_cells::{Cells, LAST_HEAD, VersionHeader};
use rdb_pages::CellRef;

/// Finds the version in a chain that leads to another. The cost grows with the number of versions that are newer.
pub fn newer_than<C: Cells>(cells: &C, newest: CellRef, version: CellRef) -> CellRef
    requires { IsBehind (C.image cells.now) newest version }
    ensures { IsNewer (C.image cells.now) newest version result }
{
    cells.bounded();
    let mut newer = newest;
    for _ in 0..LAST_HEAD {
        let older = VersionHeader::older_in(cells.read(newer));
        if older == version {
            return newer;
        }
        newer = older;
    }
    unreachable!()
}
