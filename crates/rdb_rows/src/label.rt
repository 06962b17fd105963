//! What a version says of itself beside its row.

use rdb_base::identity::Stamp;
use rdb_pages::CellRef;

/// The label of a version.
#[derive(Clone, Copy, Debug, PartialEq, Eq)]
pub struct Label {
    pub class: u32,
    /// The object's.
    pub id: u64,
    /// The version's own number, which no other version of the region ever has.
    pub serial: u64,
    pub stamp: Stamp,
    /// The next older version of the object; `NONE` where there is none.
    pub older: CellRef,
}
