//! Which numbers name a cell, and which a head. Heads stand outside the pages, in a block of 16 for each class: its own head
//! first, then one for each of its indexes.
//!
//! | Numbers                | Cell                                                 |
//! |------------------------|------------------------------------------------------|
//! | 0                      | none                                                 |
//! | 1 to 1,048,576         | a page cell: 1 + 64 * page + place                   |
//! | 2,000,000 to 2,001,023 | a head: 2,000,000 + 16 * class, and + 1 + index      |
ghost use Rattle.std.specs.Prelude.{◌≡◌, ◌<◌, ◌↔◌, IsTrue};
ghost use Rattle.rdb_cells.specs.References.{IsHead, IsPageCell, class_head_ref, class_of_head, index_head_ref};
ghost use Rattle.rdb_cells.specs.References.{max_classes, max_indexes};

use rdb_pages::CellRef;

/// The reference that names no cell.
pub const NONE: CellRef = CellRef { number: 0 };

/// The highest number of a page cell. The lowest is 1.
pub const LAST_PAGE_CELL: u32 = 1_048_576;

/// The lowest number of a head.
pub const FIRST_HEAD: u32 = 2_000_000;

/// The highest number of a head.
pub const LAST_HEAD: u32 = 2_001_023;

/// How many heads stand in the block of one class.
pub const HEADS_OF_A_CLASS: u32 = 16;

/// Returns whether the reference is that of a page cell of the largest region.
pub fn is_page_cell(at: CellRef) -> bool
    ensures { IsTrue result ↔ IsPageCell at.number }
{
    at.number >= 1 && at.number <= LAST_PAGE_CELL
}

/// Returns whether the reference is that of a head.
pub fn is_head(at: CellRef) -> bool
    ensures { IsTrue result ↔ IsHead at.number }
{
    at.number >= FIRST_HEAD && at.number <= LAST_HEAD
}

/// Returns the class in whose block the head stands.
pub fn class_of_head(at: CellRef) -> u32
    requires { IsHead at.number }
    ensures class { result ≡ class_of_head at.number }
    ensures bound { result < max_classes }
{
    (at.number - FIRST_HEAD) / HEADS_OF_A_CLASS
}

/// Returns the reference of a class's head.
pub fn class_head(class: u32) -> CellRef
    requires { class < max_classes }
    ensures value { result ≡ class_head_ref class }
    ensures head { IsHead result.number }
    ensures class { class_of_head result.number ≡ class }
{
    CellRef {
        number: FIRST_HEAD + HEADS_OF_A_CLASS * class,
    }
}

/// Returns the reference of the head of one of a class's indexes.
pub fn index_head(class: u32, index: u32) -> CellRef
    requires class { class < max_classes }
    requires index { index < max_indexes }
    ensures value { result ≡ index_head_ref class index }
    ensures head { IsHead result.number }
    ensures class { class_of_head result.number ≡ class }
{
    CellRef {
        number: FIRST_HEAD + HEADS_OF_A_CLASS * class + 1 + index,
    }
}
