//! The node of an R-tree: the least box that covers its entries, and these: versions in a leaf, nodes above.
//!
//! | Word    | Node                                               |
//! |---------|----------------------------------------------------|
//! | 0 high  | number of entries + 256 * level, 0 being a leaf's  |
//! | 1 to 4  | the box: x1, y1, x2, y2                            |
//! | 5 to 15 | the entries                                        |
ghost use Rattle.std.specs.Prelude.{◌≡◌};
ghost use Rattle.rdb_cells.specs.RtreeFormat.{IsRtreeNode, box_in, rtree_node_cell, rtree_node_in};
ghost use Rattle.rdb_cells.specs.Words.{IsOfKind};

use crate::formats::words::{first_word, high, ref_at};
use crate::kind::Kind;
use rdb_base::value::Rect;
use rdb_pages::{Cell, CellRef};

/// The most entries of a node.
pub const RTREE_ENTRIES: usize = 11;

/// A node of an R-tree: the first `count` entries are its own.
#[derive(Clone, Copy, Debug, PartialEq, Eq)]
pub struct RtreeNode {
    pub count: u32,
    /// How many levels are below: 0 in a leaf.
    pub level: u32,
    pub cover: Rect,
    pub entries: [CellRef; RTREE_ENTRIES],
}

impl RtreeNode {
    /// Returns the cell that says this. There are at most eleven entries, and the level fits 16 bits.
    #[tactic(auto, using(crate::proofs::FormatLemmas::rtree_node_back))]
    pub fn to_cell(&self) -> Cell
        requires { IsRtreeNode self.now }
        ensures value { result ≡ rtree_node_cell self.now }
        ensures kind { IsOfKind result Kind.RtreeNode }
        ensures inverse { rtree_node_in result ≡ self.now }
    {
        Cell {
            words: [
                first_word(Kind::RtreeNode, self.count + 256 * self.level),
                self.cover.x1.cast_unsigned(),
                self.cover.y1.cast_unsigned(),
                self.cover.x2.cast_unsigned(),
                self.cover.y2.cast_unsigned(),
                self.entries[0].number,
                self.entries[1].number,
                self.entries[2].number,
                self.entries[3].number,
                self.entries[4].number,
                self.entries[5].number,
                self.entries[6].number,
                self.entries[7].number,
                self.entries[8].number,
                self.entries[9].number,
                self.entries[10].number,
            ],
        }
    }

    /// Reads a node. A cell that a node was written to gives that node.
    #[tactic(auto, using(crate::proofs::FormatLemmas::rtree_node_back))]
    pub fn of_cell(cell: &Cell) -> RtreeNode
        ensures value { result ≡ rtree_node_in cell.now }
        ensures inverse { (n : RtreeNode) → IsRtreeNode n → cell.now ≡ rtree_node_cell n → result ≡ n }
    {
        let high = high(cell);
        RtreeNode {
            count: high % 256,
            level: high / 256,
            cover: RtreeNode::cover_in(cell),
            entries: [
                ref_at(cell, 5),
                ref_at(cell, 6),
                ref_at(cell, 7),
                ref_at(cell, 8),
                ref_at(cell, 9),
                ref_at(cell, 10),
                ref_at(cell, 11),
                ref_at(cell, 12),
                ref_at(cell, 13),
                ref_at(cell, 14),
                ref_at(cell, 15),
            ],
        }
    }

    /// Reads the box alone.
    pub fn cover_in(cell: &Cell) -> Rect
        ensures { result ≡ (rtree_node_in cell.now).cover }
    {
        Rect {
            x1: cell.words[1].cast_signed(),
            y1: cell.words[2].cast_signed(),
            x2: cell.words[3].cast_signed(),
            y2: cell.words[4].cast_signed(),
        }
    }
}
