//! The node of a tree index. Its keys are versions in ascending order; the child before a key leads to lower ones.
//!
//! | Word    | Node                            |
//! |---------|---------------------------------|
//! | 0 high  | number of keys + 256 * leaf     |
//! | 1 to 7  | the versions                    |
//! | 8 to 15 | the children                    |
ghost use Rattle.std.specs.Prelude.{◌≡◌};
ghost use Rattle.rdb_cells.specs.TreeFormat.{IsTreeNode, tree_node_cell, tree_node_in};
ghost use Rattle.rdb_cells.specs.Words.{IsOfKind};

use crate::formats::words::{first_word, high, ref_at};
use crate::kind::Kind;
use rdb_pages::{Cell, CellRef};

/// The most keys of a node.
pub const TREE_KEYS: usize = 7;

/// The most children of a node.
pub const TREE_CHILDREN: usize = 8;

/// A node of a tree index: the first `count` versions are its keys.
#[derive(Clone, Copy, Debug, PartialEq, Eq)]
pub struct TreeNode {
    pub count: u32,
    pub leaf: bool,
    pub versions: [CellRef; TREE_KEYS],
    pub children: [CellRef; TREE_CHILDREN],
}

impl TreeNode {
    /// Returns the cell that says this. There are at most seven keys.
    #[tactic(auto, using(crate::proofs::FormatLemmas::tree_node_back))]
    pub fn to_cell(&self) -> Cell
        requires { IsTreeNode self.now }
        ensures value { result ≡ tree_node_cell self.now }
        ensures kind { IsOfKind result Kind.TreeNode }
        ensures inverse { tree_node_in result ≡ self.now }
    {
        Cell {
            words: [
                first_word(Kind::TreeNode, self.count + 256 * u32::from(self.leaf)),
                self.versions[0].number,
                self.versions[1].number,
                self.versions[2].number,
                self.versions[3].number,
                self.versions[4].number,
                self.versions[5].number,
                self.versions[6].number,
                self.children[0].number,
                self.children[1].number,
                self.children[2].number,
                self.children[3].number,
                self.children[4].number,
                self.children[5].number,
                self.children[6].number,
                self.children[7].number,
            ],
        }
    }

    /// Reads a node. A cell that a node was written to gives that node.
    #[tactic(auto, using(crate::proofs::FormatLemmas::tree_node_back))]
    pub fn of_cell(cell: &Cell) -> TreeNode
        ensures value { result ≡ tree_node_in cell.now }
        ensures inverse { (n : TreeNode) → IsTreeNode n → cell.now ≡ tree_node_cell n → result ≡ n }
    {
        let high = high(cell);
        TreeNode {
            count: high % 256,
            leaf: high / 256 == 1,
            versions: [
                ref_at(cell, 1),
                ref_at(cell, 2),
                ref_at(cell, 3),
                ref_at(cell, 4),
                ref_at(cell, 5),
                ref_at(cell, 6),
                ref_at(cell, 7),
            ],
            children: [
                ref_at(cell, 8),
                ref_at(cell, 9),
                ref_at(cell, 10),
                ref_at(cell, 11),
                ref_at(cell, 12),
                ref_at(cell, 13),
                ref_at(cell, 14),
                ref_at(cell, 15),
            ],
        }
    }
}
