//! Walks down the tree and along the entries of a key. They read cells alone.
ghost use Rattle.std.specs.Prelude.{◌≡◌, ◌==◌, ◌&&◌, ◌%◌, ◌↔◌, [], OnOk, IfNone, IfSome, IsTrue, cond};
ghost use Rattle.rdb_cells.specs.Keys.{Sayings, says};
ghost use Rattle.rdb_cells.specs.PatriciaFormat.{branch_in, patricia_entry_in};
ghost use Rattle.rdb_cells.specs.Words.{IsOfKind};
ghost use Rattle.rdb_patricia.specs.Bits.{bit_at, bits_of_byte, text_at, HasTextKey};
ghost use Rattle.rdb_patricia.specs.Walks.{HasPart, HasTrie, WhateverTrie, ListsBelow, IsNext, IsReached, HasEnded};
ghost use Rattle.rdb_patricia.specs.Walks.{HasShapedTrie, IsKeyed, IsLeaf, HasEntry, WhateverEntries, IsAt};

use crate::bits::{ALL_BITS, BITS_OF_BYTE, key_bit, text_bit};
use rdb_base::list::NoMemory;
use rdb_cells::{Cells, Keys, Kind, LAST_PAGE_CELL, NONE, PatriciaBranch, PatriciaEntry, Refs};
use rdb_pages::{Cell, CellRef};
use std::alloc::Global;

/// What a cell of the tree says.
#[derive(Clone, Copy)]
pub enum Node {
    Branch(PatriciaBranch),
    Entry(PatriciaEntry),
}

/// Where a part of the tree hangs: below a side of its parent, or below the head where that is `NONE`.
#[derive(Clone, Copy)]
pub struct Spot {
    pub parent: CellRef,
    pub one_side: bool,
    pub at: CellRef,
}

/// The first entry of a key: its cell and its version.
#[derive(Clone, Copy)]
pub struct Leaf {
    pub at: CellRef,
    pub version: CellRef,
}

/// Where a version's entry stands: its cell, and those of the entries before and after it, `NONE` where there is none.
#[derive(Clone, Copy)]
pub struct Found {
    pub before: CellRef,
    pub at: CellRef,
    pub next: CellRef,
}

/// Returns whether the cell is a branch.
fn is_branch(cell: &Cell) -> bool
    ensures { IsTrue result ↔ IsOfKind cell.now Kind.PatriciaBranch }
{
    match Kind::of(cell) {
        Some(kind) => kind.number() == Kind::PatriciaBranch.number(),
        None => false,
    }
}

/// Reads a cell of the tree.
pub fn node_in(cell: &Cell) -> Node
    ensures branch { IsOfKind cell.now Kind.PatriciaBranch → result ≡ Node.Branch (branch_in cell.now) }
    ensures entry { IsOfKind cell.now Kind.PatriciaEntry → result ≡ Node.Entry (patricia_entry_in cell.now) }
{
    if is_branch(cell) {
        Node::Branch(PatriciaBranch::of_cell(cell))
    } else {
        Node::Entry(PatriciaEntry::of_cell(cell))
    }
}

/// Returns the side of a branch.
pub fn side(branch: &PatriciaBranch, one_side: bool) -> CellRef
    ensures { result ≡ cond one_side branch.now.one_side branch.now.zero_side }
{
    if one_side {
        branch.one_side
    } else {
        branch.zero_side
    }
}

/// Goes down from the root by the bits of a text, past the branches of bits below the limit. The cost grows with the number
/// of these, of which there is at most one for each bit.
pub fn down_by_text<C: Cells>(cells: &C, root: CellRef, text: &str, limit: u32) -> Spot
    requires { HasTrie (C.image cells.now) root.number }
    ensures { WhateverTrie (C.image cells.now) root.number (λ trie. IsReached (bit_at text.now) limit trie result) }
{
    let mut spot = Spot {
        parent: NONE,
        one_side: false,
        at: root,
    };
    for _ in 0..LAST_PAGE_CELL {
        let Node::Branch(branch) = node_in(cells.read(spot.at)) else {
            return spot;
        };
        if branch.bit >= limit {
            return spot;
        }
        let one_side = text_bit(text, branch.bit);
        spot = Spot {
            parent: spot.at,
            one_side,
            at: side(&branch, one_side),
        };
    }
    unreachable!()
}

/// Returns the entries to which a text leads, whether they are of that key or not. The cost is that of `down_by_text`.
pub fn leaf_by_text<C: Cells>(cells: &C, root: CellRef, text: &str) -> Leaf
    requires { HasShapedTrie (C.image cells.now) root.number }
    ensures { (said : Sayings) → WhateverTrie (C.image cells.now) root.number (λ trie.
        IsKeyed said trie → IsLeaf (bit_at text.now) trie result) }
{
    let at = down_by_text(cells, root, text, ALL_BITS).at;
    Leaf {
        at,
        version: PatriciaEntry::of_cell(cells.read(at)).version,
    }
}

/// Goes down from the root by the bits of a version's key, past the branches of bits below the limit. The cost grows with the
/// number of these.
pub fn down_by_key<C: Cells, K: Keys>(
    cells: &C,
    keys: &K,
    root: CellRef,
    version: CellRef,
    limit: u32,
) -> Spot
    requires part { HasTrie (C.image cells.now) root.number }
    requires version { HasTextKey (says (K.meaning keys.now) (C.image cells.now)) version }
    ensures { WhateverTrie (C.image cells.now) root.number (λ trie.
        IsReached (bit_at (text_at (says (K.meaning keys.now) (C.image cells.now)) version)) limit trie result) }
{
    let mut spot = Spot {
        parent: NONE,
        one_side: false,
        at: root,
    };
    for _ in 0..LAST_PAGE_CELL {
        let Node::Branch(branch) = node_in(cells.read(spot.at)) else {
            return spot;
        };
        if branch.bit >= limit {
            return spot;
        }
        let one_side = key_bit(cells, keys, version, branch.bit);
        spot = Spot {
            parent: spot.at,
            one_side,
            at: side(&branch, one_side),
        };
    }
    unreachable!()
}

/// Returns where the keys go on that end at a branch, where the way goes on to its side of 1: its side of 0, if the bit says
/// whether there is a byte. Else what it was.
fn ended(branch: &PatriciaBranch, one_side: bool, last: CellRef) -> CellRef
    ensures { result ≡ cond (one_side && (branch.now.bit % bits_of_byte == 0)) branch.now.zero_side last }
{
    if one_side && branch.bit % BITS_OF_BYTE == 0 {
        branch.zero_side
    } else {
        last
    }
}

/// Returns the entries of the last key that ends on the way down by a text, above the limit, `NONE` where there is none. The
/// cost is that of `down_by_text`.
pub fn last_end<C: Cells>(cells: &C, root: CellRef, text: &str, limit: u32) -> CellRef
    requires { HasTrie (C.image cells.now) root.number }
    ensures { WhateverTrie (C.image cells.now) root.number (λ trie. HasEnded (bit_at text.now) limit trie result.number) }
{
    let mut last = NONE;
    let mut at = root;
    for _ in 0..LAST_PAGE_CELL {
        let Node::Branch(branch) = node_in(cells.read(at)) else {
            return last;
        };
        if branch.bit >= limit {
            return last;
        }
        let one_side = text_bit(text, branch.bit);
        last = ended(&branch, one_side, last);
        at = side(&branch, one_side);
    }
    unreachable!()
}

/// Finds the version's entry among those from `first` on. The cost grows with their number.
pub fn find<C: Cells>(cells: &C, first: CellRef, version: CellRef) -> Found
    requires { HasEntry (C.image cells.now) first.number version }
    ensures { WhateverEntries (C.image cells.now) first.number version (λ chain. IsAt chain version result) }
{
    let mut before = NONE;
    let mut at = first;
    for _ in 0..LAST_PAGE_CELL {
        let entry = PatriciaEntry::of_cell(cells.read(at));
        if entry.version == version {
            return Found {
                before,
                at,
                next: entry.next,
            };
        }
        before = at;
        at = entry.next;
    }
    unreachable!()
}

/// Returns the cell to go on with: this one, or else the last of the later ones, which is taken from them.
fn next(at: CellRef, later: &mut Vec<CellRef>) -> Option<CellRef>
    ensures none { IfNone result ((at.number ≡ 0) × (later.old.items ≡ [])) }
    ensures some { IfSome result (λ r. IsNext at later.old.items r later.new.items) }
{
    if at == NONE { later.pop() } else { Some(at) }
}

/// Appends the versions below `first`, by ascending keys, and those of one key in the order of their entries. The cost grows
/// with their number. The only error is want of memory.
pub fn list<C: Cells>(
    cells: &C,
    alloc: Global,
    first: CellRef,
    refs: &mut Refs,
) -> Result<(), NoMemory>
    requires { HasPart (C.image cells.now) first.number }
    ensures { OnOk result (ListsBelow (C.image cells.now) first.number refs.old refs.new) }
{
    let mut later = Vec::new(alloc);
    let mut at = first;
    for _ in 0..LAST_PAGE_CELL {
        let Some(now) = next(at, &mut later) else {
            return Ok(());
        };
        match node_in(cells.read(now)) {
            Node::Branch(branch) => {
                later.push(branch.one_side)?;
                at = branch.zero_side;
            }
            Node::Entry(entry) => {
                refs.push(entry.version)?;
                at = entry.next;
            }
        }
    }
    Ok(())
}
