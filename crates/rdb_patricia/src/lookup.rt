//! Look-ups by a text: which part of the tree has the keys that are meant. They read cells alone.
ghost use Rattle.std.specs.Prelude.{◌≡◌};
ghost use Rattle.rdb_cells.specs.Keys.{says};
ghost use Rattle.rdb_patricia.specs.Bits.{text_at};
ghost use Rattle.rdb_patricia.specs.Walks.{HasKeyedTrie, WhateverKeyed, GivesPart};

use crate::bits::{BITS_OF_BYTE, LONGEST_KEY, key_ends, parting_of_text};
use crate::how::How;
use crate::walk::{down_by_text, last_end, leaf_by_text};
use rdb_cells::{Cells, Keys, NONE};
use rdb_pages::CellRef;

/// Returns the part of the tree with the keys that are meant by a text, `NONE` where there is none.
pub fn part_by<C: Cells, K: Keys>(
    cells: &C,
    keys: &K,
    root: CellRef,
    text: &str,
    how: How,
) -> CellRef
    requires { HasKeyedTrie (K.meaning keys.now) (C.image cells.now) root.number }
    ensures { WhateverKeyed (K.meaning keys.now) (C.image cells.now) root.number (λ trie. GivesPart (C.image cells.now)
        how text.now (text_at (says (K.meaning keys.now) (C.image cells.now))) trie result.number) }
{
    match how {
        How::Exact => exact(cells, keys, root, text),
        How::Longest => longest(cells, keys, root, text),
        How::Starting => starting(cells, keys, root, text),
    }
}

/// Returns the entries of the key that is the text, `NONE` where there is none.
fn exact<C: Cells, K: Keys>(cells: &C, keys: &K, root: CellRef, text: &str) -> CellRef
    requires { HasKeyedTrie (K.meaning keys.now) (C.image cells.now) root.number }
    ensures { WhateverKeyed (K.meaning keys.now) (C.image cells.now) root.number (λ trie. GivesPart (C.image cells.now)
        How.Exact text.now (text_at (says (K.meaning keys.now) (C.image cells.now))) trie result.number) }
{
    let leaf = leaf_by_text(cells, root, text);
    match parting_of_text(cells, keys, leaf.version, text) {
        None => leaf.at,
        Some(_) => NONE,
    }
}

/// Returns the entries of the longest key with which the text begins, `NONE` where there is none. The key to which the text
/// leads shows how far the tree goes along with it: keys that end there are beginnings of the text, and those below aren't.
fn longest<C: Cells, K: Keys>(cells: &C, keys: &K, root: CellRef, text: &str) -> CellRef
    requires { HasKeyedTrie (K.meaning keys.now) (C.image cells.now) root.number }
    ensures { WhateverKeyed (K.meaning keys.now) (C.image cells.now) root.number (λ trie. GivesPart (C.image cells.now)
        How.Longest text.now (text_at (says (K.meaning keys.now) (C.image cells.now))) trie result.number) }
{
    let leaf = leaf_by_text(cells, root, text);
    match parting_of_text(cells, keys, leaf.version, text) {
        None => leaf.at,
        Some(bit) => {
            if key_ends(cells, keys, leaf.version, bit) {
                leaf.at
            } else {
                last_end(cells, root, text, bit)
            }
        }
    }
}

/// Returns the part of the tree whose keys begin with the text, `NONE` where there is none.
fn starting<C: Cells, K: Keys>(cells: &C, keys: &K, root: CellRef, text: &str) -> CellRef
    requires { HasKeyedTrie (K.meaning keys.now) (C.image cells.now) root.number }
    ensures { WhateverKeyed (K.meaning keys.now) (C.image cells.now) root.number (λ trie. GivesPart (C.image cells.now)
        How.Starting text.now (text_at (says (K.meaning keys.now) (C.image cells.now))) trie result.number) }
{
    if text.len() > LONGEST_KEY as usize {
        return NONE;
    }
    let limit = BITS_OF_BYTE * text.len() as u32;
    let spot = down_by_text(cells, root, text, limit);
    let leaf = leaf_by_text(cells, spot.at, text);
    match parting_of_text(cells, keys, leaf.version, text) {
        None => spot.at,
        Some(bit) => { if bit < limit { NONE } else { spot.at } }
    }
}
