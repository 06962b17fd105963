//! The words that the formats write, written out by hand from their layouts, and references at their bounds.
ghost use Rattle.std.specs.Prelude.{◌≡◌};

use crate::formats::{
    ClassHead, HashEntry, HashTable, IndexHead, ObjectSlot, PatriciaBranch, PatriciaEntry,
    ROW_CELL_BYTES, RowCell, RtreeNode, TreeNode, VersionHeader,
};
use crate::kind::Kind;
use crate::reference::{NONE, class_head, class_of_head, index_head, is_head, is_page_cell};
use rdb_base::identity::{ConnId, Stamp, TxId};
use rdb_base::value::Rect;
use rdb_pages::{Cell, CellRef};
use std::process::Abort;
use std::test::*;

fn at(number: u32) -> CellRef
    ensures { result ≡ record { number = number } }
{
    CellRef { number }
}

fn refs<const N: usize>(numbers: [u32; N]) -> [CellRef; N] {
    let mut refs = [NONE; N];
    for place in 0..N {
        refs[place] = at(numbers[place]);
    }
    refs
}

fn words_are(rt: &impl Abort, cell: &Cell, words: [u32; 16]) {
    assert_eq!(rt; *cell, Cell { words });
}

#[test]
fn heads_stand_past_the_page_cells(rt: HostRuntime) {
    for (number, page_cell, head) in [
        (0, false, false),
        (1, true, false),
        (1_048_576, true, false),
        (1_048_577, false, false),
        (1_999_999, false, false),
        (2_000_000, false, true),
        (2_001_023, false, true),
        (2_001_024, false, false),
    ] {
        assert_eq!(rt;
            (is_page_cell(at(number)), is_head(at(number))),
            (page_cell, head),
            "number {number}"
        );
    }
    for (class, index, first, second) in [
        (0, 0, 2_000_000, 2_000_001),
        (1, 2, 2_000_016, 2_000_019),
        (63, 14, 2_001_008, 2_001_023),
    ] {
        assert!(rt; class < 64 && index < 15);
        assert_eq!(rt;
            (class_head(class), index_head(class, index)),
            (at(first), at(second))
        );
        assert_eq!(rt;
            (
                class_of_head(class_head(class)),
                class_of_head(index_head(class, index))
            ),
            (class, class)
        );
    }
}

#[test]
fn the_first_word_says_the_kind(rt: HostRuntime) {
    for (word, kind) in [
        (0, Some(Kind::Free)),
        (258, Some(Kind::Version)),
        (0xffffff0b, Some(Kind::IndexHead)),
        (12, None),
    ] {
        let mut cell = Cell::ZERO;
        cell.words[0] = word;
        assert_eq!(rt; Kind::of(&cell), kind, "word {word}");
    }
}

#[test]
fn a_header_at_its_edges(rt: HostRuntime) {
    let open = VersionHeader {
        older: at(0x00ffffff),
        class: 255,
        tombstone: true,
        id: 0xffff_ffff_0000_0001,
        first_row: NONE,
        row_length: 0,
        stamp: Stamp::By(TxId {
            conn: ConnId {
                slot: 31,
                serial: 0x0000_0004_0000_0003,
            },
            number: 0x0000_0006_0000_0005,
        }),
        serial: 0x0000_0008_0000_0007,
    };
    let cell = open.to_cell();
    words_are(
        &rt,
        &cell,
        [
            0xffffff02, 0x000101ff, 1, 0xffffffff, 0, 0, 1, 5, 6, 31, 3, 4, 7, 8, 0, 0,
        ],
    );
    assert_eq!(rt; VersionHeader::of_cell(&cell), open);
    let done = VersionHeader::with_stamp(&cell, Stamp::Done(0x0000_000a_0000_0009));
    words_are(
        &rt,
        &done,
        [
            0xffffff02, 0x000101ff, 1, 0xffffffff, 0, 0, 2, 9, 10, 0, 0, 0, 7, 8, 0, 0,
        ],
    );
    assert_eq!(rt;
        VersionHeader::stamp_in(&done),
        Stamp::Done(0x0000_000a_0000_0009)
    );
    words_are(
        &rt,
        &VersionHeader::with_older(&done, at(5)),
        [
            0x0502, 0x000101ff, 1, 0xffffffff, 0, 0, 2, 9, 10, 0, 0, 0, 7, 8, 0, 0,
        ],
    );
}

#[test]
fn slots_and_heads_at_their_edges(rt: HostRuntime) {
    let slot = ObjectSlot {
        newest: at(7),
        id: 0x0000_0002_ffff_ffff,
        children: refs([1, 0, 3, 4, 5, 6, 7, 1_048_576]),
    };
    words_are(
        &rt,
        &slot.to_cell(),
        [
            0x0703, 0xffffffff, 2, 0, 1, 0, 3, 4, 5, 6, 7, 1_048_576, 0, 0, 0, 0,
        ],
    );
    assert_eq!(rt; ObjectSlot::of_cell(&slot.to_cell()), slot);
    let class = ClassHead { root: at(9) };
    words_are(
        &rt,
        &class.to_cell(),
        [10, 9, 0, 0, 0, 0, 0, 0, 0, 0, 0, 0, 0, 0, 0, 0],
    );
    assert_eq!(rt; ClassHead::of_cell(&class.to_cell()), class);
    words_are(
        &rt,
        &IndexHead::rooted(at(9)).to_cell(),
        [11, 9, 0, 0, 0, 0, 0, 0, 0, 0, 0, 0, 0, 0, 0, 0],
    );
    words_are(
        &rt,
        &IndexHead::empty().to_cell(),
        [11, 0, 0, 0, 0, 0, 0, 0, 0, 0, 0, 0, 0, 0, 0, 0],
    );
}

#[test]
fn a_row_cell_is_filled_with_zeros(rt: HostRuntime) {
    let part = RowCell::holding(&[1, 2, 3, 4, 255], at(0x00ffffff));
    words_are(
        &rt,
        &part.to_cell(),
        [
            0xffffff01, 0x04030201, 255, 0, 0, 0, 0, 0, 0, 0, 0, 0, 0, 0, 0, 0,
        ],
    );
    assert_eq!(rt; RowCell::of_cell(&part.to_cell()), part);
    for (place, byte) in [(0, 1), (3, 4), (4, 255), (5, 0), (59, 0)] {
        assert!(rt; place < ROW_CELL_BYTES);
        assert_eq!(rt;
            RowCell::byte_in(&part.to_cell(), place),
            byte,
            "place {place}"
        );
    }
}

#[test]
fn nodes_of_indexes_at_their_edges(rt: HostRuntime) {
    let leaf = TreeNode {
        count: 7,
        leaf: true,
        versions: refs([1, 2, 3, 4, 5, 6, 7]),
        children: refs([8, 9, 10, 11, 12, 13, 14, 15]),
    };
    words_are(
        &rt,
        &leaf.to_cell(),
        [
            0x00010706, 1, 2, 3, 4, 5, 6, 7, 8, 9, 10, 11, 12, 13, 14, 15,
        ],
    );
    assert_eq!(rt; TreeNode::of_cell(&leaf.to_cell()), leaf);
    let node = RtreeNode {
        count: 11,
        level: 2,
        cover: Rect {
            x1: -2_147_483_648,
            y1: -1,
            x2: 0,
            y2: 2_147_483_647,
        },
        entries: refs([5, 6, 7, 8, 9, 10, 11, 12, 13, 14, 15]),
    };
    words_are(
        &rt,
        &node.to_cell(),
        [
            0x00020b07, 0x80000000, 0xffffffff, 0, 0x7fffffff, 5, 6, 7, 8, 9, 10, 11, 12, 13, 14,
            15,
        ],
    );
    assert_eq!(rt; RtreeNode::of_cell(&node.to_cell()), node);
    let table = HashTable {
        buckets: refs([1, 2, 3, 4, 5, 6, 7, 8, 9, 10, 11, 12, 13, 14, 15]),
    };
    words_are(
        &rt,
        &table.to_cell(),
        [4, 1, 2, 3, 4, 5, 6, 7, 8, 9, 10, 11, 12, 13, 14, 15],
    );
    assert_eq!(rt; HashTable::of_cell(&table.to_cell()), table);
}

#[test]
fn entries_and_branches_at_their_edges(rt: HostRuntime) {
    let entry = HashEntry {
        next: at(1_048_576),
        version: at(3),
        hash: 0xffffffff,
    };
    words_are(
        &rt,
        &entry.to_cell(),
        [
            0x10000005, 3, 0xffffffff, 0, 0, 0, 0, 0, 0, 0, 0, 0, 0, 0, 0, 0,
        ],
    );
    assert_eq!(rt; HashEntry::of_cell(&entry.to_cell()), entry);
    let branch = PatriciaBranch {
        bit: 2_303,
        zero_side: at(4),
        one_side: at(5),
    };
    words_are(
        &rt,
        &branch.to_cell(),
        [8, 2_303, 4, 5, 0, 0, 0, 0, 0, 0, 0, 0, 0, 0, 0, 0],
    );
    assert_eq!(rt; PatriciaBranch::of_cell(&branch.to_cell()), branch);
    let same_key = PatriciaEntry {
        next: NONE,
        version: at(6),
    };
    words_are(
        &rt,
        &same_key.to_cell(),
        [9, 6, 0, 0, 0, 0, 0, 0, 0, 0, 0, 0, 0, 0, 0, 0],
    );
    assert_eq!(rt; PatriciaEntry::of_cell(&same_key.to_cell()), same_key);
}
