//! A Patricia index over cells in memory, with keys that are all one text.
ghost use Rattle.std.specs.Prelude.{◌≡◌, ◌+◌, ◌<◌, ◌≤◌, ◌^◌, ◌↔◌, ℕ, IsTrue, Some, length, slice_get};
ghost use Rattle.rdb_cells.specs.HeadFormat.{index_head_cell, empty_index_head};
ghost use Rattle.rdb_cells.specs.Images.{IsFree};
ghost use Rattle.rdb_cells.specs.Index.{LacksVersion};
ghost use Rattle.rdb_cells.specs.Memory.{memory_image, memory_class};
ghost use Rattle.rdb_cells.specs.Parts.{patricia_part};
ghost use Rattle.rdb_cells.specs.Words.{IsOfKind};
ghost use Rattle.rdb_cells.specs.Work.{work, reading, HasLeft};
ghost use Rattle.rdb_patricia.specs.Bits.{longest_key, IsTextKey};
ghost use Rattle.rdb_patricia.specs.Shape.{patricia_nature};

use crate::bits::LONGEST_KEY;
use crate::how::How;
use crate::patricia::Patricia;
use rdb_base::identity::Stamp;
use rdb_base::list::{List, NoMemory};
use rdb_base::text::Text;
use rdb_base::value::{Leaf, Row, Value};
use rdb_cells::doubles::memory::MemoryCells;
use rdb_cells::doubles::one_key::{OneKey, text_in};
use rdb_cells::{
    Cells, HasPairs, Index, IndexHead, Keys, Kind, NONE, Overlay, Plan, Refs, Region,
    VersionHeader, index_head,
};
use rdb_pages::{Cell, CellRef};
use std::alloc::Global;
use std::process::Abort;
use std::test::*;

/// What an index gives by three texts, each in one way, and all that it lists.
#[derive(Drop)]
struct Answers {
    exact: Result<Refs, NoMemory>,
    longest: Result<Refs, NoMemory>,
    starting: Result<Refs, NoMemory>,
    all: Result<Refs, NoMemory>,
}

/// Puts the version, and asks for it.
fn put_and_ask<C: Cells, K: Keys>(
    index: &Patricia,
    cells: &mut Overlay<C>,
    keys: &K,
    texts: (&str, &str, &str),
    version: CellRef,
) -> Answers
    requires class { cells.old.class ≡ index.now.class }
    requires lacks { LacksVersion (patricia_nature index.now.class index.now.head.number) (K.meaning keys.now)
        (reading (work C.Cells cells.old)) version }
    requires places { length cells.old.plan.pairs + 50 ≤ cells.old.plan.room }
    requires free { HasLeft (work C.Cells cells.old) patricia_part }
{
    index.put(cells, keys, version);
    let (exact, longest, starting) = texts;
    Answers {
        exact: index.prefix(&*cells, keys, exact, How::Exact),
        longest: index.prefix(&*cells, keys, longest, How::Longest),
        starting: index.prefix(&*cells, keys, starting, How::Starting),
        all: index.refs(&*cells),
    }
}

/// Puts the version and takes it away again, and lists what is left.
fn put_and_remove<C: Cells, K: Keys>(
    index: &Patricia,
    cells: &mut Overlay<C>,
    keys: &K,
    version: CellRef,
) -> Result<Refs, NoMemory>
    requires class { cells.old.class ≡ index.now.class }
    requires lacks { LacksVersion (patricia_nature index.now.class index.now.head.number) (K.meaning keys.now)
        (reading (work C.Cells cells.old)) version }
    requires places { length cells.old.plan.pairs + 100 ≤ cells.old.plan.room }
    requires free { HasLeft (work C.Cells cells.old) patricia_part }
{
    index.put(cells, keys, version);
    index.remove(cells, keys, version);
    index.refs(&*cells)
}

/// Stops the test where a text is longer than a key may be.
fn short(rt: &impl Abort, text: &str)
    ensures short { length text.now ≤ longest_key }
    ensures bytes { (place byte : ℕ) → slice_get text.now place ≡ Some byte → byte < 2 ^ 8 }
{
    assert!(rt; text.len() <= LONGEST_KEY as usize, "a long key");
}

/// Stops the test where the key isn't one text, or a longer one than a key may be.
fn text_key(rt: &impl Abort, key: &Row)
    ensures { IsTextKey key.now }
{
    match text_in(key) {
        Some(text) => short(rt, text.as_str()),
        None => panic!(rt; "no text"),
    }
}

fn is_empty_head(cell: &Cell) -> bool
    ensures { IsTrue result ↔ (cell.now ≡ index_head_cell empty_index_head) }
{
    *cell == IndexHead::empty().to_cell()
}

fn empty_head_at(rt: &impl Abort, cells: &MemoryCells, at: CellRef)
    ensures { memory_image cells.now at.number ≡ Some (index_head_cell empty_index_head) }
{
    assert!(rt; cells.holds(at), "no cell {}", at.number);
    assert!(rt;
        is_empty_head(cells.read(at)),
        "no empty head at {}",
        at.number
    );
}

fn header_at<'a>(rt: &impl Abort, cells: &'a MemoryCells, at: CellRef) -> &'a Cell
    ensures held { memory_image cells.now at.number ≡ Some result.now }
    ensures kind { IsOfKind result.now Kind.Version }
{
    assert!(rt; cells.holds(at), "no cell {}", at.number);
    let cell = cells.read(at);
    match Kind::of(cell) {
        Some(Kind::Version) => cell,
        _ => panic!(rt; "no header at {}", at.number),
    }
}

fn free_above(rt: &impl Abort, cells: &MemoryCells, class: u32, above: CellRef) -> CellRef
    ensures above { above.number < result.number }
    ensures free { IsFree (memory_image cells.now) (memory_class cells.now) class result.number }
{
    match cells.free_after(class, above) {
        Some(at) => at,
        None => panic!(rt; "no free cell above {}", above.number),
    }
}

fn set(rt: &impl Abort, cells: &mut MemoryCells, at: CellRef, cell: Cell) {
    assert!(rt; cells.holds(at), "no cell {}", at.number);
    cells.write(at, cell);
}

/// Asks an empty index after a put, and returns the plan besides.
fn asked(
    rt: &impl Abort,
    cells: &MemoryCells,
    index: &Patricia,
    keys: &OneKey,
    texts: (&str, &str, &str),
    version: CellRef,
) -> Result<(Answers, Plan), NoMemory> {
    empty_head_at(rt, cells, index.head);
    let _header = header_at(rt, cells, version);
    text_key(rt, &keys.key);
    let lower = free_above(rt, cells, index.class, NONE);
    let _upper = free_above(rt, cells, index.class, lower);
    let plan = Plan::reserve(index.alloc, 150)?;
    let mut overlay = Overlay::over(cells, plan, index.class);
    let answers = put_and_ask(index, &mut overlay, keys, texts, version);
    Ok((answers, overlay.plan()))
}

/// Lists an empty index after a put and a remove, and returns the plan besides.
fn emptied(
    rt: &impl Abort,
    cells: &MemoryCells,
    index: &Patricia,
    keys: &OneKey,
    version: CellRef,
) -> Result<(Refs, Plan), NoMemory> {
    empty_head_at(rt, cells, index.head);
    let _header = header_at(rt, cells, version);
    text_key(rt, &keys.key);
    let lower = free_above(rt, cells, index.class, NONE);
    let _upper = free_above(rt, cells, index.class, lower);
    let plan = Plan::reserve(index.alloc, 150)?;
    let mut overlay = Overlay::over(cells, plan, index.class);
    let refs = put_and_remove(index, &mut overlay, keys, version);
    let plan = overlay.plan();
    Ok((refs?, plan))
}

fn key_of(alloc: Global, text: &str) -> Result<Row, NoMemory> {
    let mut key = List::new(alloc);
    key.push(Value::Leaf(Leaf::Text(Text::of(alloc, text)?)))?;
    Ok(key)
}

/// Returns cells with a page of class 0, the heads of two of its indexes, and a version in cell 1.
fn cells_with_a_version(rt: &impl Abort, alloc: Global) -> Result<MemoryCells, NoMemory> {
    let mut cells = MemoryCells::new(alloc, &[0], 3)?;
    let header = VersionHeader {
        older: NONE,
        class: 0,
        tombstone: false,
        id: 7,
        first_row: NONE,
        row_length: 0,
        stamp: Stamp::Done(1),
        serial: 7,
    };
    set(rt, &mut cells, CellRef { number: 1 }, header.to_cell());
    set(
        rt,
        &mut cells,
        index_head(0, 1),
        IndexHead::empty().to_cell(),
    );
    Ok(cells)
}

fn found(refs: &Refs) -> Option<u32> {
    refs.as_slice().first().map(|at| at.number)
}

#[test]
fn a_version_is_found_by_the_texts_that_mean_it(rt: HostRuntime) -> Result<(), Fail> {
    let cells = cells_with_a_version(&rt, rt.alloc())?;
    let index = Patricia::of(rt.alloc(), 0, 1);
    let keys = OneKey {
        key: key_of(rt.alloc(), "oak")?,
    };
    let version = CellRef { number: 1 };
    let (answers, plan) = asked(&rt, &cells, &index, &keys, ("oak", "oaken", "oa"), version)?;
    assert_eq!(rt; found(&answers.exact?), Some(1));
    assert_eq!(rt; found(&answers.longest?), Some(1));
    assert_eq!(rt; found(&answers.starting?), Some(1));
    assert_eq!(rt; found(&answers.all?), Some(1));
    // an entry of kind 9 without a next one, and the head leads to it
    assert_eq!(rt; plan.len(), 2);
    for (number, word, content) in [(2, 0, 9), (2, 1, 1), (2_000_002, 1, 2)] {
        let found = plan.get(CellRef { number }).map(|cell| cell.words[word]);
        assert_eq!(rt; found, Some(content), "cell {number}");
    }
    Ok(())
}

#[test]
fn a_version_is_found_by_no_other_text(rt: HostRuntime) -> Result<(), Fail> {
    let cells = cells_with_a_version(&rt, rt.alloc())?;
    let index = Patricia::of(rt.alloc(), 0, 1);
    let keys = OneKey {
        key: key_of(rt.alloc(), "oak")?,
    };
    let version = CellRef { number: 1 };
    let (answers, _plan) = asked(&rt, &cells, &index, &keys, ("oa", "oa", "oaken"), version)?;
    assert_eq!(rt; found(&answers.exact?), None);
    assert_eq!(rt; found(&answers.longest?), None);
    assert_eq!(rt; found(&answers.starting?), None);
    Ok(())
}

#[test]
fn a_version_that_goes_leaves_no_cell(rt: HostRuntime) -> Result<(), Fail> {
    let cells = cells_with_a_version(&rt, rt.alloc())?;
    let index = Patricia::of(rt.alloc(), 0, 1);
    let keys = OneKey {
        key: key_of(rt.alloc(), "oak")?,
    };
    let (refs, plan) = emptied(&rt, &cells, &index, &keys, CellRef { number: 1 })?;
    assert_eq!(rt; (refs.len(), plan.len()), (0, 0));
    Ok(())
}
