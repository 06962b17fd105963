//! What the space and the memory of a region say of owners, free cells and room, and what an operation claims.
use crate::claims::{claim, claim_of_op};
use crate::memory::RegionMemory;
use crate::space::Space;
use rdb_base::list::List;
use rdb_base::operation::Op;
use rdb_base::text::Text;
use rdb_cells::{Cells, Kind, Region, class_head, index_head};
use rdb_pages::{Cell, CellRef, PAGE_CELLS, RawPages};
use rdb_schema::is_schema;
use rdb_schema::schema::{Class, Field, FieldType, IndexDecl, IndexKind, Indexes, Schema};
use std::alloc::{AllocError, Global};
use std::process::Abort;
use std::test::*;

mod spaces;

ghost use Rattle.std.specs.Prelude.{◌≡◌, ◌<◌, ◌≤◌, length, replicate, IfOk};
ghost use Rattle.rdb_pages.specs.Pages.{max_pages};

/// The class of the tests that follow one class alone.
const ITEM: u32 = 0;

fn index(alloc: Global, kind: IndexKind, name: &str, field: u32) -> Result<IndexDecl, AllocError> {
    let mut key = List::new(alloc);
    key.push(field)?;
    Ok(IndexDecl {
        name: Text::of(alloc, name)?,
        kind,
        unique: false,
        key,
        estimate: None,
    })
}

fn field(alloc: Global, name: &str, ty: FieldType) -> Result<Field, AllocError> {
    Ok(Field {
        name: Text::of(alloc, name)?,
        ty,
    })
}

/// A class with a number, a text and a box, and these indexes.
fn class(alloc: Global, name: &str, indexes: Indexes) -> Result<Class, AllocError> {
    let mut fields = List::new(alloc);
    fields.push(field(
        alloc,
        "n",
        FieldType::Num {
            bytes: 4,
            signed: false,
        },
    )?)?;
    fields.push(field(alloc, "w", FieldType::Str)?)?;
    fields.push(field(alloc, "r", FieldType::Box4)?)?;
    Ok(Class {
        name: Text::of(alloc, name)?,
        fields,
        autoid: true,
        estimate: None,
        indexes,
        events: List::new(alloc),
    })
}

/// A schema of two classes, of which the first has these indexes and the second none.
fn schema(alloc: Global, indexes: Indexes) -> Result<Schema, AllocError> {
    let mut classes = List::new(alloc);
    classes.push(class(alloc, "Item", indexes)?)?;
    classes.push(class(alloc, "Box", List::new(alloc))?)?;
    Ok(Schema {
        name: Text::of(alloc, "shop")?,
        groups: List::new(alloc),
        classes,
    })
}

/// The indexes of every kind, one of each.
fn all_kinds(alloc: Global) -> Result<Indexes, AllocError> {
    let mut indexes = List::new(alloc);
    indexes.push(index(alloc, IndexKind::Hash, "h", 0)?)?;
    indexes.push(index(alloc, IndexKind::Tree, "t", 0)?)?;
    indexes.push(index(alloc, IndexKind::Rtree, "b", 2)?)?;
    indexes.push(index(alloc, IndexKind::Patricia, "p", 1)?)?;
    Ok(indexes)
}

fn claim_of_row(rt: &impl Abort, schema: &Schema, bytes: u32) -> u32 {
    assert!(rt; is_schema(schema) && schema.classes.len() > 0);
    claim(schema, ITEM, bytes)
}

#[test]
fn a_claim_counts_the_row_and_its_indexes(rt: HostRuntime) -> Result<(), Fail> {
    let bare = schema(rt.alloc(), List::new(rt.alloc()))?;
    for (bytes, cells) in [(0, 2), (1, 3), (4, 3), (60, 3), (61, 4), (4_000, 69)] {
        assert_eq!(rt; claim_of_row(&rt, &bare, bytes), cells, "{bytes} bytes");
    }
    let full = schema(rt.alloc(), all_kinds(rt.alloc())?)?;
    assert_eq!(rt; claim_of_row(&rt, &full, 61), 32);
    Ok(())
}

fn claim_of(rt: &impl Abort, schema: &Schema, op: &Op) -> u32 {
    assert!(rt; is_schema(schema) && schema.classes.len() > 0);
    let class = match op {
        Op::New { class, .. } | Op::Put { class, .. } => *class,
        _ => ITEM,
    };
    assert!(rt; (class as usize) < schema.classes.len());
    claim_of_op(schema, op, 61)
}

#[test]
fn an_operation_claims_what_it_writes(rt: HostRuntime) -> Result<(), Fail> {
    let full = schema(rt.alloc(), all_kinds(rt.alloc())?)?;
    for (op, cells) in [
        (
            Op::New {
                class: 0,
                row: List::new(rt.alloc()),
                id: 0,
            },
            32,
        ),
        (
            Op::Put {
                class: 1,
                id: 7,
                row: List::new(rt.alloc()),
            },
            4,
        ),
        (Op::Del { class: 0, id: 7 }, 1),
        (Op::Get { class: 0, id: 7 }, 0),
        (Op::Count { class: 0 }, 0),
    ] {
        assert_eq!(rt; claim_of(&rt, &full, &op), cells, "{op:?}");
    }
    Ok(())
}

type Memory = RegionMemory<RawPages>;

fn region(rt: &impl Abort, alloc: Global, pages: u32) -> Result<Memory, AllocError> {
    let schema = schema(alloc, all_kinds(alloc)?)?;
    assert!(rt; is_schema(&schema) && pages >= 1 && pages <= 16_384);
    RegionMemory::over(alloc, RawPages::reserve(alloc, pages)?, &schema)
}

fn grant(rt: &impl Abort, memory: &mut Memory, class: u32) -> u32 {
    assert!(rt; class < memory.classes());
    match memory.lowest() {
        Some(_) => memory.grant(class),
        None => panic!(rt; "every page has an owner"),
    }
}

fn write(rt: &impl Abort, memory: &mut Memory, at: CellRef, cell: Cell) {
    assert!(rt; memory.holds(at), "no cell {at:?}");
    memory.write(at, cell);
}

fn read(rt: &impl Abort, memory: &Memory, at: CellRef) -> Cell {
    assert!(rt; memory.holds(at), "no cell {at:?}");
    *memory.read(at)
}

fn number_after(memory: &Memory, class: u32, above: u32) -> Option<u32> {
    memory
        .free_after(class, CellRef { number: above })
        .map(|at| at.number)
}

#[test]
fn regions_of_one_page_and_of_the_most(rt: HostRuntime) -> Result<(), Fail> {
    for (pages, room, second) in [(1, 64, None), (16_384, 1_048_576, Some(1))] {
        let mut memory = region(&rt, rt.alloc(), pages)?;
        assert_eq!(rt; (memory.room(0), memory.room(1)), (room, room));
        assert_eq!(rt; number_after(&memory, 0, 0), None);
        assert_eq!(rt; grant(&rt, &mut memory, 1), 0);
        assert_eq!(rt; memory.lowest(), second);
        assert_eq!(rt; (memory.room(0), memory.room(1)), (room - 64, room));
        assert_eq!(rt; number_after(&memory, 1, 0), Some(1));
        assert_eq!(rt; number_after(&memory, 1, 64), None);
    }
    Ok(())
}

#[test]
fn room_follows_each_cell_of_a_page(rt: HostRuntime) -> Result<(), Fail> {
    let mut memory = region(&rt, rt.alloc(), 2)?;
    let _page = grant(&rt, &mut memory, ITEM);
    let full = Cell { words: [7; 16] };
    for place in 0..PAGE_CELLS {
        let at = CellRef { number: 1 + place };
        assert_eq!(rt; memory.room(ITEM), 128 - place);
        assert_eq!(rt; number_after(&memory, ITEM, 0), Some(1 + place));
        write(&rt, &mut memory, at, full);
    }
    assert_eq!(rt; number_after(&memory, ITEM, 0), None);
    for place in 0..PAGE_CELLS {
        let at = CellRef { number: 1 + place };
        assert_eq!(rt; memory.room(ITEM), 64 + place);
        assert_eq!(rt; read(&rt, &memory, at), full);
        write(&rt, &mut memory, at, Cell::ZERO);
        assert_eq!(rt; number_after(&memory, ITEM, place), Some(1 + place));
    }
    assert_eq!(rt; memory.room(ITEM), 128);
    Ok(())
}

#[test]
fn heads_begin_with_their_kind(rt: HostRuntime) -> Result<(), Fail> {
    let mut memory = region(&rt, rt.alloc(), 1)?;
    for (number, kind) in [
        (2_000_000, Some(Kind::ClassHead)),
        (2_000_001, Some(Kind::IndexHead)),
        (2_000_004, Some(Kind::IndexHead)),
        (2_000_005, None),
        (2_000_016, Some(Kind::ClassHead)),
        (2_000_017, None),
        (2_000_032, None),
        (0, None),
        (1, None),
    ] {
        let at = CellRef { number };
        let found = if memory.holds(at) {
            Kind::of(memory.read(at))
        } else {
            None
        };
        assert_eq!(rt; found, kind, "cell {number}");
    }
    let head = Cell { words: [3; 16] };
    write(&rt, &mut memory, CellRef { number: 2_000_016 }, head);
    assert_eq!(rt; read(&rt, &memory, CellRef { number: 2_000_016 }), head);
    assert!(rt; memory.in_class(1, CellRef { number: 2_000_016 }));
    assert!(rt; memory.in_class(0, CellRef { number: 2_000_004 }));
    assert_eq!(rt; (memory.room(0), memory.room(1)), (64, 64));
    Ok(())
}
