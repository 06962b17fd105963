//! Versions put, read, changed and given back over cells in memory.
ghost use Rattle.rdb_cells.specs.Memory.{memory_class, memory_image};
ghost use Rattle.rdb_cells.specs.Untaken.{HasUntaken};
ghost use Rattle.std.specs.Prelude.{[], ◌<◌};
ghost use Rattle.rdb_rows.specs.Versions.{HasVersion, IsLabel};

use crate::decode::row_in;
use crate::label::Label;
use crate::versions::{
    VERSION_CELLS, change_older, give_back, id_in, is_tombstone, older_in, put_tombstone,
    put_version, row_bytes, row_length, serial_in, stamp_in, with_stamp,
};
use rdb_access::accessors::Accessors;
use rdb_base::identity::Stamp;
use rdb_base::limits::MAX_ROW;
use rdb_base::list::{List, NoMemory};
use rdb_base::text::Text;
use rdb_base::value::{Leaf, Row, Value};
use rdb_cells::doubles::memory::MemoryCells;
use rdb_cells::{
    Cells, HasPairs, NONE, Overlay, Plan, RowCell, VersionHeader, fewer_cells_are_left,
};
use rdb_pages::CellRef;
use rdb_schema::schema::{Class, Field, FieldType, Schema};
use std::alloc::Global;
use std::process::Abort;
use std::test::*;

pub(crate) const PLACES: usize = 200;

/// Checks that the class has so many free cells.
pub(crate) fn has_free(rt: &impl Abort, cells: &MemoryCells, class: u32, many: usize)
    ensures { HasUntaken [] (memory_image cells.now) (memory_class cells.now) class 0 many }
{
    let mut last = NONE;
    for _ in 0..many {
        match cells.free_after(class, last) {
            Some(at) => last = at,
            None => panic!(rt; "no free cell above {}", last.number),
        }
    }
}

pub(crate) fn label_of(class: u32) -> Label
    requires { class < 256 }
    ensures { IsLabel result }
{
    Label {
        class,
        id: 0x1_0000_0007,
        serial: 0x2_0000_0005,
        stamp: Stamp::Done(3),
        older: CellRef { number: 77 },
    }
}

/// So many bytes, none of them 0.
fn some_bytes(alloc: Global, many: usize) -> Result<List<u8>, NoMemory> {
    let mut bytes = List::new(alloc);
    for at in 0..many {
        bytes.push((at % 255) as u8 + 1)?;
    }
    Ok(bytes)
}

/// The accessors of a class of one text.
fn accessors_of_text(alloc: Global) -> Result<Accessors, NoMemory> {
    let mut fields = List::new(alloc);
    fields.push(Field {
        name: Text::of(alloc, "words")?,
        ty: FieldType::Str,
    })?;
    let mut classes = List::new(alloc);
    classes.push(Class {
        name: Text::of(alloc, "Note")?,
        fields,
        autoid: false,
        estimate: None,
        indexes: List::new(alloc),
        events: List::new(alloc),
    })?;
    let schema = Schema {
        name: Text::of(alloc, "notes")?,
        groups: List::new(alloc),
        classes,
    };
    Accessors::of(alloc, &schema, 0)
}

/// The first text of a row.
fn first_text(row: &Option<Row>) -> Option<&str> {
    match row {
        Some(row) => match row.as_slice() {
            [Value::Leaf(Leaf::Text(words))] => Some(words.as_str()),
            _ => None,
        },
        None => None,
    }
}

/// Checks what is read of a version.
fn check_read<C: Cells>(
    rt: &impl Abort,
    alloc: Global,
    cells: &C,
    version: CellRef,
    label: &Label,
    bytes: &[u8],
) -> Result<(), Fail>
    requires { HasVersion (C.image cells.now) version.number }
{
    assert_eq!(rt; stamp_in(cells, version), label.stamp);
    assert_eq!(rt; id_in(cells, version), label.id);
    assert_eq!(rt; serial_in(cells, version), label.serial);
    assert_eq!(rt; older_in(cells, version), label.older);
    assert_eq!(rt; row_length(cells, version), bytes.len());
    assert_eq!(rt; row_bytes(alloc, cells, version)?.as_slice(), bytes);
    if bytes.len() > 1 {
        let row = row_in(alloc, &accessors_of_text(alloc)?, cells, version)?;
        assert_eq!(rt; first_text(&row), Some("\u{2}"));
    }
    let stamped = with_stamp(cells, version, Stamp::Done(9));
    assert_eq!(rt; VersionHeader::stamp_in(&stamped), Stamp::Done(9));
    assert_eq!(rt; VersionHeader::serial_in(&stamped), label.serial);
    Ok(())
}

/// A row's length, how many cells its version takes, and the first and last byte of its last cell.
#[derive(Drop)]
struct Sample {
    length: usize,
    cells: usize,
    first: u8,
    last: u8,
}

fn check_put(rt: &impl Abort, alloc: Global, sample: &Sample) -> Result<(), Fail> {
    let cells = MemoryCells::new(alloc, &[0, 0], 0)?;
    let bytes = some_bytes(alloc, sample.length)?;
    assert!(rt; bytes.len() <= MAX_ROW);
    let label = label_of(0);
    let plan = Plan::reserve(alloc, PLACES)?;
    has_free(rt, &cells, 0, VERSION_CELLS);
    fewer_cells_are_left();
    let mut overlay = Overlay::over(&cells, plan, 0);
    let version = put_version(&mut overlay, &label, bytes.as_slice());
    assert_eq!(rt; version.number, 1);
    assert!(rt; !is_tombstone(&overlay, version));
    let read = check_read(rt, alloc, &overlay, version, &label, bytes.as_slice());
    let plan = overlay.plan();
    read?;
    assert_eq!(rt; plan.len(), sample.cells);
    let last = CellRef {
        number: sample.cells as u32,
    };
    let part = plan.get(last).map(RowCell::of_cell);
    let ends = part.map(|part| (part.next, part.bytes[0], part.bytes[59]));
    assert_eq!(rt; ends, Some((NONE, sample.first, sample.last)));
    Ok(())
}

#[test]
fn rows_stand_in_as_many_cells_as_they_take(rt: HostRuntime) -> Result<(), Fail> {
    for (length, cells, first, last) in [
        (1, 2, 1, 0),
        (59, 2, 1, 0),
        (60, 2, 1, 60),
        (61, 3, 61, 0),
        (120, 3, 61, 120),
        (4000, 68, 136, 0),
    ] {
        check_put(
            &rt,
            rt.alloc(),
            &Sample {
                length,
                cells,
                first,
                last,
            },
        )?;
    }
    Ok(())
}

/// Puts a tombstone, leads it to another version, and gives it back.
fn check_tombstone(rt: &impl Abort, alloc: Global) -> Result<(), Fail> {
    let cells = MemoryCells::new(alloc, &[5], 0)?;
    let label = label_of(5);
    let plan = Plan::reserve(alloc, PLACES)?;
    has_free(rt, &cells, 5, 1);
    let mut overlay = Overlay::over(&cells, plan, 5);
    let version = put_tombstone(&mut overlay, &label);
    assert!(rt; is_tombstone(&overlay, version));
    assert_eq!(rt; row_length(&overlay, version), 0);
    change_older(&mut overlay, version, CellRef { number: 41 });
    assert_eq!(rt; older_in(&overlay, version).number, 41);
    assert_eq!(rt; serial_in(&overlay, version), label.serial);
    give_back(&mut overlay, version);
    assert_eq!(rt; overlay.plan().len(), 0);
    Ok(())
}

#[test]
fn what_is_given_back_is_planned_no_more(rt: HostRuntime) -> Result<(), Fail> {
    check_tombstone(&rt, rt.alloc())
}
