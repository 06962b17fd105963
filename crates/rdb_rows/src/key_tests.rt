//! Keys of each type of field, at places on both sides of the edges of row cells: compared, hashed and read.
ghost use Rattle.std.specs.Prelude.{◌≡◌, ◌≤◌, [], ◌∷◌, length, true, IfOk, IsTrue};
ghost use Rattle.rdb_base.specs.declared.limits.TheConstants.{MAX_ROW};
ghost use Rattle.rdb_schema.specs.Encodes.{Encodes};
ghost use Rattle.rdb_schema.specs.Indexes.{fields_of};
ghost use Rattle.rdb_schema.specs.Types.{row_fits, types_of};
ghost use Rattle.rdb_cells.specs.Keys.{HasKey};
ghost use Rattle.rdb_rows.specs.RowKeys.{AreLeaves, key_meaning, key_shape, key_types, picked};

use crate::laws::{a_put_version_keeps_the_others, keys_say_what_versions_hold};
use crate::row_keys::RowKeys;
use crate::tests::{PLACES, has_free, label_of};
use crate::versions::{VERSION_CELLS, put_version};
use rdb_access::accessors::Accessors;
use rdb_base::files::Bytes;
use rdb_base::list::{List, NoMemory};
use rdb_base::text::Text;
use rdb_base::value::{Leaf, Rect, Row, Value};
use rdb_cells::doubles::memory::MemoryCells;
use rdb_cells::doubles::one_key::{box_in, text_in};
use rdb_cells::{Cells, Keys, Overlay, Plan, fewer_cells_are_left};
use rdb_pages::CellRef;
use rdb_schema::schema::{Class, Field, FieldType, IndexDecl, IndexKind, Schema};
use rdb_schema::types::{ValueType, ValueTypes, types_of};
use rdb_schema::values::{holds, row_holds};
use std::alloc::Global;
use std::cmp::Ordering;
use std::process::Abort;
use std::test::*;

/// A key of one field.
#[derive(Clone, Copy)]
enum Sample {
    Num(i128),
    Words(&'static str),
    Edges(Rect),
}

/// A type of fields, two keys of it in their order, and the hash of the first.
type Case = (FieldType, Sample, Sample, u32);

const LOW_BOX: Rect = Rect {
    x1: -1,
    y1: 2,
    x2: 3,
    y2: 70_000,
};

const HIGH_BOX: Rect = Rect {
    x1: 0,
    y1: -2,
    x2: 3,
    y2: 7,
};

fn of_numbers(bytes: u8, signed: bool, low: i128, high: i128, hash: u32) -> Case {
    let ty = FieldType::Num { bytes, signed };
    (ty, Sample::Num(low), Sample::Num(high), hash)
}

/// A case for each width and sign of numbers, for texts and for boxes. The hashes are those of the hash's own definition.
fn cases() -> [Case; 10] {
    [
        of_numbers(1, true, -2, 1, 2_064_352_225),
        of_numbers(1, false, 127, 200, 4_195_109_838),
        of_numbers(2, true, -300, 5, 3_518_477_063),
        of_numbers(2, false, 255, 256, 1_847_468_234),
        of_numbers(4, true, -70_000, 5, 1_647_485_208),
        of_numbers(4, false, 0xff_0000, 0x100_0000, 1_209_390_978),
        of_numbers(8, true, -5_000_000_000, 7, 67_373_943),
        of_numbers(
            8,
            false,
            0x0102_0304_0506_0708,
            0x0202_0304_0506_0700,
            3_011_442_293,
        ),
        (
            FieldType::Str,
            Sample::Words("oak tree"),
            Sample::Words("oz"),
            1_112_492_136,
        ),
        (
            FieldType::Box4,
            Sample::Edges(LOW_BOX),
            Sample::Edges(HIGH_BOX),
            1_098_678_978,
        ),
    ]
}

/// How many bytes stand before the key.
const PADDINGS: [usize; 8] = [1, 41, 56, 58, 59, 60, 61, 119];

/// A class of a text and a field of the type, by which an index goes.
fn schema_of(alloc: Global, ty: FieldType) -> Result<Schema, NoMemory> {
    let mut fields = List::new(alloc);
    for (name, ty) in [("pad", FieldType::Str), ("key", ty)] {
        fields.push(Field {
            name: Text::of(alloc, name)?,
            ty,
        })?;
    }
    let mut indexes = List::new(alloc);
    indexes.push(IndexDecl {
        name: Text::of(alloc, "byKey")?,
        kind: IndexKind::Hash,
        unique: false,
        key: List::from_slice(alloc, &[1])?,
        estimate: None,
    })?;
    let mut classes = List::new(alloc);
    classes.push(Class {
        name: Text::of(alloc, "Item")?,
        fields,
        autoid: false,
        estimate: None,
        indexes,
        events: List::new(alloc),
    })?;
    Ok(Schema {
        name: Text::of(alloc, "items")?,
        groups: List::new(alloc),
        classes,
    })
}

fn value_of(alloc: Global, sample: Sample) -> Result<Value, NoMemory> {
    Ok(Value::Leaf(match sample {
        Sample::Num(number) => Leaf::Num(number),
        Sample::Words(words) => Leaf::Text(Text::of(alloc, words)?),
        Sample::Edges(rect) => Leaf::Rect(rect),
    }))
}

fn key_of(alloc: Global, sample: Sample) -> Result<Row, NoMemory> {
    let mut key = List::new(alloc);
    key.push(value_of(alloc, sample)?)?;
    Ok(key)
}

/// A row whose key has so many bytes before it.
fn row_of(alloc: Global, padding: usize, sample: Sample) -> Result<Row, NoMemory> {
    let mut words = String::new(alloc);
    for _ in 1..padding {
        words.push('x')?;
    }
    let mut row = List::new(alloc);
    row.push(Value::Leaf(Leaf::Text(Text::from_string(words))))?;
    row.push(value_of(alloc, sample)?)?;
    Ok(row)
}

/// The numbers of the fields of the one key of a schema.
fn key_numbers(schema: &Schema) -> &[u32]
    ensures { result.now ≡ fields_of schema.now 0 0 }
{
    match schema.classes.as_slice().get(0) {
        Some(declared) => match declared.indexes.as_slice().get(0) {
            Some(found) => found.key.as_slice(),
            None => &[],
        },
        None => &[],
    }
}

/// Returns whether this is a value of the field of the number, which is a leaf.
fn is_leaf_of(schema: &Schema, types: &ValueTypes, number: u32, value: &Value) -> bool
    ensures leaves { IsTrue result → AreLeaves (record { types = types.now; fields = number ∷ [] }) }
    ensures fits { IsTrue result → row_fits (picked types.now (number ∷ [])) (value.now ∷ []) ≡ true }
{
    match (types.as_slice().get(number as usize), value) {
        (Some(ValueType::Leaf(ty)), Value::Leaf(_)) => holds(schema, ty, value),
        _ => false,
    }
}

/// Returns whether this is a key of one field, which is a leaf.
fn is_key(schema: &Schema, types: &ValueTypes, numbers: &[u32], key: &Row) -> bool
    ensures leaves { IsTrue result → AreLeaves (record { types = types.now; fields = numbers.now }) }
    ensures fits { IsTrue result → row_fits (picked types.now numbers.now) key.now ≡ true }
{
    match (numbers, key.as_slice()) {
        ([number], [value]) => is_leaf_of(schema, types, *number, value),
        _ => false,
    }
}

/// Asserts that this is a key of the one index of a schema.
fn assert_key(rt: &impl Abort, alloc: Global, schema: &Schema, key: &Row) -> Result<(), NoMemory>
    ensures leaves { IfOk result (λ done. AreLeaves (key_shape schema.now 0 0)) }
    ensures fits { IfOk result (λ done. row_fits (key_types (key_shape schema.now 0 0)) key.now ≡ true) }
{
    let types = types_of(alloc, schema, 0)?;
    assert!(rt; is_key(schema, &types, key_numbers(schema), key), "no key");
    Ok(())
}

/// The encoding of a row of the one class of a schema.
fn encoded(rt: &impl Abort, alloc: Global, schema: &Schema, row: &Row) -> Result<Bytes, NoMemory>
    ensures encodes { IfOk result (λ bytes. Encodes (types_of schema.now 0) row.now bytes) }
    ensures short { IfOk result (λ bytes. length bytes ≤ MAX_ROW) }
{
    let accessors = Accessors::of(alloc, schema, 0)?;
    assert!(rt; row_holds(schema, 0, row), "no row of the class");
    match accessors.encode(row) {
        Ok(bytes) => Ok(bytes),
        Err(_) => panic!(rt; "no encoding"),
    }
}

/// Two versions with a key each.
#[derive(Clone, Copy)]
struct Pair {
    low: CellRef,
    high: CellRef,
}

/// Compares and hashes the versions of two keys, of which the first comes first.
fn check_keys<C: Cells>(
    rt: &impl Abort,
    cells: &C,
    keys: &RowKeys,
    versions: Pair,
    low: &Row,
    high: &Row,
) -> u32
    requires first { HasKey (key_meaning keys.now) (C.image cells.now) versions.low }
    requires second { HasKey (key_meaning keys.now) (C.image cells.now) versions.high }
    requires low { row_fits (key_types keys.now) low.now ≡ true }
    requires high { row_fits (key_types keys.now) high.now ≡ true }
{
    let Pair { low: a, high: b } = versions;
    assert_eq!(rt; keys.order(cells, a, b), Ordering::Less, "low and high");
    assert_eq!(rt; keys.order(cells, b, a), Ordering::Greater, "high and low");
    assert_eq!(rt; keys.order(cells, a, a), Ordering::Equal, "low and low");
    assert!(rt; keys.same(cells, a, low), "the low key");
    assert!(rt; keys.same(cells, b, high), "the high key");
    assert!(rt; !keys.same(cells, a, high), "another key");
    let hash = keys.hash(cells, a);
    assert_eq!(rt; hash, keys.hash_of(low), "the hash of the low key");
    assert_eq!(rt;
        keys.hash(cells, b),
        keys.hash_of(high),
        "the hash of the high key"
    );
    hash
}

/// Reads a key of one text byte for byte, or a key of one box.
fn check_reads<C: Cells>(
    rt: &impl Abort,
    cells: &C,
    keys: &RowKeys,
    version: CellRef,
    key: &Row,
    sample: Sample,
)
    requires version { HasKey (key_meaning keys.now) (C.image cells.now) version }
    requires key { row_fits (key_types keys.now) key.now ≡ true }
{
    assert!(rt; keys.same(cells, version, key), "the key");
    match sample {
        Sample::Words(words) => {
            assert!(rt; text_in(key).is_some(), "a text");
            for place in 0..12 {
                let byte = words.as_bytes().get(place as usize).copied();
                assert_eq!(rt; keys.byte(cells, version, place), byte, "byte {place}");
            }
        }
        Sample::Edges(rect) => {
            assert!(rt; box_in(key).is_some(), "a box");
            assert_eq!(rt; keys.rect(cells, version), rect, "the box");
        }
        Sample::Num(_) => {}
    }
}

/// Puts a version of each key, the first behind so many bytes, and checks what is read of them.
fn check(rt: &impl Abort, alloc: Global, padding: usize, case: &Case) -> Result<(), NoMemory> {
    let (ty, low, high, hash) = *case;
    let schema = schema_of(alloc, ty)?;
    let low_key = key_of(alloc, low)?;
    let high_key = key_of(alloc, high)?;
    assert_key(rt, alloc, &schema, &low_key)?;
    assert_key(rt, alloc, &schema, &high_key)?;
    let keys = RowKeys::of(alloc, &schema, 0, 0)?;
    let low_row = row_of(alloc, padding, low)?;
    let high_row = row_of(alloc, 3, high)?;
    let first = encoded(rt, alloc, &schema, &low_row)?;
    let second = encoded(rt, alloc, &schema, &high_row)?;
    let cells = MemoryCells::new(alloc, &[0; 3], 0)?;
    let plan = Plan::reserve(alloc, PLACES)?;
    has_free(rt, &cells, 0, 2 * VERSION_CELLS);
    fewer_cells_are_left();
    let mut overlay = Overlay::over(&cells, plan, 0);
    let a = put_version(&mut overlay, &label_of(0), first.as_slice());
    let b = put_version(&mut overlay, &label_of(0), second.as_slice());
    a_put_version_keeps_the_others();
    keys_say_what_versions_hold();
    let versions = Pair { low: a, high: b };
    let found = check_keys(rt, &overlay, &keys, versions, &low_key, &high_key);
    assert_eq!(rt; found, hash, "the hash");
    check_reads(rt, &overlay, &keys, a, &low_key, low);
    check_reads(rt, &overlay, &keys, b, &high_key, high);
    let _plan = overlay.plan();
    Ok(())
}

#[test]
fn keys_are_read_on_both_sides_of_an_edge(rt: HostRuntime) -> Result<(), Fail> {
    for padding in PADDINGS {
        for case in &cases() {
            check(&rt, rt.alloc(), padding, case)?;
        }
    }
    Ok(())
}
