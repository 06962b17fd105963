//! Rows whose bytes are known, and each call on them.

use crate::accessors::Accessors;
use crate::encode::EncodeFault;
use rdb_base::files::Bytes;
use rdb_base::list::{List, NoMemory};
use rdb_base::text::Text;
use rdb_base::value::{Element, Leaf, Rect, Row, Value};
use rdb_schema::schema::{Class, Field, FieldType, Group, Plain, Schema};
use rdb_schema::values::{holds, row_holds};
use std::alloc::Global;
use std::process::Abort;
use std::test::Fail;

fn fields(alloc: Global, types: &[FieldType]) -> Result<List<Field>, NoMemory> {
    let mut fields = List::new(alloc);
    for ty in types {
        fields.push(Field {
            name: Text::of(alloc, "f")?,
            ty: *ty,
        })?;
    }
    Ok(fields)
}

/// A schema with one struct and one class.
fn schema(alloc: Global, group: &[FieldType], class: &[FieldType]) -> Result<Schema, NoMemory> {
    let mut groups = List::new(alloc);
    groups.push(Group {
        name: Text::of(alloc, "P")?,
        fields: fields(alloc, group)?,
    })?;
    let mut classes = List::new(alloc);
    classes.push(Class {
        name: Text::of(alloc, "C")?,
        fields: fields(alloc, class)?,
        autoid: false,
        estimate: None,
        indexes: List::new(alloc),
        events: List::new(alloc),
    })?;
    Ok(Schema {
        name: Text::of(alloc, "d")?,
        groups,
        classes,
    })
}

/// The encoding of a row of the first class; want of memory stands for a row that is none of it.
#[tactic(auto, using(rdb_schema::proofs::EncodingLengths::row_fits_of))]
fn encoded(alloc: Global, schema: &Schema, row: &Row) -> Result<Bytes, EncodeFault> {
    let accessors = Accessors::of(alloc, schema, 0)?;
    if row_holds(schema, 0, row) {
        accessors.encode(row)
    } else {
        Err(EncodeFault::NoMemory)
    }
}

/// The row of the first class that bytes encode.
fn decoded(alloc: Global, schema: &Schema, bytes: &[u8]) -> Result<Row, NoMemory> {
    Accessors::of(alloc, schema, 0)?.decode(bytes)
}

/// Writes a number over that in a field of the first class; nothing where it isn't one of the field's type.
#[tactic(auto, using(rdb_schema::proofs::EncodingLengths::number_fits_of))]
fn set(
    alloc: Global,
    schema: &Schema,
    bytes: &mut [u8],
    field: u32,
    number: i128,
) -> Result<(), NoMemory> {
    let accessors = Accessors::of(alloc, schema, 0)?;
    if schema.classes.len() < 1 {
        return Ok(());
    }
    let class = schema.classes.at(0);
    if class.fields.len() <= field as usize {
        return Ok(());
    }
    let declared = class.fields.at(field as usize);
    if holds(schema, &declared.ty, &Value::Leaf(Leaf::Num(number))) {
        accessors.set_number(bytes, field, number);
    }
    Ok(())
}

fn repeated(alloc: Global, count: usize) -> Result<Value, NoMemory> {
    let mut words = String::new(alloc);
    for _ in 0..count {
        words.push('x')?;
    }
    Ok(Value::Leaf(Leaf::Text(Text::from_string(words))))
}

fn single(alloc: Global, value: Value) -> Result<Row, NoMemory> {
    let mut row = List::new(alloc);
    row.push(value)?;
    Ok(row)
}

/// A row of a text, a vector of two-byte numbers and a struct of two four-byte numbers.
fn worked_row(
    alloc: Global,
    words: &str,
    numbers: &[i128],
    x: i128,
    y: i128,
) -> Result<Row, NoMemory> {
    let mut elements = List::new(alloc);
    for number in numbers {
        elements.push(Element::Leaf(Leaf::Num(*number)))?;
    }
    let mut leaves = List::new(alloc);
    leaves.push(Leaf::Num(x))?;
    leaves.push(Leaf::Num(y))?;
    let mut row = List::new(alloc);
    row.push(Value::Leaf(Leaf::Text(Text::of(alloc, words)?)))?;
    row.push(Value::List(elements))?;
    row.push(Value::Group(leaves))?;
    Ok(row)
}

fn worked_schema(alloc: Global) -> Result<Schema, NoMemory> {
    let int4 = FieldType::Num {
        bytes: 4,
        signed: true,
    };
    let uint2 = Plain::Num {
        bytes: 2,
        signed: false,
    };
    schema(
        alloc,
        &[int4, int4],
        &[
            FieldType::Str,
            FieldType::Vector(uint2),
            FieldType::Struct(0),
        ],
    )
}

#[test]
fn a_row_is_its_fields_one_after_another(rt: HostRuntime) -> Result<(), Fail> {
    let schema = worked_schema(rt.alloc())?;
    let row = worked_row(rt.alloc(), "a\"b", &[1, 65535], -1, 2)?;
    let bytes = encoded(rt.alloc(), &schema, &row)?;
    let expected = [
        0x03, 0x61, 0x22, 0x62, 0x02, 0x01, 0x00, 0xff, 0xff, 0xff, 0xff, 0xff, 0xff, 0x02, 0x00,
        0x00, 0x00,
    ];
    assert_eq!(rt; bytes.as_slice(), expected.as_slice());
    let accessors = Accessors::of(rt.alloc(), &schema, 0)?;
    assert_eq!(rt; accessors.text(bytes.as_slice(), 0), "a\"b");
    assert_eq!(rt;
        accessors.items(bytes.as_slice(), 1),
        [2, 1, 0, 0xff, 0xff].as_slice()
    );
    let empty = worked_row(rt.alloc(), "", &[], 0, 0)?;
    let bytes = encoded(rt.alloc(), &schema, &empty)?;
    assert_eq!(rt; bytes.as_slice(), [0, 0, 0, 0, 0, 0, 0, 0, 0, 0].as_slice());
    Ok(())
}

/// A number's type, a number of it, and the first and last byte of its encoding.
#[derive(Drop)]
struct Bound {
    bytes: u8,
    signed: bool,
    number: i128,
    first: u8,
    last: u8,
}

fn check_bound(rt: &impl Abort, alloc: Global, bound: &Bound) -> Result<(), Fail> {
    let ty = FieldType::Num {
        bytes: bound.bytes,
        signed: bound.signed,
    };
    let schema = schema(alloc, &[], &[ty])?;
    let row = single(alloc, Value::Leaf(Leaf::Num(bound.number)))?;
    let coded = encoded(alloc, &schema, &row)?;
    assert_eq!(rt; coded.len(), usize::from(bound.bytes));
    assert_eq!(rt; coded.as_slice().first().copied(), Some(bound.first));
    assert_eq!(rt; coded.as_slice().last().copied(), Some(bound.last));
    let accessors = Accessors::of(alloc, &schema, 0)?;
    assert_eq!(rt; accessors.number(coded.as_slice(), 0), bound.number);
    Ok(())
}

#[test]
fn the_smallest_and_largest_numbers(rt: HostRuntime) -> Result<(), Fail> {
    for (bytes, signed, number, first, last) in [
        (1, true, -0x80, 0x80, 0x80),
        (1, true, 0x7f, 0x7f, 0x7f),
        (1, false, 0, 0, 0),
        (1, false, 0xff, 0xff, 0xff),
        (2, true, -0x8000, 0x00, 0x80),
        (2, true, 0x7fff, 0xff, 0x7f),
        (2, false, 0, 0, 0),
        (2, false, 0xffff, 0xff, 0xff),
        (4, true, -0x8000_0000, 0x00, 0x80),
        (4, true, 0x7fff_ffff, 0xff, 0x7f),
        (4, false, 0, 0, 0),
        (4, false, 0xffff_ffff, 0xff, 0xff),
        (8, true, -0x8000_0000_0000_0000, 0x00, 0x80),
        (8, true, 0x7fff_ffff_ffff_ffff, 0xff, 0x7f),
        (8, false, 0, 0, 0),
        (8, false, 0xffff_ffff_ffff_ffff, 0xff, 0xff),
    ] {
        let bound = Bound {
            bytes,
            signed,
            number,
            first,
            last,
        };
        check_bound(&rt, rt.alloc(), &bound)?;
    }
    Ok(())
}

/// A row of one field and how long its encoding is, which begins with a length or a count.
fn check_single(
    rt: &impl Abort,
    alloc: Global,
    schema: &Schema,
    value: Value,
    first: u8,
    length: usize,
) -> Result<(), Fail> {
    let row = single(alloc, value)?;
    let bytes = encoded(alloc, schema, &row)?;
    assert_eq!(rt; bytes.len(), length);
    assert_eq!(rt; bytes.as_slice().first().copied(), Some(first));
    assert_eq!(rt; decoded(alloc, schema, bytes.as_slice())?, row);
    Ok(())
}

/// A number of so many bytes as an element's type.
fn whole(bytes: u8) -> Plain {
    Plain::Num {
        bytes,
        signed: false,
    }
}

/// An element of a plain type, where a struct has one number.
fn element(alloc: Global, of: Plain) -> Result<Element, NoMemory> {
    Ok(match of {
        Plain::Num { .. } => Element::Leaf(Leaf::Num(0x7f)),
        Plain::Str => Element::Leaf(Leaf::Text(Text::of(alloc, "xy")?)),
        Plain::Box4 => Element::Leaf(Leaf::Rect(Rect {
            x1: -2,
            y1: 0,
            x2: 3,
            y2: 0,
        })),
        Plain::Struct(_) => {
            let mut leaves = List::new(alloc);
            leaves.push(Leaf::Num(-5))?;
            Element::Group(leaves)
        }
    })
}

/// A vector of 64 elements of a plain type.
fn vector(alloc: Global, of: Plain) -> Result<Value, NoMemory> {
    let mut elements = List::new(alloc);
    for _ in 0..64 {
        elements.push(element(alloc, of)?)?;
    }
    Ok(Value::List(elements))
}

#[test]
fn the_longest_text_and_vectors(rt: HostRuntime) -> Result<(), Fail> {
    let texts = schema(rt.alloc(), &[], &[FieldType::Str])?;
    let text = repeated(rt.alloc(), 255)?;
    check_single(&rt, rt.alloc(), &texts, text, 255, 256)?;
    let int2 = FieldType::Num {
        bytes: 2,
        signed: true,
    };
    for (of, length) in [
        (whole(1), 65),
        (whole(2), 129),
        (whole(4), 257),
        (whole(8), 513),
        (Plain::Str, 193),
        (Plain::Box4, 1025),
        (Plain::Struct(0), 129),
    ] {
        let vectors = schema(rt.alloc(), &[int2], &[FieldType::Vector(of)])?;
        let value = vector(rt.alloc(), of)?;
        check_single(&rt, rt.alloc(), &vectors, value, 64, length)?;
    }
    Ok(())
}

#[test]
fn a_written_number_stands_between_its_neighbours(rt: HostRuntime) -> Result<(), Fail> {
    let int2 = FieldType::Num {
        bytes: 2,
        signed: true,
    };
    let schema = schema(rt.alloc(), &[], &[FieldType::Str, int2, FieldType::Str])?;
    let mut bytes = [1, b'x', 7, 0, 2, b'y', b'z'];
    set(rt.alloc(), &schema, &mut bytes, 1, -2)?;
    assert_eq!(rt; bytes, [1, b'x', 0xfe, 0xff, 2, b'y', b'z']);
    let accessors = Accessors::of(rt.alloc(), &schema, 0)?;
    assert_eq!(rt; accessors.number(&bytes, 1), -2);
    assert_eq!(rt; accessors.text(&bytes, 2), "yz");
    Ok(())
}

#[test]
fn a_row_takes_at_most_4000_bytes(rt: HostRuntime) -> Result<(), Fail> {
    let schema = schema(rt.alloc(), &[], &[FieldType::Str; 16])?;
    for (last, too_long) in [(159, false), (160, true)] {
        let mut row = List::new(rt.alloc());
        for _ in 0..15 {
            row.push(repeated(rt.alloc(), 255)?)?;
        }
        row.push(repeated(rt.alloc(), last)?)?;
        match encoded(rt.alloc(), &schema, &row) {
            Ok(bytes) => assert!(rt; !too_long && bytes.len() == 4000),
            Err(fault) => {
                assert!(rt; too_long);
                assert_eq!(rt; fault, EncodeFault::TooLong { length: 4001 });
            }
        }
    }
    Ok(())
}
