use crate::printed::{append_value, row_text};
use crate::spelled::numbers::{number_at, rect_at};
use crate::spelled::typed::{key_at, row_at, text_at, value_at};
use crate::spelled::{magnitude_at, quoted_at};
use rdb_base::list::{List, NoMemory};
use rdb_base::text::Text;
use rdb_base::value::Rect;
use rdb_schema::schema::{
    Class, Field, FieldType, Fields, Group, IndexDecl, IndexKind, Plain, Schema,
};
use std::alloc::Global;
use std::process::Abort;
use std::test::Fail;

fn fields_of(alloc: Global, types: &[FieldType]) -> Result<Fields, NoMemory> {
    let mut fields = List::new(alloc);
    for ty in types {
        let name = Text::of(alloc, "f")?;
        fields.push(Field { name, ty: *ty })?;
    }
    Ok(fields)
}

/// A class with a number, a text and a vector, and an index by the text and the number. The one struct has a number
/// and a text.
fn small_schema(alloc: Global) -> Result<Schema, NoMemory> {
    let number = FieldType::Num {
        bytes: 1,
        signed: true,
    };
    let mut groups = List::new(alloc);
    groups.push(Group {
        name: Text::of(alloc, "Pair")?,
        fields: fields_of(alloc, &[number, FieldType::Str])?,
    })?;
    let mut key = List::new(alloc);
    key.push(1)?;
    key.push(0)?;
    let mut indexes = List::new(alloc);
    indexes.push(IndexDecl {
        name: Text::of(alloc, "byText")?,
        kind: IndexKind::Tree,
        unique: false,
        key,
        estimate: None,
    })?;
    let mut classes = List::new(alloc);
    classes.push(Class {
        name: Text::of(alloc, "Item")?,
        fields: fields_of(
            alloc,
            &[number, FieldType::Str, FieldType::Vector(Plain::Struct(0))],
        )?,
        autoid: true,
        estimate: None,
        indexes,
        events: List::new(alloc),
    })?;
    Ok(Schema {
        name: Text::of(alloc, "small")?,
        groups,
        classes,
    })
}

fn number(bytes: u8, signed: bool) -> FieldType {
    FieldType::Num { bytes, signed }
}

/// The text is a value of the type with this printed form.
fn expect_printed(
    rt: &impl Abort,
    alloc: Global,
    schema: &Schema,
    ty: &FieldType,
    text: &[u8],
    printed: &str,
) -> Result<(), Fail> {
    let (value, rest) = value_at(alloc, schema, ty, text)?.ok_or("a value stands in front")?;
    assert!(rt; rest.is_empty());
    let shown = append_value(String::new(alloc), &value)?;
    assert_eq!(rt; shown.as_str(), printed);
    Ok(())
}

#[test]
fn values_of_each_type_are_read_and_printed(rt: HostRuntime) -> Result<(), Fail> {
    let schema = small_schema(rt.alloc())?;
    let read: [(FieldType, &[u8], &str); 25] = [
        (number(1, false), b"255", "255"),
        (number(1, false), b"-000", "0"),
        (number(1, true), b"-128", "-128"),
        (number(1, true), b"00127", "127"),
        (number(2, false), b"65535", "65535"),
        (number(2, true), b"-32768", "-32768"),
        (number(4, false), b"4294967295", "4294967295"),
        (number(4, true), b"-2147483648", "-2147483648"),
        (
            number(8, false),
            b"18446744073709551615",
            "18446744073709551615",
        ),
        (
            number(8, true),
            b"-9223372036854775808",
            "-9223372036854775808",
        ),
        (FieldType::Str, b"\"\"", "\"\""),
        (FieldType::Str, b"\"a\\\"b\\\\c\"", "\"a\\\"b\\\\c\""),
        (
            FieldType::Str,
            b"\"\\x41\\x22\\x5C\\x7F\\x0a\"",
            "\"A\\\"\\\\\\x7f\\x0a\"",
        ),
        (FieldType::Str, b"\"\t\x1f\x7f\"", "\"\\x09\\x1f\\x7f\""),
        (FieldType::Str, b"\"\xC3\xA9 ,}\"", "\"\u{e9} ,}\""),
        (FieldType::Box4, b"[-1,0,2,3]", "[-1,0,2,3]"),
        (FieldType::Box4, b"[ -1 ,\t00,-1 , 0\t]", "[-1,0,-1,0]"),
        (FieldType::Struct(0), b"{-1,\"b\"}", "{-1,\"b\"}"),
        (FieldType::Struct(0), b"{ 01 , \"\\x62\" }", "{1,\"b\"}"),
        (FieldType::Vector(Plain::Str), b"()", "()"),
        (FieldType::Vector(Plain::Str), b"( \t)", "()"),
        (
            FieldType::Vector(Plain::Str),
            b"(\"a\" ,\"b\")",
            "(\"a\",\"b\")",
        ),
        (
            FieldType::Vector(Plain::Num {
                bytes: 1,
                signed: false,
            }),
            b"(0, 255)",
            "(0,255)",
        ),
        (
            FieldType::Vector(Plain::Box4),
            b"([0,0,0,0])",
            "([0,0,0,0])",
        ),
        (
            FieldType::Vector(Plain::Struct(0)),
            b"( {1,\"a\"} ,{2,\"b\"})",
            "({1,\"a\"},{2,\"b\"})",
        ),
    ];
    for (ty, text, printed) in read {
        expect_printed(&rt, rt.alloc(), &schema, &ty, text, printed)?;
    }
    Ok(())
}

#[test]
fn what_is_no_value_of_the_type_is_not_read(rt: HostRuntime) -> Result<(), Fail> {
    let schema = small_schema(rt.alloc())?;
    let refused: [(FieldType, &[u8]); 27] = [
        (number(1, false), b"256"),
        (number(1, false), b"-1"),
        (number(1, true), b"128"),
        (number(1, true), b"-129"),
        (number(8, false), b"18446744073709551616"),
        (number(8, true), b"9223372036854775808"),
        (number(8, true), b"- 1"),
        (number(8, true), b"+1"),
        (number(8, true), b"--1"),
        (number(8, true), b" 1"),
        (number(8, true), b"\"1\""),
        (FieldType::Str, b"1"),
        (FieldType::Str, b"\"\\x80\""),
        (FieldType::Str, b"\"\\n\""),
        (FieldType::Box4, b"[1,0,0,0]"),
        (FieldType::Box4, b"[0,1,0,0]"),
        (FieldType::Box4, b"[0,0,0,2147483648]"),
        (FieldType::Box4, b"[0,0,0]"),
        (FieldType::Box4, b"[0,0,0,0,0]"),
        (FieldType::Struct(0), b"{1}"),
        (FieldType::Struct(0), b"{1,\"b\",2}"),
        (FieldType::Struct(0), b"{128,\"b\"}"),
        (FieldType::Struct(1), b"{1,\"b\"}"),
        (FieldType::Vector(Plain::Str), b"(\"a\",)"),
        (FieldType::Vector(Plain::Str), b"(\"a\" \"b\")"),
        (FieldType::Vector(Plain::Str), b"(\"a\""),
        (FieldType::Vector(Plain::Str), b"(1)"),
    ];
    for (ty, text) in refused {
        let read = value_at(rt.alloc(), &schema, &ty, text)?;
        assert!(rt; read.is_none());
    }
    Ok(())
}

/// A vector of so many zeros.
fn zeros(alloc: Global, count: usize) -> Result<String, NoMemory> {
    let mut text = String::new(alloc);
    text.push_str("(0")?;
    for _ in 1..count {
        text.push_str(",0")?;
    }
    text.push(')')?;
    Ok(text)
}

#[test]
fn texts_and_vectors_have_their_limits(rt: HostRuntime) -> Result<(), Fail> {
    let schema = small_schema(rt.alloc())?;
    let vector = FieldType::Vector(Plain::Num {
        bytes: 1,
        signed: false,
    });
    let longest = zeros(rt.alloc(), 64)?;
    assert!(rt; value_at(rt.alloc(), &schema, &vector, longest.as_bytes())?.is_some());
    let longer = zeros(rt.alloc(), 65)?;
    assert!(rt; value_at(rt.alloc(), &schema, &vector, longer.as_bytes())?.is_none());
    let quoted = format!(in rt.alloc(); "\"{:0>255}\"", 7)?;
    assert!(rt; text_at(rt.alloc(), quoted.as_bytes())?.is_some());
    let longer = format!(in rt.alloc(); "\"{:0>256}\"", 7)?;
    assert!(rt; text_at(rt.alloc(), longer.as_bytes())?.is_none());
    Ok(())
}

#[test]
fn rows_and_keys_have_their_fields(rt: HostRuntime) -> Result<(), Fail> {
    let schema = small_schema(rt.alloc())?;
    let text = b"{ 7, \"a\" ,({1,\"b\"}) } ge";
    let (row, rest) = row_at(rt.alloc(), &schema, 0, text)?.ok_or("a row stands in front")?;
    let shown = row_text(rt.alloc(), &row)?;
    assert_eq!(rt; shown.as_str(), "{7,\"a\",({1,\"b\"})}");
    assert_eq!(rt; rest, b" ge".as_slice());
    let (key, rest) = key_at(rt.alloc(), &schema, 0, 0, b"{\"a\", 7}")?.ok_or(
        "a key stands in front",
    )?;
    let shown = row_text(rt.alloc(), &key)?;
    assert_eq!(rt; shown.as_str(), "{\"a\",7}");
    assert!(rt; rest.is_empty());
    assert!(rt; row_at(rt.alloc(), &schema, 1, b"{}")?.is_none());
    assert!(rt; key_at(rt.alloc(), &schema, 0, 0, b"{7,\"a\"}")?.is_none());
    assert!(rt; key_at(rt.alloc(), &schema, 0, 0, b"{\"a\"}")?.is_none());
    Ok(())
}

#[test]
fn numbers_and_rectangles_take_no_memory(rt: HostRuntime) -> Result<(), Fail> {
    let (found, rest) = number_at(b"-12]").ok_or("a number stands in front")?;
    assert_eq!(rt; found, -12);
    assert_eq!(rt; rest, b"]".as_slice());
    let (rect, rest) = rect_at(b"[1,2,3,4] x").ok_or("a rectangle stands in front")?;
    assert_eq!(rt;
        rect,
        Rect {
            x1: 1,
            y1: 2,
            x2: 3,
            y2: 4
        }
    );
    assert_eq!(rt; rest, b" x".as_slice());
    Ok(())
}

#[test]
fn a_quoted_text_is_read_with_its_escapes(rt: HostRuntime) -> Result<(), Fail> {
    let read: [(&[u8], &str, usize); 6] = [
        (b"\"\"", "", 0),
        (b"\"a\\\"b\\\\\" x", "a\"b\\", 2),
        (b"\"\\x41\\x7F\\x0a\",", "A\u{7f}\n", 1),
        (b"\"\\x5c\\x4A\"", "\\J", 0),
        (b"\"\xC3\xA9\t\"\"", "\u{e9}\t", 1),
        (b"\"xyz\"}", "xyz", 1),
    ];
    for (text, words, left) in read {
        let (found, rest) = quoted_at(rt.alloc(), text)?.ok_or("the text is quoted")?;
        assert_eq!(rt; found.as_str(), words);
        assert_eq!(rt; rest.len(), left);
    }
    Ok(())
}

#[test]
fn what_is_no_quoted_text_is_not_read(rt: HostRuntime) -> Result<(), Fail> {
    let refused: [&[u8]; 11] = [
        b"",
        b"abc\"",
        b"\"abc",
        b"\"\\",
        b"\"\\\"",
        b"\"\\a\"",
        b"\"\\x80\"",
        b"\"\\xFF\"",
        b"\"\\x4g\"",
        b"\"\xFF\"",
        b"\"\xC3\\x41\"",
    ];
    for text in refused {
        let read = quoted_at(rt.alloc(), text)?;
        assert!(rt; read.is_none());
    }
    Ok(())
}

#[test]
fn digits_are_read_up_to_64_bits(rt: HostRuntime) -> Result<(), Fail> {
    let read: [(&[u8], u64, usize); 4] = [
        (b"0", 0, 0),
        (b"007,", 7, 1),
        (b"18446744073709551615", 18446744073709551615, 0),
        (b"0000000000000000000000001x", 1, 1),
    ];
    for (text, value, left) in read {
        let (found, rest) = magnitude_at(text).ok_or("the text begins with digits")?;
        assert_eq!(rt; found, value);
        assert_eq!(rt; rest.len(), left);
    }
    let refused: [&[u8]; 4] = [b"", b"-1", b"+1", b"18446744073709551616"];
    for text in refused {
        assert!(rt; magnitude_at(text).is_none());
    }
    Ok(())
}
