//! Scripts that are refused, each for one cause, and scripts that are read, against those written by hand.

use crate::fault::ScriptFault;
use crate::script;
use crate::unit::{ScriptLine, Unit};
use rdb_base::identity::Kind;
use rdb_base::list::{List, NoMemory};
use rdb_base::operation::{How, Op, Place};
use rdb_base::text::Text;
use rdb_base::value::{Element, Leaf, Rect, Row, Value};
use rdb_schema::schema::{
    Class, Event, EventKind, Events, Field, FieldType, Fields, IndexDecl, IndexKind, Indexes,
    Plain, Schema,
};
use std::alloc::Global;
use std::process::Abort;
use std::test::Fail;

fn number(bytes: u8) -> FieldType {
    FieldType::Num {
        bytes,
        signed: false,
    }
}

fn fields_of(alloc: Global, declared: &[(&str, FieldType)]) -> Result<Fields, NoMemory> {
    let mut fields = List::new(alloc);
    for (name, ty) in declared {
        let name = Text::of(alloc, name)?;
        fields.push(Field { name, ty: *ty })?;
    }
    Ok(fields)
}

/// Indexes over one field each, by its place.
fn indexes_of(alloc: Global, declared: &[(&str, IndexKind, u32)]) -> Result<Indexes, NoMemory> {
    let mut indexes = List::new(alloc);
    for (name, kind, field) in declared {
        let name = Text::of(alloc, name)?;
        let key = List::from_slice(alloc, &[*field])?;
        indexes.push(IndexDecl {
            name,
            kind: *kind,
            unique: false,
            key,
            estimate: None,
        })?;
    }
    Ok(indexes)
}

fn events_of(alloc: Global, declared: &[(&str, EventKind)]) -> Result<Events, NoMemory> {
    let mut events = List::new(alloc);
    for (name, kind) in declared {
        let name = Text::of(alloc, name)?;
        events.push(Event { name, kind: *kind })?;
    }
    Ok(events)
}

/// `class Item { uint4 stock; string name; rect<int4> area; autoid; hash<stock> byHash; tree<stock> byStock;
/// tree<name> byName; rtree<area> byArea; patricia<name> pName; event<new> came; event<delete> gone; }`.
fn item(alloc: Global) -> Result<Class, NoMemory> {
    let fields = [
        ("stock", number(4)),
        ("name", FieldType::Str),
        ("area", FieldType::Box4),
    ];
    let indexes = [
        ("byHash", IndexKind::Hash, 0),
        ("byStock", IndexKind::Tree, 0),
        ("byName", IndexKind::Tree, 1),
        ("byArea", IndexKind::Rtree, 2),
        ("pName", IndexKind::Patricia, 1),
    ];
    let events = [("came", EventKind::New), ("gone", EventKind::Delete)];
    Ok(Class {
        name: Text::of(alloc, "Item")?,
        fields: fields_of(alloc, fields.as_slice())?,
        autoid: true,
        estimate: None,
        indexes: indexes_of(alloc, indexes.as_slice())?,
        events: events_of(alloc, events.as_slice())?,
    })
}

/// `class Note { vector<string> words; uint1 kind; tree<kind> byKind; event<new> came; }`.
fn note(alloc: Global) -> Result<Class, NoMemory> {
    let fields = [
        ("words", FieldType::Vector(Plain::Str)),
        ("kind", number(1)),
    ];
    let indexes = [("byKind", IndexKind::Tree, 1)];
    let events = [("came", EventKind::New)];
    Ok(Class {
        name: Text::of(alloc, "Note")?,
        fields: fields_of(alloc, fields.as_slice())?,
        autoid: false,
        estimate: None,
        indexes: indexes_of(alloc, indexes.as_slice())?,
        events: events_of(alloc, events.as_slice())?,
    })
}

fn shop(alloc: Global) -> Result<Schema, NoMemory> {
    let mut classes = List::new(alloc);
    classes.push(item(alloc)?)?;
    classes.push(note(alloc)?)?;
    Ok(Schema {
        name: Text::of(alloc, "shop")?,
        groups: List::new(alloc),
        classes,
    })
}

/// Each text is refused at the line beside it.
fn expect_refused(rt: &impl Abort, alloc: Global, refused: &[(&[u8], u64)]) -> Result<(), Fail> {
    let schema = shop(alloc)?;
    for (text, line) in refused {
        let fault = script(alloc, &schema, text).err();
        assert_eq!(rt; fault, Some(ScriptFault::Line { line: *line }));
    }
    Ok(())
}

#[test]
fn operations_out_of_the_grammar_are_refused(rt: HostRuntime) -> Result<(), Fail> {
    let refused: [(&[u8], u64); 14] = [
        (b"begin rw\nfetch Item 1\ncommit\n", 2),
        (b"begin rw\nnew Note\ncommit\n", 2),
        (b"begin rw\nnew Note{(),1}\ncommit\n", 2),
        (b"begin rw\nnew Note {(),1} 2\ncommit\n", 2),
        (b"begin rw\nget Item\ncommit\n", 2),
        (b"begin rw\nget Item 0\ncommit\n", 2),
        (b"begin rw\nget Item -1\ncommit\n", 2),
        (b"begin rw\nget Item 18446744073709551616\ncommit\n", 2),
        (b"begin rw\nseek Item.byStock\ncommit\n", 2),
        (b"begin rw\nseek Item.byStock ge{20}\ncommit\n", 2),
        (b"begin rw\nseek Item.byStock first last\ncommit\n", 2),
        (b"begin rw\narea Item.byArea within [0,0,1,1]\ncommit\n", 2),
        (b"begin rw\nprefix Item.pName some \"a\"\ncommit\n", 2),
        (b"begin rw\ncount Item 1\ncommit\n", 2),
    ];
    expect_refused(&rt, rt.alloc(), refused.as_slice())
}

#[test]
fn lines_round_operations_out_of_the_grammar_are_refused(rt: HostRuntime) -> Result<(), Fail> {
    let refused: [(&[u8], u64); 14] = [
        (b"hello", 1),
        (b"begin\ncommit\n", 1),
        (b"begin rx\ncommit\n", 1),
        (b"begin ro retry 1\ncommit\n", 1),
        (b"begin rw retry\ncommit\n", 1),
        (b"begin rw retry 1001\ncommit\n", 1),
        (b"begin rw retry 1 2\ncommit\n", 1),
        (b"begin rw\ncommit now\n", 2),
        (b"begin rw\nrollback 1\n", 2),
        (b"stop\n", 1),
        (b"stop 0\n", 1),
        (b"stop 4294967296\n", 1),
        (b"\n# fine\n\xC3\n\xFF\n", 3),
        (b"begin rw\ncommit\r", 2),
    ];
    expect_refused(&rt, rt.alloc(), refused.as_slice())
}

#[test]
fn assignments_out_of_the_grammar_are_refused(rt: HostRuntime) -> Result<(), Fail> {
    let refused: [(&[u8], u64); 5] = [
        (b"begin rw\nx=new Note {(),1}\ncommit\n", 2),
        (b"begin rw\nx = get Item 1\ncommit\n", 2),
        (b"begin rw\nx = count Item\ncommit\n", 2),
        (b"begin rw\n1x = new Note {(),1}\ncommit\n", 2),
        (
            b"begin rw\na23456789012345678901234567890123 = new Note {(),1}\ncommit\n",
            2,
        ),
    ];
    expect_refused(&rt, rt.alloc(), refused.as_slice())
}

#[test]
fn lines_that_stand_where_they_may_not_are_refused(rt: HostRuntime) -> Result<(), Fail> {
    let refused: [(&[u8], u64); 13] = [
        (b"commit\n", 1),
        (b"rollback\n", 1),
        (b"get Item 1\n", 1),
        (b"begin rw\nbegin rw\ncommit\n", 2),
        (b"begin rw\ncommit\ncommit\n", 3),
        (b"begin rw\ncommit\ncount Item\n", 3),
        (b"begin ro\nstop 3\ncommit\n", 2),
        (b"stop 3\nstop 3\n", 2),
        (b"watch Item.came\nstop 3\n", 2),
        (b"begin rw\nwatch Item.came\ncommit\n", 2),
        (b"watch Item.came\nbegin rw\npoll Item.came\ncommit\n", 3),
        (b"begin rw", 2),
        (b"begin rw\n# not ended\n", 3),
    ];
    expect_refused(&rt, rt.alloc(), refused.as_slice())
}

#[test]
fn writes_under_ro_and_events_out_of_order_are_refused(rt: HostRuntime) -> Result<(), Fail> {
    let refused: [(&[u8], u64); 7] = [
        (b"begin ro\nnew Note {(),1}\ncommit\n", 2),
        (b"begin ro\nput Item 1 {1,\"a\",[0,0,0,0]}\ncommit\n", 2),
        (b"begin ro\ndel Item 1\ncommit\n", 2),
        (b"poll Item.came\n", 1),
        (b"watch Item.came\npoll Item.gone\n", 2),
        (b"watch Item.came\nwatch Item.came\n", 2),
        (
            b"watch Note.came\nwatch Item.came\npoll Note.came\nwatch Note.came\n",
            4,
        ),
    ];
    expect_refused(&rt, rt.alloc(), refused.as_slice())
}

#[test]
fn words_that_the_schema_does_not_have_are_refused(rt: HostRuntime) -> Result<(), Fail> {
    let refused: [(&[u8], u64); 7] = [
        (b"begin rw\ncount Thing\ncommit\n", 2),
        (b"begin rw\nnew Items {1}\ncommit\n", 2),
        (b"begin rw\nfind Item.byPrice {1}\ncommit\n", 2),
        (b"begin rw\nfind Note.byStock {1}\ncommit\n", 2),
        (b"begin rw\nfind Item {1}\ncommit\n", 2),
        (b"watch Item.moved\n", 1),
        (b"watch Note.gone\n", 1),
    ];
    expect_refused(&rt, rt.alloc(), refused.as_slice())
}

#[test]
fn values_that_do_not_fit_are_refused(rt: HostRuntime) -> Result<(), Fail> {
    let refused: [(&[u8], u64); 8] = [
        (b"begin rw\nnew Note {(),256}\ncommit\n", 2),
        (b"begin rw\nnew Note {()}\ncommit\n", 2),
        (b"begin rw\nput Item 1 {1,\"a\",[1,0,0,0]}\ncommit\n", 2),
        (b"begin rw\nfind Item.byHash {\"a\"}\ncommit\n", 2),
        (b"begin rw\nseek Item.byName ge {1}\ncommit\n", 2),
        (b"begin rw\narea Item.byArea inside [1,0,0,0]\ncommit\n", 2),
        (b"begin rw\narea Item.byArea inside 1\ncommit\n", 2),
        (b"begin rw\nprefix Item.pName exact 1\ncommit\n", 2),
    ];
    expect_refused(&rt, rt.alloc(), refused.as_slice())
}

#[test]
fn indexes_of_another_kind_are_refused(rt: HostRuntime) -> Result<(), Fail> {
    let refused: [(&[u8], u64); 8] = [
        (b"begin rw\nfind Item.byArea {[0,0,1,1]}\ncommit\n", 2),
        (b"begin rw\nfind Item.pName {\"a\"}\ncommit\n", 2),
        (b"begin rw\nseek Item.byHash first\ncommit\n", 2),
        (b"begin rw\nseek Item.pName ge {\"a\"}\ncommit\n", 2),
        (b"begin rw\narea Item.byStock inside [0,0,1,1]\ncommit\n", 2),
        (b"begin rw\narea Item.pName overlaps [0,0,1,1]\ncommit\n", 2),
        (b"begin rw\nprefix Item.byName exact \"a\"\ncommit\n", 2),
        (b"begin rw\nprefix Item.byHash longest \"a\"\ncommit\n", 2),
    ];
    expect_refused(&rt, rt.alloc(), refused.as_slice())
}

#[test]
fn targets_that_stand_for_no_object_of_the_class_are_refused(rt: HostRuntime) -> Result<(), Fail> {
    let refused: [(&[u8], u64); 8] = [
        (b"begin rw\nget Note 1\ncommit\n", 2),
        (b"begin rw\ndel Note 1\ncommit\n", 2),
        (b"begin rw\nput Note 1 {(),1}\ncommit\n", 2),
        (
            b"begin rw\nget Item x\nx = find Item.byHash {1}\ncommit\n",
            2,
        ),
        (b"begin rw\nget Item Item\ncommit\n", 2),
        (b"begin rw\nx = new Note {(),1}\nget Item x\ncommit\n", 3),
        (
            b"begin rw\nx = seek Note.byKind first\ndel Item x\ncommit\n",
            3,
        ),
        (
            b"begin rw\nx = find Item.byHash {1}\nx = new Note {(),1}\nget Item x\ncommit\n",
            4,
        ),
    ];
    expect_refused(&rt, rt.alloc(), refused.as_slice())
}

#[test]
fn cursors_of_no_place_in_the_index_are_refused(rt: HostRuntime) -> Result<(), Fail> {
    let refused: [(&[u8], u64); 6] = [
        (b"begin rw\nseek Item.byStock next x\ncommit\n", 2),
        (
            b"begin rw\nx = find Item.byStock {1}\nseek Item.byStock next x\ncommit\n",
            3,
        ),
        (
            b"begin rw\nx = seek Item.byName first\nseek Item.byStock prev x\ncommit\n",
            3,
        ),
        (
            b"begin rw\nx = seek Note.byKind first\nseek Item.byStock next x\ncommit\n",
            3,
        ),
        (
            b"begin rw\nx = seek Item.byStock first\nx = find Item.byHash {1}\nseek Item.byStock next x\ncommit\n",
            4,
        ),
        (
            b"begin rw\nx = seek Item.byStock first\nseek Item.byStock next x x\ncommit\n",
            3,
        ),
    ];
    expect_refused(&rt, rt.alloc(), refused.as_slice())
}

/// The text that begins so, then has a piece so many times, and ends so.
fn repeated(
    alloc: Global,
    begin: &str,
    piece: &str,
    times: usize,
    end: &str,
) -> Result<String, NoMemory> {
    let mut text = String::from_str(alloc, begin)?;
    for _ in 0..times {
        text.push_str(piece)?;
    }
    text.push_str(end)?;
    Ok(text)
}

/// The text with so many pieces is read, and with one more it is refused at this line.
fn expect_most(
    rt: &impl Abort,
    alloc: Global,
    begin: &str,
    piece: &str,
    most: usize,
    end: &str,
    line: u64,
) -> Result<(), Fail> {
    let schema = shop(alloc)?;
    let fits = repeated(alloc, begin, piece, most, end)?;
    assert!(rt; script(alloc, &schema, fits.as_bytes()).is_ok());
    let over = repeated(alloc, begin, piece, most.saturating_add(1), end)?;
    let fault = script(alloc, &schema, over.as_bytes()).err();
    assert_eq!(rt; fault, Some(ScriptFault::Line { line }));
    Ok(())
}

#[test]
fn texts_have_at_most_255_bytes(rt: HostRuntime) -> Result<(), Fail> {
    let begin = "begin rw\nnew Item {1,\"";
    expect_most(&rt, rt.alloc(), begin, "a", 255, "\",[0,0,0,0]}\ncommit", 2)?;
    let begin = "begin rw\nprefix Item.pName exact \"";
    expect_most(&rt, rt.alloc(), begin, "a", 255, "\"\ncommit", 2)?;
    Ok(())
}

#[test]
fn vectors_have_at_most_64_elements(rt: HostRuntime) -> Result<(), Fail> {
    let begin = "begin rw\nnew Note {(\"\"";
    expect_most(&rt, rt.alloc(), begin, ",\"\"", 63, "),1}\ncommit", 2)?;
    let begin = "begin rw\nx = seek Note.byKind first\nput Note x {(\"\"";
    expect_most(&rt, rt.alloc(), begin, ",\"\"", 63, "),1}\ncommit", 3)?;
    Ok(())
}

/// Behind these words, which end with a row's first sign, a row of `Note` has at most 4,000 bytes: a vector of 15 texts
/// of 255 bytes and one of 157, and a number of one byte, take 1 + 15 * 256 + 158 + 1.
fn expect_row(rt: &impl Abort, alloc: Global, begin: &str, line: u64) -> Result<(), Fail> {
    let long = repeated(alloc, "\"", "a", 255, "\",")?;
    let begin = repeated(alloc, begin, long.as_str(), 15, "\"")?;
    expect_most(rt, alloc, begin.as_str(), "a", 157, "\"),1}\ncommit", line)?;
    Ok(())
}

#[test]
fn rows_have_at_most_4_000_bytes(rt: HostRuntime) -> Result<(), Fail> {
    expect_row(&rt, rt.alloc(), "begin rw\nnew Note {(", 2)?;
    expect_row(
        &rt,
        rt.alloc(),
        "begin rw\nx = seek Note.byKind first\nput Note x {(",
        3,
    )?;
    Ok(())
}

#[test]
fn transactions_have_at_most_1_000_operations(rt: HostRuntime) -> Result<(), Fail> {
    expect_most(
        &rt,
        rt.alloc(),
        "begin ro\n",
        "count Item\n",
        1_000,
        "commit\n",
        1_002,
    )?;
    expect_most(
        &rt,
        rt.alloc(),
        "begin rw\n#\n",
        "\ndel Item 1\n",
        1_000,
        "rollback",
        2_004,
    )?;
    Ok(())
}

#[test]
fn scripts_have_at_most_10_000_transactions(rt: HostRuntime) -> Result<(), Fail> {
    let piece = "begin ro\ncommit\n";
    expect_most(
        &rt,
        rt.alloc(),
        "stop 1\n",
        piece,
        10_000,
        "watch Item.came",
        20_002,
    )?;
    let piece = "begin ro\nrollback\n";
    expect_most(
        &rt,
        rt.alloc(),
        "begin rw\ncommit\n",
        piece,
        9_999,
        "",
        20_001,
    )?;
    Ok(())
}

/// The lines, in a transaction of their own, are operations of which the last is this.
fn expect_last(rt: &impl Abort, alloc: Global, lines: &str, line: &ScriptLine) -> Result<(), Fail> {
    let schema = shop(alloc)?;
    let text = format!(in alloc; "begin rw retry 7\n{lines}\ncommit")?;
    let script = script(alloc, &schema, text.as_bytes())?;
    assert_eq!(rt; script.units.len(), 1);
    match script.units.as_slice().first() {
        Some(
            Unit::Tx {
                kind,
                retries,
                lines,
                commits,
            },
        ) => {
            assert_eq!(rt; *kind, Kind::ReadWrite);
            assert_eq!(rt; *retries, 7);
            assert!(rt; *commits);
            assert_eq!(rt; lines.as_slice().last(), Some(line));
        }
        _ => assert!(rt; false, "no transaction"),
    }
    Ok(())
}

/// The line is this operation, and assigns no name.
fn expect_operation(rt: &impl Abort, alloc: Global, line: &str, op: Op) -> Result<(), Fail> {
    let written = ScriptLine {
        name: None,
        from: None,
        op,
    };
    expect_last(rt, alloc, line, &written)
}

#[test]
fn rows_are_read_as_written(rt: HostRuntime) -> Result<(), Fail> {
    let alloc = rt.alloc();
    let mut words = List::new(alloc);
    words.push(Element::Leaf(Leaf::Text(Text::of(alloc, "ab")?)))?;
    words.push(Element::Leaf(Leaf::Text(Text::of(alloc, "")?)))?;
    let mut row = List::new(alloc);
    row.push(Value::List(words))?;
    row.push(Value::Leaf(Leaf::Num(7)))?;
    let op = Op::New {
        class: 1,
        row,
        id: 0,
    };
    expect_operation(&rt, alloc, "new Note { (\"a\\x62\",\"\") , 07 }", op)
}

/// The row of class `Item` with this stock, name and area.
fn item_row(alloc: Global, stock: i128, name: &str, area: Rect) -> Result<Row, NoMemory> {
    let mut row = List::new(alloc);
    row.push(Value::Leaf(Leaf::Num(stock)))?;
    row.push(Value::Leaf(Leaf::Text(Text::of(alloc, name)?)))?;
    row.push(Value::Leaf(Leaf::Rect(area)))?;
    Ok(row)
}

/// The rectangle `[-1,2,3,4]`.
fn rect() -> Rect {
    Rect {
        x1: -1,
        y1: 2,
        x2: 3,
        y2: 4,
    }
}

#[test]
fn operations_on_objects_are_read_as_written(rt: HostRuntime) -> Result<(), Fail> {
    let alloc = rt.alloc();
    let put = Op::Put {
        class: 0,
        id: 12,
        row: item_row(alloc, 3, "\"", rect())?,
    };
    expect_operation(&rt, alloc, "put Item 12 {3,\"\\\"\",[-1,2,3,4]}", put)?;
    let get = Op::Get {
        class: 0,
        id: 18446744073709551615,
    };
    expect_operation(&rt, alloc, "get Item 0018446744073709551615", get)?;
    let del = Op::Del { class: 0, id: 1 };
    expect_operation(&rt, alloc, "del\t Item 1 \r", del)?;
    expect_operation(&rt, alloc, "count Note", Op::Count { class: 1 })
}

#[test]
fn areas_are_read_as_written(rt: HostRuntime) -> Result<(), Fail> {
    let areas = [
        ("\t area  Item.byArea inside [-1,2,3,04]\t", true),
        ("area Item.byArea overlaps [ -1,2,3,4 ]", false),
    ];
    for (line, inside) in areas {
        let area = Op::Area {
            class: 0,
            index: 3,
            rect: rect(),
            inside,
        };
        expect_operation(&rt, rt.alloc(), line, area)?;
    }
    Ok(())
}

#[test]
fn prefixes_are_read_as_written(rt: HostRuntime) -> Result<(), Fail> {
    let prefixes = [
        ("prefix Item.pName exact \"a b\"", How::Exact, "a b"),
        (
            "prefix Item.pName longest \"\\x61\\\"\"",
            How::Longest,
            "a\"",
        ),
        ("prefix Item.pName starting \"\"", How::Starting, ""),
    ];
    for (line, how, words) in prefixes {
        let prefix = Op::Prefix {
            class: 0,
            index: 4,
            text: Text::of(rt.alloc(), words)?,
            how,
        };
        expect_operation(&rt, rt.alloc(), line, prefix)?;
    }
    Ok(())
}

/// The `seek` on the index over `stock` that begins at this place.
fn seek(place: Place, up: bool) -> Op {
    Op::Seek {
        class: 0,
        index: 1,
        place,
        up,
    }
}

/// The key of one number.
fn key(alloc: Global, number: i128) -> Result<Row, NoMemory> {
    let mut key = List::new(alloc);
    key.push(Value::Leaf(Leaf::Num(number)))?;
    Ok(key)
}

#[test]
fn seeks_from_an_end_begin_there(rt: HostRuntime) -> Result<(), Fail> {
    let alloc = rt.alloc();
    expect_operation(
        &rt,
        alloc,
        "seek Item.byStock first",
        seek(Place::Start, true),
    )?;
    expect_operation(
        &rt,
        alloc,
        "seek Item.byStock last",
        seek(Place::End, false),
    )
}

#[test]
fn seeks_from_a_key_begin_before_or_behind_its_ids(rt: HostRuntime) -> Result<(), Fail> {
    let seeks = [
        ("seek Item.byStock ge {20}", 0, true),
        ("seek Item.byStock gt {20}", 18446744073709551615, true),
        ("seek Item.byStock le {20}", 18446744073709551615, false),
        ("seek Item.byStock lt {20}", 0, false),
    ];
    for (line, id, up) in seeks {
        let place = Place::At {
            key: key(rt.alloc(), 20)?,
            id,
        };
        expect_operation(&rt, rt.alloc(), line, seek(place, up))?;
    }
    Ok(())
}

/// The lines end with this operation, for which the name stands.
fn expect_named(
    rt: &impl Abort,
    alloc: Global,
    lines: &str,
    name: &str,
    op: Op,
) -> Result<(), Fail> {
    let written = ScriptLine {
        name: None,
        from: Some(Text::of(alloc, name)?),
        op,
    };
    expect_last(rt, alloc, lines, &written)
}

#[test]
fn names_stand_for_places_and_objects(rt: HostRuntime) -> Result<(), Fail> {
    let alloc = rt.alloc();
    let next = "c = seek Item.byStock first\nseek Item.byStock next c";
    expect_named(&rt, alloc, next, "c", seek(Place::End, true))?;
    let prev = "_1 = seek Item.byStock last\nseek Item.byStock prev _1";
    expect_named(&rt, alloc, prev, "_1", seek(Place::Start, false))?;
    let del = "new = find Item.byHash {5}\ndel Item new";
    expect_named(&rt, alloc, del, "new", Op::Del { class: 0, id: 0 })?;
    let get = "x = new Note {(),1}\nx = seek Item.byName last\nget Item x";
    expect_named(&rt, alloc, get, "x", Op::Get { class: 0, id: 0 })
}

#[test]
fn a_name_may_be_any_word(rt: HostRuntime) -> Result<(), Fail> {
    let alloc = rt.alloc();
    let find = Op::Find {
        class: 0,
        index: 0,
        key: key(alloc, 5)?,
    };
    let written = ScriptLine {
        name: Some(Text::of(alloc, "stop")?),
        from: None,
        op: find,
    };
    expect_last(&rt, alloc, "stop = find Item.byHash {5}", &written)
}

#[test]
fn units_stand_in_order(rt: HostRuntime) -> Result<(), Fail> {
    let alloc = rt.alloc();
    let schema = shop(alloc)?;
    let text = b"# first\r\n\r\nstop 007\nwatch Item.gone\n begin ro\n\trollback\npoll Item.gone";
    let script = script(alloc, &schema, text)?;
    assert_eq!(rt; script.stop, Some(7));
    let written = [
        Unit::Watch { class: 0, event: 1 },
        Unit::Tx {
            kind: Kind::ReadOnly,
            retries: 0,
            lines: List::new(alloc),
            commits: false,
        },
        Unit::Poll { class: 0, event: 1 },
    ];
    assert_eq!(rt; script.units.as_slice(), written.as_slice());
    Ok(())
}
