//! Lines of a script, filled by replies that are noted. The expected operations follow from what the replies say.

use crate::Bindings;
use rdb_base::list::{List, NoMemory};
use rdb_base::operation::{Op, Place, Reply};
use rdb_base::text::Text;
use rdb_base::value::{Leaf, Row, Value};
use rdb_schema::schema::{Class, Field, FieldType, IndexDecl, IndexKind, Schema};
use rdb_script::script;
use rdb_script::unit::{Script, Unit, Units};
use std::alloc::Global;
use std::process::Abort;
use std::test::Fail;

/// The script of the tests, with a transaction of seven lines and one of three.
const TEXT: &[u8] = b"begin rw retry 1
x = new Item {1}
get Item x
x = find Item.byStock {1}
put Item x {2}
c = seek Item.byStock first
seek Item.byStock next c
del Item c
commit
begin rw
get Item x
x = new Item {3}
seek Item.byStock prev c
commit
";

/// A line, by its unit, its place there, and its number through the script.
#[derive(Clone, Copy)]
struct At {
    unit: usize,
    place: usize,
    number: usize,
}

const MAKE_X: usize = 0;

const FIND_X: usize = 2;

const SEEK_C: usize = 4;

const MAKE_X_LATER: usize = 8;

const GET_X: At = At {
    unit: 0,
    place: 1,
    number: 1,
};

const PUT_X: At = At {
    unit: 0,
    place: 3,
    number: 3,
};

const NEXT_C: At = At {
    unit: 0,
    place: 5,
    number: 5,
};

const DEL_C: At = At {
    unit: 0,
    place: 6,
    number: 6,
};

const GET_X_LATER: At = At {
    unit: 1,
    place: 0,
    number: 7,
};

const PREV_C: At = At {
    unit: 1,
    place: 2,
    number: 9,
};

/// `class Item { uint4 stock; tree<stock> byStock; }`.
fn item(alloc: Global) -> Result<Class, NoMemory> {
    let mut fields = List::new(alloc);
    fields.push(Field {
        name: Text::of(alloc, "stock")?,
        ty: FieldType::Num {
            bytes: 4,
            signed: false,
        },
    })?;
    let mut indexes = List::new(alloc);
    indexes.push(IndexDecl {
        name: Text::of(alloc, "byStock")?,
        kind: IndexKind::Tree,
        unique: false,
        key: List::from_slice(alloc, &[0])?,
        estimate: None,
    })?;
    Ok(Class {
        name: Text::of(alloc, "Item")?,
        fields,
        autoid: false,
        estimate: None,
        indexes,
        events: List::new(alloc),
    })
}

fn read(alloc: Global) -> Result<Script, Fail> {
    let mut classes = List::new(alloc);
    classes.push(item(alloc)?)?;
    let schema = Schema {
        name: Text::of(alloc, "shop")?,
        groups: List::new(alloc),
        classes,
    };
    Ok(script(alloc, &schema, TEXT)?)
}

fn number(alloc: Global, n: i128) -> Result<Row, NoMemory> {
    let mut row = List::new(alloc);
    row.push(Value::Leaf(Leaf::Num(n)))?;
    Ok(row)
}

fn get(id: u64) -> Op {
    Op::Get { class: 0, id }
}

fn del(id: u64) -> Op {
    Op::Del { class: 0, id }
}

fn put(alloc: Global, id: u64) -> Result<Op, NoMemory> {
    Ok(Op::Put {
        class: 0,
        id,
        row: number(alloc, 2)?,
    })
}

fn seek(place: Place, up: bool) -> Op {
    Op::Seek {
        class: 0,
        index: 0,
        place,
        up,
    }
}

fn place(alloc: Global, n: i128, id: u64) -> Result<Place, NoMemory> {
    Ok(Place::At {
        key: number(alloc, n)?,
        id,
    })
}

fn note(rt: &impl Abort, bindings: &mut Bindings, at: usize, reply: Reply) -> Result<(), NoMemory> {
    assert!(rt; at < bindings.lines());
    bindings.note(at, &reply)
}

fn filled(bindings: &Bindings, units: &Units, at: At) -> Result<Option<Op>, NoMemory> {
    let Some(Unit::Tx { lines, .. }) = units.as_slice().get(at.unit) else {
        return Ok(None);
    };
    let Some(line) = lines.as_slice().get(at.place) else {
        return Ok(None);
    };
    Ok(Some(bindings.fill(at.number, line)?))
}

/// The line asks for that operation.
fn expect(
    rt: &impl Abort,
    bindings: &Bindings,
    units: &Units,
    at: At,
    op: Op,
) -> Result<(), NoMemory> {
    assert_eq!(rt; filled(bindings, units, at)?, Some(op));
    Ok(())
}

#[test]
fn names_without_a_reply_stand_for_nothing(rt: HostRuntime) -> Result<(), Fail> {
    let alloc = rt.alloc();
    let script = read(alloc)?;
    let bindings = Bindings::new(alloc, &script.units)?;
    let asked = [
        (GET_X, get(0)),
        (PUT_X, put(alloc, 0)?),
        (NEXT_C, seek(Place::End, true)),
        (DEL_C, del(0)),
        (GET_X_LATER, get(0)),
        (PREV_C, seek(Place::Start, false)),
    ];
    for (at, op) in asked {
        expect(&rt, &bindings, &script.units, at, op)?;
    }
    Ok(())
}

#[test]
fn the_last_line_above_decides_by_its_last_reply(rt: HostRuntime) -> Result<(), Fail> {
    let alloc = rt.alloc();
    let script = read(alloc)?;
    let mut bindings = Bindings::new(alloc, &script.units)?;
    let none = List::new(alloc);
    let some = List::from_slice(alloc, &[5, 6])?;
    // What is told, and what the lines that get, put and get `x` later ask for then.
    let told = [
        (MAKE_X, Reply::Made(7), 7, 0, 0),
        (FIND_X, Reply::Ids(some), 7, 5, 5),
        (MAKE_X_LATER, Reply::Made(9), 7, 5, 5),
        (MAKE_X, Reply::Made(8), 8, 5, 5),
        (FIND_X, Reply::Ids(none), 8, 0, 0),
        (MAKE_X, Reply::Duplicate { index: 0, id: 3 }, 0, 0, 0),
    ];
    for (at, reply, got, changed, got_later) in told {
        note(&rt, &mut bindings, at, reply)?;
        expect(&rt, &bindings, &script.units, GET_X, get(got))?;
        expect(&rt, &bindings, &script.units, PUT_X, put(alloc, changed)?)?;
        expect(&rt, &bindings, &script.units, GET_X_LATER, get(got_later))?;
    }
    Ok(())
}

#[test]
fn a_cursor_stands_for_the_place_found(rt: HostRuntime) -> Result<(), Fail> {
    let alloc = rt.alloc();
    let script = read(alloc)?;
    let mut bindings = Bindings::new(alloc, &script.units)?;
    let key = number(alloc, 5)?;
    note(&rt, &mut bindings, SEEK_C, Reply::At { key, id: 3 })?;
    expect(
        &rt,
        &bindings,
        &script.units,
        NEXT_C,
        seek(place(alloc, 5, 3)?, true),
    )?;
    expect(&rt, &bindings, &script.units, DEL_C, del(3))?;
    expect(
        &rt,
        &bindings,
        &script.units,
        PREV_C,
        seek(place(alloc, 5, 3)?, false),
    )?;
    note(&rt, &mut bindings, SEEK_C, Reply::End)?;
    expect(
        &rt,
        &bindings,
        &script.units,
        NEXT_C,
        seek(Place::End, true),
    )?;
    expect(&rt, &bindings, &script.units, DEL_C, del(0))?;
    Ok(())
}
