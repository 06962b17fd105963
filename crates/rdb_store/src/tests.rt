//! A store made of a schema, and what it keeps of a class.
ghost use Rattle.std.specs.Prelude.{◌≡◌, ◌<◌, IfOk, length};
ghost use Rattle.rdb_store.specs.Shapes.{shapes_of};

use crate::class_index::ClassIndex;
use crate::store::Store;
use rdb_access::encode::EncodeFault;
use rdb_base::files::Bytes;
use rdb_base::list::{List, NoMemory};
use rdb_base::text::Text;
use rdb_base::value::{Leaf, Row, Value};
use rdb_schema::is_schema;
use rdb_schema::schema::{Class, Field, FieldType, IndexDecl, IndexKind, Schema};
use rdb_schema::values::row_holds;
use std::alloc::{AllocError, Global};
use std::test::Fail;

fn field(alloc: Global, name: &str, ty: FieldType) -> Result<Field, NoMemory> {
    Ok(Field {
        name: Text::of(alloc, name)?,
        ty,
    })
}

fn index(alloc: Global, name: &str, kind: IndexKind, key: &[u32]) -> Result<IndexDecl, NoMemory> {
    Ok(IndexDecl {
        name: Text::of(alloc, name)?,
        kind,
        unique: false,
        key: List::from_slice(alloc, key)?,
        estimate: None,
    })
}

/// A class of a number and a text, with an index over the number, and one of a kind over the text.
fn schema(alloc: Global, kind: IndexKind) -> Result<Schema, NoMemory> {
    let mut fields = List::new(alloc);
    let number = FieldType::Num {
        bytes: 4,
        signed: false,
    };
    fields.push(field(alloc, "number", number)?)?;
    fields.push(field(alloc, "words", FieldType::Str)?)?;
    let mut indexes = List::new(alloc);
    indexes.push(index(alloc, "by_number", IndexKind::Hash, &[0])?)?;
    indexes.push(index(alloc, "by_words", kind, &[1])?)?;
    let mut classes = List::new(alloc);
    classes.push(Class {
        name: Text::of(alloc, "Item")?,
        fields,
        autoid: false,
        estimate: None,
        indexes,
        events: List::new(alloc),
    })?;
    Ok(Schema {
        name: Text::of(alloc, "items")?,
        groups: List::new(alloc),
        classes,
    })
}

/// The store of a schema that has a class and that a store serves; want of memory stands for any other.
fn store_of(alloc: Global, schema: &Schema) -> Result<Store, NoMemory>
    ensures store { IfOk result (λ store. store ≡ shapes_of schema.now) }
    ensures some { IfOk result (λ store. 0 < length store) }
{
    if !is_schema(schema) || !Store::serves(schema) || schema.classes.is_empty() {
        return Err(AllocError);
    }
    let store = Store::of(alloc, schema)?;
    Ok(store)
}

/// The encoding of a row of the first class; want of memory stands for a row that is none of it.
fn encoded(alloc: Global, schema: &Schema, row: &Row) -> Result<Bytes, EncodeFault> {
    let store = store_of(alloc, schema)?;
    if !row_holds(schema, 0, row) {
        return Err(EncodeFault::NoMemory);
    }
    store.class(0).encode(row)
}

#[test]
fn a_store_serves_hashes_and_trees(rt: HostRuntime) -> Result<(), Fail> {
    let alloc = rt.alloc();
    for (kind, served) in [
        (IndexKind::Hash, true),
        (IndexKind::Tree, true),
        (IndexKind::Patricia, false),
    ] {
        assert_eq!(rt; Store::serves(&schema(alloc, kind)?), served);
    }
    Ok(())
}

#[test]
fn a_store_keeps_each_index_of_a_class(rt: HostRuntime) -> Result<(), Fail> {
    let alloc = rt.alloc();
    let store = store_of(alloc, &schema(alloc, IndexKind::Tree)?)?;
    let class = store.class(0);
    assert_eq!(rt; class.objects().class, 0);
    let indexes = class.indexes();
    assert_eq!(rt; indexes.len(), 2);
    assert!(rt; matches!(indexes[0].index, ClassIndex::Hash(_)));
    assert!(rt; matches!(indexes[1].index, ClassIndex::Tree(_)));
    Ok(())
}

#[test]
fn a_row_is_encoded_as_it_is_put(rt: HostRuntime) -> Result<(), Fail> {
    let alloc = rt.alloc();
    let schema = schema(alloc, IndexKind::Hash)?;
    let mut row = List::new(alloc);
    row.push(Value::Leaf(Leaf::Num(258)))?;
    row.push(Value::Leaf(Leaf::Text(Text::of(alloc, "ab")?)))?;
    match encoded(alloc, &schema, &row) {
        Ok(bytes) => assert_eq!(rt; bytes.as_slice(), [2, 1, 0, 0, 2, b'a', b'b'].as_slice()),
        Err(_) => assert!(rt; false, "not encoded"),
    }
    Ok(())
}
