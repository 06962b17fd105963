use crate::is_schema;
use crate::schema::{Class, Field, FieldType, Fields, IndexDecl, IndexKind, Schema};
use rdb_base::list::{List, NoMemory};
use rdb_base::text::Text;
use std::alloc::Global;
use std::test::Fail;

/// A number, a text and a box.
fn three_fields(alloc: Global) -> Result<Fields, NoMemory> {
    let number = FieldType::Num {
        bytes: 8,
        signed: false,
    };
    let mut fields = List::new(alloc);
    for (name, ty) in [
        ("number", number),
        ("words", FieldType::Str),
        ("area", FieldType::Box4),
    ] {
        fields.push(Field {
            name: Text::of(alloc, name)?,
            ty,
        })?;
    }
    Ok(fields)
}

/// A schema of one class with three fields and one index.
fn one_class(
    alloc: Global,
    class: &str,
    kind: IndexKind,
    unique: bool,
    key: &[u32],
) -> Result<Schema, NoMemory> {
    let mut indexes = List::new(alloc);
    indexes.push(IndexDecl {
        name: Text::of(alloc, "by")?,
        kind,
        unique,
        key: List::from_slice(alloc, key)?,
        estimate: None,
    })?;
    let mut classes = List::new(alloc);
    classes.push(Class {
        name: Text::of(alloc, class)?,
        fields: three_fields(alloc)?,
        autoid: false,
        estimate: None,
        indexes,
        events: List::new(alloc),
    })?;
    Ok(Schema {
        name: Text::of(alloc, "small")?,
        groups: List::new(alloc),
        classes,
    })
}

#[test]
fn keys_suit_the_kinds_of_their_indexes(rt: HostRuntime) -> Result<(), Fail> {
    let cases: [(IndexKind, bool, &[u32], bool); 12] = [
        (IndexKind::Tree, true, &[1, 0], true),
        (IndexKind::Hash, false, &[0], true),
        (IndexKind::Hash, false, &[2], false),
        (IndexKind::Tree, false, &[0, 0], false),
        (IndexKind::Tree, false, &[3], false),
        (IndexKind::Tree, false, &[], false),
        (IndexKind::Patricia, true, &[1], true),
        (IndexKind::Patricia, true, &[0], false),
        (IndexKind::Patricia, false, &[1, 0], false),
        (IndexKind::Rtree, false, &[2], true),
        (IndexKind::Rtree, true, &[2], false),
        (IndexKind::Rtree, false, &[1], false),
    ];
    for (kind, unique, key, expected) in cases {
        let schema = one_class(rt.alloc(), "Item", kind, unique, key)?;
        assert_eq!(rt; is_schema(&schema), expected);
    }
    Ok(())
}

#[test]
fn a_class_has_a_name_that_a_text_can_have(rt: HostRuntime) -> Result<(), Fail> {
    let cases = [
        ("_Item9", true),
        ("abcdefghijklmnopqrstuvwxyz_12345", true),
        ("abcdefghijklmnopqrstuvwxyz_123456", false),
        ("9Item", false),
        ("Item-9", false),
        ("", false),
        ("class", false),
    ];
    for (name, expected) in cases {
        let schema = one_class(rt.alloc(), name, IndexKind::Hash, true, &[0])?;
        assert_eq!(rt; is_schema(&schema), expected);
    }
    Ok(())
}
