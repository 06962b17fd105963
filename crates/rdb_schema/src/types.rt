//! The types of a class's fields, with the types of a struct's fields in place of its number, so that no schema is at hand where bytes are
//! written and read. It reads a schema and changes nothing.

ghost use Rattle.std.specs.Prelude.{◌≡◌, IfOk, map};
ghost use Rattle.rdb_schema.specs.Types.{leaf_types, element_type, value_type, types_of};

use crate::schema::{Class, FieldType, Group, Plain, Schema};
use rdb_base::list::{List, NoMemory};
use std::alloc::Global;

/// The types of a struct's fields, in declared order.
pub type LeafTypes = List<FieldType>;

/// The type of a vector's elements. A struct that isn't declared stays a leaf's type that no value has.
#[derive(Debug, Drop)]
pub enum ElementType {
    Leaf(FieldType),
    Group(LeafTypes),
}

/// The type of a class's field. A struct that isn't declared stays a leaf's type that no value has.
#[derive(Debug, Drop)]
pub enum ValueType {
    Leaf(FieldType),
    Vector(ElementType),
    Group(LeafTypes),
}

/// The types of a class's fields, in declared order.
pub type ValueTypes = List<ValueType>;

fn leaf_types(alloc: Global, group: &Group) -> Result<LeafTypes, NoMemory>
    ensures { IfOk result (λ types. types ≡ leaf_types group.now) }
{
    let mut types = List::new(alloc);
    for field in group.fields.as_slice() {
        types.push(field.ty)?;
    }
    Ok(types)
}

fn element_type(alloc: Global, schema: &Schema, of: Plain) -> Result<ElementType, NoMemory>
    ensures { IfOk result (λ ty. ty ≡ element_type schema.now of) }
{
    Ok(match of {
        Plain::Num { bytes, signed } => ElementType::Leaf(FieldType::Num { bytes, signed }),
        Plain::Str => ElementType::Leaf(FieldType::Str),
        Plain::Box4 => ElementType::Leaf(FieldType::Box4),
        Plain::Struct(group) => match schema.groups.as_slice().get(group as usize) {
            Some(declared) => ElementType::Group(leaf_types(alloc, declared)?),
            None => ElementType::Leaf(FieldType::Struct(group)),
        },
    })
}

fn value_type(alloc: Global, schema: &Schema, ty: FieldType) -> Result<ValueType, NoMemory>
    ensures { IfOk result (λ resolved. resolved ≡ value_type schema.now ty) }
{
    Ok(match ty {
        FieldType::Vector(of) => ValueType::Vector(element_type(alloc, schema, of)?),
        FieldType::Struct(group) => match schema.groups.as_slice().get(group as usize) {
            Some(declared) => ValueType::Group(leaf_types(alloc, declared)?),
            None => ValueType::Leaf(ty),
        },
        FieldType::Num { .. } | FieldType::Str | FieldType::Box4 => ValueType::Leaf(ty),
    })
}

fn class_types(alloc: Global, schema: &Schema, class: &Class) -> Result<ValueTypes, NoMemory>
    ensures { IfOk result (λ types. types ≡ map (λ f. value_type schema.now f.ty) class.now.fields) }
{
    let mut types = List::new(alloc);
    for field in class.fields.as_slice() {
        types.push(value_type(alloc, schema, field.ty)?)?;
    }
    Ok(types)
}

/// The types of a class's fields, by the class's number; none where there is no such class. The cost grows with the class's fields and
/// with those of the structs that they name.
pub fn types_of(alloc: Global, schema: &Schema, class: u32) -> Result<ValueTypes, NoMemory>
    ensures { IfOk result (λ types. types ≡ types_of schema.now class) }
{
    match schema.classes.as_slice().get(class as usize) {
        Some(declared) => class_types(alloc, schema, declared),
        None => Ok(List::new(alloc)),
    }
}
