//! The names that the schema gives to classes, indexes and events, lent. It only reads the schema.

ghost use Rattle.std.specs.Prelude.{◌≡◌, slice_get};
ghost use Rattle.rdb_journal.specs.Names.{class_name, index_name, event_name, HasClass, HasIndex, HasEvent};

use rdb_schema::schema::{Class, Schema};

fn declared(schema: &Schema, class: u32) -> &Class
    requires { HasClass schema.now class }
    ensures { slice_get schema.now.classes class ≡ Some result.now }
{
    schema.classes.at(class as usize)
}

/// The name of a class.
pub fn class_name(schema: &Schema, class: u32) -> &str
    requires { HasClass schema.now class }
    ensures { result.now ≡ class_name schema.now class }
{
    declared(schema, class).name.as_str()
}

/// The name of an index of a class.
pub fn index_name(schema: &Schema, class: u32, index: u32) -> &str
    requires { HasIndex schema.now class index }
    ensures { result.now ≡ index_name schema.now class index }
{
    declared(schema, class)
        .indexes
        .at(index as usize)
        .name
        .as_str()
}

/// The name of an event of a class.
pub fn event_name(schema: &Schema, class: u32, event: u32) -> &str
    requires { HasEvent schema.now class event }
    ensures { result.now ≡ event_name schema.now class event }
{
    declared(schema, class)
        .events
        .at(event as usize)
        .name
        .as_str()
}
