//! What a schema declares of a class. It lends parts of the schema.

ghost use Rattle.std.specs.Prelude.{◌≡◌, ◌<◌, length};
ghost use Rattle.rdb_schema.specs.Indexes.{indexes_of, fields_of};

use rdb_schema::schema::{Indexes, Numbers, Schema};

/// The indexes of a class.
pub(crate) fn class_indexes(schema: &Schema, class: u32) -> &Indexes
    requires { class < length schema.now.classes }
    ensures { result.now ≡ indexes_of schema.now class }
{
    &schema.classes.at(class as usize).indexes
}

/// The fields of an index's key.
pub(crate) fn index_fields(schema: &Schema, class: u32, index: u32) -> &Numbers
    requires class { class < length schema.now.classes }
    requires index { index < length (indexes_of schema.now class) }
    ensures { result.now ≡ fields_of schema.now class index }
{
    &class_indexes(schema, class).at(index as usize).key
}
