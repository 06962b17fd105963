//! Laws of schemas and of their rows as bytes, for whoever proves with them. Nothing here runs.

ghost use Rattle.std.specs.Prelude.{◌≡◌, ◌≤◌, ℕ, List, IsTrue, Some, length, slice_get};
ghost use Rattle.std.specs.Option.{ForSome};
ghost use Rattle.rdb_base.specs.declared.value.Value.{Value};
ghost use Rattle.rdb_schema.specs.Encodes.{Encodes};
ghost use Rattle.rdb_schema.specs.Encoding.{encoding};
ghost use Rattle.rdb_schema.specs.Indexes.{indexes_of};
ghost use Rattle.rdb_schema.specs.Proper.{IsProperRow};
ghost use Rattle.rdb_schema.specs.Schemas.{HasKey, IsSchema};
ghost use Rattle.rdb_schema.specs.Types.{row_fits, types_of};
ghost use Rattle.rdb_schema.specs.Values.{row_holds, row_length};
ghost use Rattle.rdb_schema.specs.declared.schema.Class.{Class};
ghost use Rattle.rdb_schema.specs.declared.schema.Schema.{Schema};

/// A class and a struct of a schema have at most 32 fields, and a class at most 8 indexes.
pub fn schema_is_small()
    ensures fields { (schema : Schema) → IsSchema schema
        → (class : ℕ) → ForSome (slice_get schema.classes class) (λ c. length c.fields ≤ 32) }
    ensures group_fields { (schema : Schema) → IsSchema schema
        → (group : ℕ) → ForSome (slice_get schema.groups group) (λ g. length g.fields ≤ 32) }
    ensures class_indexes { (schema : Schema) → IsSchema schema
        → (class : ℕ) → ForSome (slice_get schema.classes class) (λ c. length c.indexes ≤ 8) }
    ensures indexes { (schema : Schema) → IsSchema schema → (class : ℕ) → length (indexes_of schema class) ≤ 8 }
{}

/// An index of a schema has a key: 1 to 4 different fields of its class, of types that suit its kind.
pub fn index_has_a_key()
    ensures { (schema : Schema) → IsSchema schema
        → (class index : ℕ) → ForSome (slice_get (indexes_of schema class) index) (HasKey schema class index) }
{}

/// A row of a class, as an operation's row has to be, has a value of each of the class's types, so that it can be encoded, and where the
/// class is declared no other row has. Where a program can hold the row, its encoding is one that stands for it. That encoding is as long
/// as `row_length` says, by which a row is judged before it is encoded.
pub fn rows_have_encodings()
    ensures fit { (schema : Schema) (class : ℕ) (row : List Value) → IsTrue (row_holds schema class row)
        → IsTrue (row_fits (types_of schema class) row) }
    ensures only { (schema : Schema) (class : ℕ) (declared : Class) (row : List Value)
        → slice_get schema.classes class ≡ Some declared
        → row_fits (types_of schema class) row ≡ row_holds schema class row }
    ensures encode { (schema : Schema) (class : ℕ) (row : List Value) → IsTrue (row_holds schema class row) → IsProperRow row
        → Encodes (types_of schema class) row (encoding schema class row) }
    ensures as_long { (schema : Schema) (class : ℕ) (row : List Value)
        → length (encoding schema class row) ≡ row_length schema class row }
{}
