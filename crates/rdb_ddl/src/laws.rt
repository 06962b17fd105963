//! Laws of the schema language, for whoever proves with it. Nothing here runs.

ghost use Rattle.std.specs.Prelude.{◌≡◌, ◌≤◌, ℕ, List, length};
ghost use Rattle.rdb_schema.specs.Meaning.{declared};
ghost use Rattle.rdb_schema.specs.declared.schema.Schema.{Schema};
ghost use Rattle.rdb_ddl.specs.Canonical.{canonical};
ghost use Rattle.rdb_schema.specs.SchemaParts.{parts_of};
ghost use Rattle.rdb_schema.specs.SpelledSchemas.{IsSpelled};
ghost use Rattle.rdb_schema.specs.Resolved.{IsResolved};
ghost use Rattle.rdb_ddl.specs.Read.{IsRead, HasParts};
ghost use Rattle.rdb_schema.specs.Schemas.{IsSchema};

/// The canonical text of a schema whose names, types and sizes a text can have is one of the grammar: its
/// parts are the schema's, each once, in canonical order, and it has no others.
pub fn canonical_text_has_the_parts()
    ensures { (schema : Schema) → IsSpelled schema → HasParts (canonical schema) (parts_of schema) }
{}

/// The parts of a schema declare the schema, where each place in its types, keys and events is the one that
/// the name there stands for.
pub fn parts_declare_the_schema()
    ensures { (schema : Schema) → IsResolved schema → declared (parts_of schema) ≡ schema }
{}

/// What `read` gives is a schema: within the limits, spelled, resolved, and with keys that its indexes may have.
pub fn what_is_read_is_a_schema()
    ensures { (text : List ℕ) (schema : Schema) → IsRead text schema → IsSchema schema }
{}

/// The round trip: the canonical text of what `read` gives is read as the same schema. With `one_answer` it is
/// read as no other, and with `text` it is what is written.
pub fn canonical_text_is_read_again()
    ensures { (text : List ℕ) (schema : Schema) → IsRead text schema → IsRead (canonical schema) schema }
{}

/// The canonical text of a schema is short enough for `read`: at most 16,777,216 bytes.
pub fn canonical_text_is_short()
    ensures { (schema : Schema) → IsSchema schema → length (canonical schema) ≤ 16777216 }
{}
