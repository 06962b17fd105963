//! Reads operations, each from the words behind the one that asks for it. It touches nothing but the text, the schema and
//! the names that it is lent.

ghost use Rattle.std.specs.Prelude.{◌≡◌, List as Listed, true, IfOk, IfSome, Some, None};
ghost use Rattle.rdb_base.specs.declared.value.Value.{Value as Held};
ghost use Rattle.rdb_script.specs.Lines.{is_end, word};
ghost use Rattle.rdb_script.specs.declared.statement.Call.{Call as Called};
ghost use Rattle.rdb_script.specs.declared.statement.Origin.{Origin as Began};
ghost use Rattle.rdb_script.specs.Statements.{IsNew, IsGet, IsPut, IsDel, IsFind, IsSeek, IsArea, IsPrefix, IsCount, IsCall, IsOrigin, IsLastKey, cursor_in};

use crate::keyword::{how_of, inside_of, where_of};
use crate::last::{last_key, last_rect, last_row, last_text};
use crate::lookup::{class_of, key_index, patricia, rtree, tree};
use crate::names::Names;
use crate::operand::{cursor, target};
use crate::statement::{Call, Member, Origin, Verb, Where};
use crate::word::{is_end, next_word};
use rdb_base::list::NoMemory;
use rdb_base::operation::{Op, Place};
use rdb_base::text::Text;
use rdb_schema::schema::Schema;
use std::alloc::Global;

fn new(alloc: Global, schema: &Schema, text: &[u8]) -> Result<Option<Call>, NoMemory>
    ensures found { IfOk result (λ o. IfSome o (λ call. IsNew schema.now text.now call)) }
    ensures exact { (call : Called) → IsNew schema.now text.now call → IfOk result (λ o. o ≡ Some call) }
{
    let (word, rest) = next_word(text);
    let Some(class) = class_of(schema, word) else {
        return Ok(None);
    };
    let Some(row) = last_row(alloc, schema, class, rest)? else {
        return Ok(None);
    };
    Ok(Some(Call {
        from: None,
        op: Op::New { class, row, id: 0 },
    }))
}

fn get(alloc: Global, schema: &Schema, names: &Names, text: &[u8]) -> Result<Option<Call>, NoMemory>
    ensures found { IfOk result (λ o. IfSome o (λ call. IsGet schema.now names.now text.now call)) }
    ensures exact { (call : Called) → IsGet schema.now names.now text.now call → IfOk result (λ o. o ≡ Some call) }
{
    let (word, rest) = next_word(text);
    let Some(class) = class_of(schema, word) else {
        return Ok(None);
    };
    let (object, rest) = next_word(rest);
    if !is_end(rest) {
        return Ok(None);
    }
    let Some(target) = target(alloc, schema, names, class, object)? else {
        return Ok(None);
    };
    Ok(Some(Call {
        from: target.from,
        op: Op::Get {
            class,
            id: target.id,
        },
    }))
}

fn put(alloc: Global, schema: &Schema, names: &Names, text: &[u8]) -> Result<Option<Call>, NoMemory>
    ensures found { IfOk result (λ o. IfSome o (λ call. IsPut schema.now names.now text.now call)) }
    ensures exact { (call : Called) → IsPut schema.now names.now text.now call → IfOk result (λ o. o ≡ Some call) }
{
    let (word, rest) = next_word(text);
    let Some(class) = class_of(schema, word) else {
        return Ok(None);
    };
    let (object, rest) = next_word(rest);
    let Some(target) = target(alloc, schema, names, class, object)? else {
        return Ok(None);
    };
    let Some(row) = last_row(alloc, schema, class, rest)? else {
        return Ok(None);
    };
    Ok(Some(Call {
        from: target.from,
        op: Op::Put {
            class,
            id: target.id,
            row,
        },
    }))
}

fn del(alloc: Global, schema: &Schema, names: &Names, text: &[u8]) -> Result<Option<Call>, NoMemory>
    ensures found { IfOk result (λ o. IfSome o (λ call. IsDel schema.now names.now text.now call)) }
    ensures exact { (call : Called) → IsDel schema.now names.now text.now call → IfOk result (λ o. o ≡ Some call) }
{
    let (word, rest) = next_word(text);
    let Some(class) = class_of(schema, word) else {
        return Ok(None);
    };
    let (object, rest) = next_word(rest);
    if !is_end(rest) {
        return Ok(None);
    }
    let Some(target) = target(alloc, schema, names, class, object)? else {
        return Ok(None);
    };
    Ok(Some(Call {
        from: target.from,
        op: Op::Del {
            class,
            id: target.id,
        },
    }))
}

fn find(alloc: Global, schema: &Schema, text: &[u8]) -> Result<Option<Call>, NoMemory>
    ensures found { IfOk result (λ o. IfSome o (λ call. IsFind schema.now text.now call)) }
    ensures exact { (call : Called) → IsFind schema.now text.now call → IfOk result (λ o. o ≡ Some call) }
{
    let (word, rest) = next_word(text);
    let Some(index) = key_index(schema, word) else {
        return Ok(None);
    };
    let Some(key) = last_key(alloc, schema, index, rest)? else {
        return Ok(None);
    };
    Ok(Some(Call {
        from: None,
        op: Op::Find {
            class: index.class,
            index: index.place,
            key,
        },
    }))
}

/// The place that is left of a key and an id.
fn keyed(
    alloc: Global,
    schema: &Schema,
    index: Member,
    text: &[u8],
    id: u64,
    up: bool,
) -> Result<Option<Origin>, NoMemory>
    ensures found { IfOk result (λ o. IfSome o (λ origin. (key : Listed Held) × IsLastKey schema.now index text.now key × (origin ≡ record { from = None; place = Place.At key id; up = up }))) }
    ensures exact { (key : Listed Held) → IsLastKey schema.now index text.now key → IfOk result (λ o. o ≡ Some (record { from = None; place = Place.At key id; up = up })) }
{
    let Some(key) = last_key(alloc, schema, index, text)? else {
        return Ok(None);
    };
    Ok(Some(Origin {
        from: None,
        place: Place::At { key, id },
        up,
    }))
}

/// The place at which a name's place may be put.
fn named(
    alloc: Global,
    names: &Names,
    index: Member,
    text: &[u8],
    place: Place,
    up: bool,
) -> Result<Option<Origin>, NoMemory>
    ensures found { IfOk result (λ o. IfSome o (λ origin. (cursor_in names.now index text.now ≡ true) × (origin ≡ record { from = Some (word text.now); place = place; up = up }))) }
    ensures exact { cursor_in names.now index text.now ≡ true → IfOk result (λ o. o ≡ Some (record { from = Some (word text.now); place = place; up = up })) }
{
    let Some(name) = cursor(names, index, text) else {
        return Ok(None);
    };
    Ok(Some(Origin {
        from: Some(Text::of(alloc, name)?),
        place,
        up,
    }))
}

/// The first or the last place, where nothing more is written.
fn edge(text: &[u8], place: Place, up: bool) -> Option<Origin>
    ensures found { IfSome result (λ origin. (is_end text.now ≡ true) × (origin ≡ record { from = None; place = place; up = up })) }
    ensures exact { is_end text.now ≡ true → result ≡ Some (record { from = None; place = place; up = up }) }
{
    if !is_end(text) {
        return None;
    }
    Some(Origin {
        from: None,
        place,
        up,
    })
}

fn origin(
    alloc: Global,
    schema: &Schema,
    names: &Names,
    index: Member,
    way: Where,
    text: &[u8],
) -> Result<Option<Origin>, NoMemory>
    ensures found { IfOk result (λ o. IfSome o (λ origin. IsOrigin schema.now names.now index way text.now origin)) }
    ensures exact { (origin : Began) → IsOrigin schema.now names.now index way text.now origin → IfOk result (λ o. o ≡ Some origin) }
{
    match way {
        Where::First => Ok(edge(text, Place::Start, true)),
        Where::Last => Ok(edge(text, Place::End, false)),
        Where::Ge => keyed(alloc, schema, index, text, 0, true),
        Where::Gt => keyed(alloc, schema, index, text, u64::MAX, true),
        Where::Le => keyed(alloc, schema, index, text, u64::MAX, false),
        Where::Lt => keyed(alloc, schema, index, text, 0, false),
        Where::Next => named(alloc, names, index, text, Place::End, true),
        Where::Prev => named(alloc, names, index, text, Place::Start, false),
    }
}

fn seek(
    alloc: Global,
    schema: &Schema,
    names: &Names,
    text: &[u8],
) -> Result<Option<Call>, NoMemory>
    ensures found { IfOk result (λ o. IfSome o (λ call. IsSeek schema.now names.now text.now call)) }
    ensures exact { (call : Called) → IsSeek schema.now names.now text.now call → IfOk result (λ o. o ≡ Some call) }
{
    let (word, rest) = next_word(text);
    let Some(index) = tree(schema, word) else {
        return Ok(None);
    };
    let (way, rest) = next_word(rest);
    let Some(way) = where_of(way) else {
        return Ok(None);
    };
    let Some(origin) = origin(alloc, schema, names, index, way, rest)? else {
        return Ok(None);
    };
    Ok(Some(Call {
        from: origin.from,
        op: Op::Seek {
            class: index.class,
            index: index.place,
            place: origin.place,
            up: origin.up,
        },
    }))
}

fn area(schema: &Schema, text: &[u8]) -> Option<Call>
    ensures found { IfSome result (λ call. IsArea schema.now text.now call) }
    ensures exact { (call : Called) → IsArea schema.now text.now call → result ≡ Some call }
{
    let (word, rest) = next_word(text);
    let index = rtree(schema, word)?;
    let (way, rest) = next_word(rest);
    let inside = inside_of(way)?;
    let rect = last_rect(rest)?;
    Some(Call {
        from: None,
        op: Op::Area {
            class: index.class,
            index: index.place,
            rect,
            inside,
        },
    })
}

fn prefix(alloc: Global, schema: &Schema, text: &[u8]) -> Result<Option<Call>, NoMemory>
    ensures found { IfOk result (λ o. IfSome o (λ call. IsPrefix schema.now text.now call)) }
    ensures exact { (call : Called) → IsPrefix schema.now text.now call → IfOk result (λ o. o ≡ Some call) }
{
    let (word, rest) = next_word(text);
    let Some(index) = patricia(schema, word) else {
        return Ok(None);
    };
    let (way, rest) = next_word(rest);
    let Some(how) = how_of(way) else {
        return Ok(None);
    };
    let Some(words) = last_text(alloc, rest)? else {
        return Ok(None);
    };
    Ok(Some(Call {
        from: None,
        op: Op::Prefix {
            class: index.class,
            index: index.place,
            text: words,
            how,
        },
    }))
}

fn count(schema: &Schema, text: &[u8]) -> Option<Call>
    ensures found { IfSome result (λ call. IsCount schema.now text.now call) }
    ensures exact { (call : Called) → IsCount schema.now text.now call → result ≡ Some call }
{
    let (word, rest) = next_word(text);
    let class = class_of(schema, word)?;
    if !is_end(rest) {
        return None;
    }
    Some(Call {
        from: None,
        op: Op::Count { class },
    })
}

/// The operation that a verb and what stands behind it ask for; None where they ask for none. The cost grows with the
/// text and with the logarithm of the number of names.
pub fn call(
    alloc: Global,
    schema: &Schema,
    names: &Names,
    verb: Verb,
    text: &[u8],
) -> Result<Option<Call>, NoMemory>
    ensures found { IfOk result (λ o. IfSome o (λ call. IsCall schema.now names.now verb text.now call)) }
    ensures exact { (call : Called) → IsCall schema.now names.now verb text.now call → IfOk result (λ o. o ≡ Some call) }
{
    match verb {
        Verb::New => new(alloc, schema, text),
        Verb::Get => get(alloc, schema, names, text),
        Verb::Put => put(alloc, schema, names, text),
        Verb::Del => del(alloc, schema, names, text),
        Verb::Find => find(alloc, schema, text),
        Verb::Seek => seek(alloc, schema, names, text),
        Verb::Area => Ok(area(schema, text)),
        Verb::Prefix => prefix(alloc, schema, text),
        Verb::Count => Ok(count(schema, text)),
    }
}
