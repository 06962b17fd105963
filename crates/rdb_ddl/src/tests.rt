use crate::place::{Place, place_of};
use crate::token::{Sign, Token, lexeme_at};
use crate::{read, text};
use rdb_schema::schema::{EventKind, FieldType, IndexKind, Plain};
use rdb_schema::syntax::DdlCause;
use std::alloc::Global;
use std::process::Abort;
use std::test::Fail;

/// The token's place and bytes must be so, and what follows is returned.
fn expect_name<'a>(rt: &impl Abort, text: &'a [u8], left: usize, name: &[u8]) -> &'a [u8] {
    let lexeme = lexeme_at(text);
    assert!(rt; matches!(lexeme.token, Token::Name(found) if found == name));
    assert_eq!(rt; lexeme.left, left);
    lexeme.rest
}

fn expect_unknown(rt: &impl Abort, text: &[u8], left: usize) {
    let lexeme = lexeme_at(text);
    assert!(rt; matches!(lexeme.token, Token::Unknown));
    assert_eq!(rt; lexeme.left, left);
}

#[test]
fn tokens_stand_between_blanks_and_comments(rt: HostRuntime) {
    let rest = expect_name(&rt, b"\t// a comment\r\n /* * / **/_a1;007<", 8, b"_a1");
    let sign = lexeme_at(rest);
    assert!(rt; matches!(sign.token, Token::Mark(Sign::Semicolon)));
    let number = lexeme_at(sign.rest);
    assert!(rt; matches!(number.token, Token::Number(7)));
    assert_eq!(rt; number.left, 4);
    let less = lexeme_at(number.rest);
    assert!(rt; matches!(less.token, Token::Mark(Sign::Less)));
    assert!(rt; matches!(lexeme_at(less.rest).token, Token::End));
}

#[test]
fn limits_of_names_and_numbers(rt: HostRuntime) {
    let rest = expect_name(
        &rt,
        b"abcdefghijklmnopqrstuvwxyz_12345 ",
        33,
        b"abcdefghijklmnopqrstuvwxyz_12345",
    );
    assert!(rt; matches!(lexeme_at(rest).token, Token::End));
    expect_unknown(&rt, b" abcdefghijklmnopqrstuvwxyz_123456;", 34);
    assert!(rt;
        matches!(
            lexeme_at(b"0004294967295").token,
            Token::Number(4_294_967_295)
        )
    );
    expect_unknown(&rt, b"4294967296", 10);
}

#[test]
fn the_first_fault_has_its_place(rt: HostRuntime) {
    expect_unknown(&rt, b" \r ", 2);
    expect_unknown(&rt, b"/* never ends *", 15);
    expect_unknown(&rt, b"/*/", 3);
    expect_unknown(&rt, b"// \xC3(\n;", 4);
    expect_unknown(&rt, b"/* \xE2\x82 */;", 6);
    expect_unknown(&rt, b"/* \xE2\x82 ", 6);
    expect_unknown(&rt, b"  \xC3\xA9", 2);
    expect_unknown(&rt, b" / ;", 3);
    assert!(rt;
        matches!(
            lexeme_at(b"/* \xC3\xA9 */;").token,
            Token::Mark(Sign::Semicolon)
        )
    );
}

#[test]
fn lines_end_at_line_feeds_and_columns_count_bytes(rt: HostRuntime) {
    let text = b"a\r\n\xC3\xA9b";
    assert_eq!(rt; place_of(text, 6), Place { line: 1, column: 1 });
    assert_eq!(rt; place_of(text, 4), Place { line: 1, column: 3 });
    assert_eq!(rt; place_of(text, 3), Place { line: 2, column: 1 });
    assert_eq!(rt; place_of(text, 1), Place { line: 2, column: 3 });
    assert_eq!(rt; place_of(text, 0), Place { line: 2, column: 4 });
}

/// The text is refused there, for that cause.
fn expect_fault(
    rt: &impl Abort,
    alloc: Global,
    text: &[u8],
    line: u32,
    column: u32,
    cause: DdlCause,
) {
    assert!(rt; text.len() < 1000);
    match read(alloc, text) {
        Ok(_) => assert!(rt; false, "a text was read"),
        Err(fault) => {
            assert_eq!(rt; fault.line, line);
            assert_eq!(rt; fault.column, column);
            assert_eq!(rt; fault.cause, cause);
        }
    }
}

#[test]
fn faults_of_the_grammar(rt: HostRuntime) {
    let refused: [(&[u8], u32, u32); 12] = [
        (b"", 1, 1),
        (b"declare datab", 1, 9),
        (b"declare database shop", 1, 22),
        (b"declare database class;", 1, 18),
        (b"declare database d;;", 1, 20),
        (b"declare database d;\nclass C {};", 2, 10),
        (b"declare database d;\r\nstruct S { T x; };", 2, 12),
        (b"declare database d; class C { uint4 n } ", 1, 39),
        (b"declare database d; class C { rect<int8> r; };", 1, 36),
        (
            b"declare database d; class C { uint4 n; tree<> t; };",
            1,
            45,
        ),
        (b"declare database d; // \xFF", 1, 24),
        (b"declare database d; class C { X x; }; /*", 1, 39),
    ];
    for (text, line, column) in refused {
        expect_fault(&rt, rt.alloc(), text, line, column, DdlCause::Unexpected);
    }
}

#[test]
fn faults_of_the_rules(rt: HostRuntime) {
    let refused: [(&[u8], u32, u32, DdlCause); 14] = [
        (
            b"declare database d; class C { S s; };",
            1,
            31,
            DdlCause::Unknown,
        ),
        (
            b"declare database d; class C { vector<C> s; };",
            1,
            38,
            DdlCause::Unknown,
        ),
        (
            b"declare database d; class C { uint4 n; tree<m> t; };",
            1,
            45,
            DdlCause::Unknown,
        ),
        (
            b"declare database d; class C { event<update m> e; uint4 n; };",
            1,
            44,
            DdlCause::Unknown,
        ),
        (
            b"declare database d; struct S { int1 a; } class S { int1 a; }",
            1,
            48,
            DdlCause::Twice,
        ),
        (
            b"declare database d; class C { int1 a; hash<a> a; }",
            1,
            47,
            DdlCause::Twice,
        ),
        (
            b"declare database d;\nclass C { int1 a; autoid;\nautoid[3]; }",
            3,
            1,
            DdlCause::Twice,
        ),
        (
            b"declare database d; struct S { int1 a; int2 a; }",
            1,
            45,
            DdlCause::Twice,
        ),
        (
            b"declare database d; class C { autoid; }",
            1,
            27,
            DdlCause::BadKey,
        ),
        (
            b"declare database d; class C { tree<a, a> t; int1 a; }",
            1,
            39,
            DdlCause::BadKey,
        ),
        (
            b"declare database d; class C { string a; unique rtree<b> t; rect<int4> b; }",
            1,
            57,
            DdlCause::BadKey,
        ),
        (
            b"declare database d; class C { string a; string b; patricia<a,b> t; }",
            1,
            62,
            DdlCause::BadKey,
        ),
        (
            b"declare database d; class C { vector<int1> a; hash<a> h; }",
            1,
            52,
            DdlCause::BadKey,
        ),
        (
            b"declare database d; class C { hash<a> h; Gone a; }",
            1,
            36,
            DdlCause::BadKey,
        ),
    ];
    for (text, line, column, cause) in refused {
        expect_fault(&rt, rt.alloc(), text, line, column, cause);
    }
}

#[test]
fn faults_of_the_limits(rt: HostRuntime) {
    let refused: [(&[u8], u32); 3] = [
        (
            b"declare database d; class C { int1 a; int1 b; int1 c; int1 e; int1 f; tree<a,b,c,e,f> t; }",
            84,
        ),
        (
            b"declare database d; class C { int1 a; hash<a> i1; hash<a> i2; hash<a> i3; hash<a> i4; \
            hash<a> i5; hash<a> i6; hash<a> i7; hash<a> i8; hash<a> i9; }",
            143,
        ),
        (
            b"declare database d; class C { int1 a; event<new> e1; event<new> e2; event<new> e3; \
            event<new> e4; event<new> e5; event<new> e6; event<new> e7; event<new> e8; event<new> e9; }",
            170,
        ),
    ];
    for (text, column) in refused {
        expect_fault(&rt, rt.alloc(), text, 1, column, DdlCause::TooMany);
    }
}

#[test]
fn a_schema_is_cut_off_at_each_length(rt: HostRuntime) {
    let text = b"declare database shop; class Item { uint4 n; autoid; };";
    for len in 0..56 {
        let read = read(rt.alloc(), &text[..len]).is_ok();
        assert_eq!(rt; read, len == 22 || len == 23 || len == 54 || len == 55);
    }
}

#[test]
fn declarations_are_read_as_written(rt: HostRuntime) -> Result<(), Fail> {
    let text =
        b"declare database d;struct P{int8 x;rect<int4> b;}class C{P p;vector<P> ps;string s;\
        autoid[10];unique tree<n,s>byN[007];event<update n>e;event<delete>gone;uint2 n;};";
    let schema = read(rt.alloc(), text).ok().ok_or("the text is a schema")?;
    assert_eq!(rt; schema.name.as_str(), "d");
    assert_eq!(rt; schema.groups.len(), 1);
    assert_eq!(rt; schema.classes.len(), 1);
    let group = schema.groups.at(0);
    assert_eq!(rt; group.fields.len(), 2);
    assert_eq!(rt; group.fields.at(1).ty, FieldType::Box4);
    let class = schema.classes.at(0);
    assert_eq!(rt; class.fields.len(), 4);
    assert_eq!(rt; class.fields.at(0).ty, FieldType::Struct(0));
    assert_eq!(rt; class.fields.at(1).ty, FieldType::Vector(Plain::Struct(0)));
    assert!(rt; class.autoid);
    assert_eq!(rt; class.estimate, Some(10));
    assert_eq!(rt; class.indexes.len(), 1);
    let index = class.indexes.at(0);
    assert_eq!(rt; index.name.as_str(), "byN");
    assert_eq!(rt; index.kind, IndexKind::Tree);
    assert!(rt; index.unique);
    assert_eq!(rt; index.key.as_slice(), [3, 2].as_slice());
    assert_eq!(rt; index.estimate, Some(7));
    assert_eq!(rt; class.events.len(), 2);
    assert_eq!(rt; class.events.at(0).kind, EventKind::UpdateField(3));
    assert_eq!(rt; class.events.at(1).kind, EventKind::Delete);
    Ok(())
}

/// The schema of the text has this canonical text, which reads as the same schema.
fn expect_canonical(
    rt: &impl Abort,
    alloc: Global,
    written: &[u8],
    canonical: &str,
) -> Result<(), Fail> {
    assert!(rt; written.len() < 1000);
    assert!(rt; canonical.len() < 1000);
    let schema = read(alloc, written).ok().ok_or("the text is a schema")?;
    let found = text(alloc, &schema)?;
    assert_eq!(rt; found.as_str(), canonical);
    let again = read(alloc, canonical.as_bytes())
        .ok()
        .ok_or("the canonical text is a schema")?;
    assert!(rt; again == schema);
    Ok(())
}

#[test]
fn canonical_texts_are_read_again(rt: HostRuntime) -> Result<(), Fail> {
    expect_canonical(
        &rt,
        rt.alloc(),
        b"declare database shop;class Item{uint4 n;autoid[10];unique tree<n>byN;}",
        "declare database shop;\n\nclass Item {\n  uint4 n;\n  autoid[10];\n  unique tree<n> byN;\n};\n",
    )?;
    expect_canonical(
        &rt,
        rt.alloc(),
        b"declare database d; struct P { rect<int4> r; } class C { event<update a> e; event<new> f; patricia<a> p[007]; hash<a,b> h; vector<rect<int4>> v; string a; int1 b; vector<P> q; P s; autoid; };",
        "declare database d;\n\nstruct P {\n  rect<int4> r;\n};\n\nclass C {\n  vector<rect<int4>> v;\n  string a;\n  int1 b;\n  vector<P> q;\n  P s;\n  autoid;\n  patricia<a> p[7];\n  hash<a,b> h;\n  event<update a> e;\n  event<new> f;\n};\n",
    )
}
