//! The first part of a schema that breaks a rule.

ghost use Rattle.std.specs.Prelude.{◌≡◌, ◌≤◌, ◌<◌, length, OnOk, IfOk, [], slice_get, Some};
ghost use Rattle.rdb_schema.specs.Seen.{before_of, seen, passes, IsFirst};

use crate::rules::{Context, cause_of};
use crate::syntax::{Part, SchemaFault};
use rdb_base::list::{List, NoMemory};
use rdb_base::text::Text;
use std::alloc::Global;

/// What was declared so far: the names of structs and of classes, and where the parts of the last one begin.
#[derive(Debug, Drop)]
struct Declared {
    groups: List<Text>,
    classes: List<Text>,
    start: usize,
}

/// What stands before the part at a place.
fn context_at<'a>(declared: &'a Declared, parts: &'a [Part], at: usize) -> Context<'a>
    requires after_start { declared.now.start ≤ at }
    requires within { at ≤ length parts.now }
    ensures { before_of result ≡ seen declared.now parts.now at }
{
    let (before, _) = parts.split_at(at);
    let (_, front) = before.split_at(declared.start);
    Context {
        groups: declared.groups.as_slice(),
        classes: declared.classes.as_slice(),
        front,
    }
}

/// Passes a part. Where memory is wanting, what was declared is of no more use.
fn pass(declared: &mut Declared, part: &Part, at: usize) -> Result<(), NoMemory>
    requires { at < usize.MAX }
    ensures { OnOk result (declared.new ≡ passes declared.old part.now at) }
{
    match part {
        Part::Struct(name) => {
            declared.groups.push(name.copy()?)?;
            declared.start = at + 1;
        }
        Part::Class(name) => {
            declared.classes.push(name.copy()?)?;
            declared.start = at + 1;
        }
        _ => {}
    }
    Ok(())
}

/// The first part that breaks a rule, if there is one. The cost grows with the parts.
pub fn first_fault(alloc: Global, parts: &[Part]) -> Result<Option<SchemaFault>, NoMemory>
    ensures { IfOk result (IsFirst parts.now) }
{
    let mut declared = Declared {
        groups: List::new(alloc),
        classes: List::new(alloc),
        start: 0,
    };
    for at in 0..parts.len() {
        let context = context_at(&declared, parts, at);
        let part = &parts[at];
        let (_, after) = parts.split_at(at + 1);
        match cause_of(&context, part, after) {
            Some(cause) => return Ok(Some(SchemaFault { at, cause })),
            None => pass(&mut declared, part, at)?,
        }
    }
    Ok(None)
}
