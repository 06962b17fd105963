//! The command `check`: reads a schema's file and writes its canonical text.
//! It touches the caller's files and sink alone.

ghost use Rattle.std.specs.Prelude.{◌≤◌, [], ◌∷◌, length};
ghost use Rattle.rdb_runner.specs.Promise.{CheckEnds};
ghost use Rattle.rdb_runner.specs.Reading.{sight_of, AsksFirst};
ghost use Rattle.rdb_runner.specs.Statuses.{number_of};
ghost use Rattle.rdb_runner.specs.Telling.{ink_of};
ghost use Rattle.rdb_runner.specs.Work.{IsRewritten, IsCheckWork};

use crate::reading::{Unread, read_one};
use crate::schema_reading::{NoSchema, schema_in};
use crate::status::Status;
use crate::telling::{tell, tell_fault, tell_unreadable};
use rdb_base::files::Files;
use rdb_base::sink::Sink;
use rdb_base::text::Text;
use rdb_ddl::fault::DdlFault;
use rdb_ddl::text;
use std::alloc::Global;

/// Why there is no canonical text: the file can't be read, its first fault, or want of memory.
#[derive(Clone, Copy, Debug, PartialEq, Eq)]
enum Unchecked {
    Unreadable,
    Refused(DdlFault),
    NoMemory,
}

/// The canonical text of the schema of these bytes. The cost grows with them.
fn rewritten(alloc: Global, bytes: &[u8]) -> Result<Text, NoSchema>
    requires { length bytes.now ≤ 16777216 }
    ensures { IsRewritten bytes.now result }
{
    match schema_in(alloc, bytes) {
        Ok(schema) => match text(alloc, &schema) {
            Ok(text) => Ok(text),
            Err(_) => Err(NoSchema::NoMemory),
        },
        Err(reason) => Err(reason),
    }
}

/// The canonical text of a schema's file.
fn work<F: Files>(alloc: Global, files: &mut F, schema: &str) -> Result<Text, Unchecked>
    ensures work { IsCheckWork schema.now (sight_of F.told F.asked F.faults files.old files.new) result }
    ensures asked { AsksFirst (sight_of F.told F.asked F.faults files.old files.new) (schema.now ∷ []) }
{
    let bytes = match read_one(alloc, files, schema, 0) {
        Ok(bytes) => bytes,
        Err(Unread::At(_)) => return Err(Unchecked::Unreadable),
        Err(Unread::NoMemory) => return Err(Unchecked::NoMemory),
    };
    match rewritten(alloc, bytes.as_slice()) {
        Ok(text) => Ok(text),
        Err(NoSchema::Refused(fault)) => Err(Unchecked::Refused(fault)),
        Err(NoSchema::NoMemory) => Err(Unchecked::NoMemory),
    }
}

/// What a check ends with.
fn end<F: Files, K: Sink>(alloc: Global, schema: &str, files: &mut F, out: &mut K) -> Status
    ensures { CheckEnds schema.now
        (sight_of F.told F.asked F.faults files.old files.new) (ink_of K.written K.faults out.old out.new) (number_of result) }
{
    match work(alloc, files, schema) {
        Ok(text) => tell(out, Status::Done, text.as_str().as_bytes()),
        Err(Unchecked::Unreadable) => tell_unreadable(alloc, out, schema),
        Err(Unchecked::Refused(fault)) => tell_fault(alloc, out, &fault),
        Err(Unchecked::NoMemory) => Status::NoMemory,
    }
}

/// Checks the schema in the file of this name: reads it and writes its canonical text, as one piece. The answer is the number of
/// a status: done, unreadable, bad schema, cut off or want of memory. What follows for each is said in `laws`. The cost grows with the
/// file.
pub fn check<F: Files, K: Sink>(alloc: Global, schema: &str, files: &mut F, out: &mut K) -> u8
    ensures { CheckEnds schema.now
        (sight_of F.told F.asked F.faults files.old files.new) (ink_of K.written K.faults out.old out.new) result }
{
    end(alloc, schema, files, out).number()
}
