//! Reads the files that the words name, in their order. It touches the caller's files alone.

ghost use Rattle.std.specs.Prelude.{◌≡◌, ℕ, List, map};
ghost use Rattle.rdb_runner.specs.Reading.{IsReadOf, AreReadOf, sight_of};

use rdb_base::files::{Bytes, Files, ReadFault};
use rdb_base::list::List;
use std::alloc::{AllocError, AllocFailed, Global};

/// The longest file that is read, in bytes.
pub const FILE_LIMIT: u64 = 16_777_216;

/// Why a file's bytes aren't there: its place among the names that can't be read, or want of memory.
#[derive(Clone, Copy, Debug, PartialEq, Eq)]
pub enum Unread {
    At(usize),
    NoMemory,
}

impl<T: Drop> From<AllocFailed<T>> for Unread {
    ghost use Rattle.rdb_runner.specs.declared.reading.Unread.TheVariants.{NoMemory};

    ghost from_gives = { λ _ e. e ≡ NoMemory };

    fn from(_failed: AllocFailed<T>) -> Unread {
        Unread::NoMemory
    }
}

impl From<AllocError> for Unread {
    ghost use Rattle.rdb_runner.specs.declared.reading.Unread.TheVariants.{NoMemory};

    ghost from_gives = { λ _ e. e ≡ NoMemory };

    fn from(_failed: AllocError) -> Unread {
        Unread::NoMemory
    }
}

/// One file's bytes; `place` is its place among the names. The cost grows with the file.
pub fn read_one<F: Files>(
    alloc: Global,
    files: &mut F,
    name: &str,
    place: usize,
) -> Result<Bytes, Unread>
    ensures answer { IsReadOf (sight_of F.told F.asked F.faults files.old files.new) name.now place result }
    ensures stays { (other : List ℕ) → F.told files.new other ≡ F.told files.old other }
{
    match files.read(alloc, name, FILE_LIMIT) {
        Ok(bytes) => Ok(bytes),
        Err(ReadFault::NoMemory) => Err(Unread::NoMemory),
        Err(ReadFault::Failed) => Err(Unread::At(place)),
        Err(ReadFault::TooLong { budget: _ }) => Err(Unread::At(place)),
    }
}

/// The bytes of the files of these names, in order, each read once. The first that can't be read ends it.
/// The cost grows with the files.
pub fn read_all<F: Files>(
    alloc: Global,
    files: &mut F,
    names: &[&str],
) -> Result<List<Bytes>, Unread>
    ensures answer { AreReadOf (sight_of F.told F.asked F.faults files.old files.new) (map (λ n. n.now) names.now) result }
    ensures stays { (other : List ℕ) → F.told files.new other ≡ F.told files.old other }
{
    let mut texts = List::new(alloc);
    for (place, name) in names.iter().enumerate() {
        let bytes = read_one(alloc, files, name, place)?;
        texts.push(bytes)?;
    }
    Ok(texts)
}
