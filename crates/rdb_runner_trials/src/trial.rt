//! What words answer over files and a sink.

ghost use Rattle.std.specs.Prelude.{◌≡◌, IfOk};

use rdb_base::files::Files;
use rdb_base::gate::NoGate;
use rdb_base::list::{List, NoMemory};
use rdb_base::memory_files::MemoryFiles;
use rdb_base::memory_sink::MemorySink;
use rdb_base::sink::Sink;
use rdb_runner::region::region_main;
use std::alloc::Global;

/// A file's name and its bytes.
pub type Named<'a> = (&'a str, &'a [u8]);

/// The words of a line, between blanks.
pub fn words_of(alloc: Global, line: &str) -> Result<Vec<String>, NoMemory> {
    let mut words = Vec::new(alloc);
    for word in line.split_whitespace() {
        words.push(String::from_str(alloc, word)?)?;
    }
    Ok(words)
}

/// What the words of this line answer over these files and this sink.
pub fn status_of<F: Files, K: Sink>(
    alloc: Global,
    line: &str,
    files: &mut F,
    out: &mut K,
) -> Result<u8, NoMemory> {
    let words = words_of(alloc, line)?;
    Ok(region_main(alloc, words.as_slice(), files, out, &NoGate))
}

/// A list of these numbers.
pub fn numbers_of(alloc: Global, numbers: &[u32]) -> Result<List<u32>, NoMemory>
    ensures { IfOk result (λ list. list ≡ numbers.now) }
{
    List::from_slice(alloc, numbers)
}

/// These files, of which the reads with these numbers, from 1, fail.
pub fn files_of(
    alloc: Global,
    named: &[Named<'_>],
    failing: &[u32],
) -> Result<MemoryFiles, NoMemory> {
    let mut files = MemoryFiles::new(alloc, numbers_of(alloc, failing)?);
    for (name, bytes) in named {
        files.put(name, bytes)?;
    }
    Ok(files)
}

/// A sink that takes all that is written.
pub fn whole_sink(alloc: Global) -> MemorySink {
    MemorySink::new(alloc, List::new(alloc), List::new(alloc))
}

/// A sink whose write of this number, from 1, fails behind so many bytes.
pub fn failing_sink(alloc: Global, number: u32, taken: u32) -> Result<MemorySink, NoMemory> {
    let numbers = numbers_of(alloc, &[number])?;
    Ok(MemorySink::new(alloc, numbers, numbers_of(alloc, &[taken])?))
}
