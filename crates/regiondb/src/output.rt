//! Standard output. It tells nothing of what it wrote.

ghost use Rattle.std.specs.Prelude.{◌≡◌, ◌⊎◌, None};
ghost use Rattle.rdb_base.specs.Outside.{Rose};
ghost use Rattle.rdb_runner.specs.declared.status.Status.TheVariants.{Usage, CutOff};

use rdb_base::sink::{Sink, WriteFault};
use rdb_runner::status::Status;
use std::io::Write;

/// Writes to a writer of the machine, and counts the writes that fail.
#[derive(Drop)]
pub struct Output<W> {
    writer: W,
    faults: u64,
}

impl<W> Output<W> {
    pub fn new(writer: W) -> Output<W>
        ensures { result.faults ≡ 0 }
    {
        Output { writer, faults: 0 }
    }
}

impl<W: Write> Output<W> {
    /// Writes the line of words that are no command line, and answers that they are none, or that the write failed.
    pub fn usage(&mut self) -> Status
        ensures { ((result ≡ Usage) × (self.new.faults ≡ self.old.faults))
            ⊎ ((result ≡ CutOff) × Rose self.old.faults self.new.faults) }
    {
        match self.write(b"regiondb: usage\n") {
            Ok(()) => Status::Usage,
            Err(_) => Status::CutOff,
        }
    }
}

/// Writes the whole piece, and says whether it could.
fn write_whole<W: Write>(writer: &mut W, piece: &[u8]) -> bool {
    let mut rest = piece;
    for _ in 0..piece.len() {
        if rest.is_empty() {
            break;
        }
        let Ok(count) = writer.write(rest) else {
            return false;
        };
        if count == 0 {
            return false;
        }
        rest = &rest[count..];
    }
    rest.is_empty()
}

impl<W: Write> Sink for Output<W> {
    ghost written = { λ _. None };

    ghost faults = { λ o. o.faults };

    fn write(&mut self, piece: &[u8]) -> Result<(), WriteFault> {
        if write_whole(&mut self.writer, piece) {
            return Ok(());
        }
        self.faults = self.faults.saturating_add(1);
        Err(WriteFault)
    }
}
