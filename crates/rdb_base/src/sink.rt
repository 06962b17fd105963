//! The trait of whoever takes what we write.

ghost use Rattle.std.specs.Prelude.{◌≡◌, ℕ, ◌≤◌, List, ◌++◌, length, Option, OnOk, OnErr, take};
ghost use Rattle.std.specs.Option.{option_map};
ghost use Rattle.rdb_base.specs.Outside.{Rose};

use thiserror::Error;

/// A write that was not done whole.
#[derive(Clone, Copy, Debug, PartialEq, Eq, Error)]
#[error("the write failed")]
pub struct WriteFault;

/// Takes pieces of bytes, one after the other.
pub trait Sink {
    /// All bytes written so far, where it tells them.
    ghost written: { Self → Option (List ℕ) };

    /// How many writes have failed.
    ghost faults: { Self → ℕ };

    /// Appends a piece. Where it fails, some prefix of the piece was appended.
    fn write(&mut self, piece: &[u8]) -> Result<(), WriteFault>
        ensures ok { OnOk result (written self.new ≡ option_map (λ before. before ++ piece.now) (written self.old)) }
        ensures ok_same_faults { OnOk result (faults self.new ≡ faults self.old) }
        ensures err { OnErr result ((taken : ℕ) × (taken ≤ length piece.now)
            × (written self.new ≡ option_map (λ before. before ++ take taken piece.now) (written self.old))) }
        ensures err_rose { OnErr result (Rose (faults self.old) (faults self.new)) }
        ensures never_falls { faults self.old ≤ faults self.new };
}
