//! Who reads, and which commits are marked while their stamps aren't all written.
ghost use Rattle.std.specs.Prelude.{◌≡◌, ℕ, Option};
ghost use Rattle.rdb_base.specs.declared.identity.TxId.{TxId as TxIdValue};

use rdb_base::identity::TxId;

/// The commits that are marked. No call takes memory.
pub trait Marks {
    ghost marked: { Self → TxIdValue → Option ℕ };

    /// Returns the number of a transaction's commit, where it is marked and not all its stamps are written.
    fn mark(&self, tx: TxId) -> Option<u64>
        ensures { result ≡ marked self.now tx };
}

/// A reader: its transaction, and the number of commits that it sees.
#[derive(Clone, Copy, Debug, PartialEq, Eq)]
pub struct Reader {
    pub snapshot: u64,
    pub tx: TxId,
}
