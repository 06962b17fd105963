//! How many entries of each kind a journal has. It touches nothing but the journal that it is lent.

ghost use Rattle.std.specs.Prelude.{◌≡◌};
ghost use Rattle.rdb_audit.specs.Verdicts.{counts_of};

use crate::verdict::Counts;
use rdb_base::journal::Entry;
use rdb_journal::summary::{aborts, closed, commits, handled, reads};

/// How many entries of each kind there are. It takes no memory, and the cost grows with the journal's length.
pub fn counts(journal: &[Entry]) -> Counts
    ensures { result ≡ counts_of journal.now }
{
    Counts {
        commits: commits(journal) as u64,
        reads: reads(journal) as u64,
        aborts: aborts(journal) as u64,
        handled: handled(journal) as u64,
        closed: closed(journal) as u64,
    }
}
