//! What is claimed of the journal's reserved room, so that no call that ends something lacks memory. It touches the journal and its room
//! alone.
//!
//! | Claimed          | By                                                          | Until                                           |
//! |------------------|-------------------------------------------------------------|-------------------------------------------------|
//! | an entry's place | each connection that is there, for its Closed or Handled     | that entry is written                           |
//! | an entry's place | each open transaction, for its Commit, Read or Abort         | that entry is written, or it is closed unmarked |
//! | a write's place  | each write that an open transaction did, or has in work      | its story goes to the journal, or is given up   |

ghost use Rattle.std.specs.Prelude.{◌≡◌, ◌+◌, ◌<◌, ◌≤◌, length, OnOk, OnErr};
ghost use Rattle.rdb_transactions.specs.Claims.{writes_in, HasRoom, Covers};
ghost use Rattle.rdb_transactions.specs.Moves.{IsSame, Enters};

use crate::transactions::Transactions;
use rdb_base::journal::Entry;
use rdb_base::list::NoMemory;
use rdb_base::operation::{Op, Reply};
use rdb_history::rows::written_by;

/// How many places are claimed: of entries, and of writes of commits.
#[derive(Clone, Copy, Debug, PartialEq, Eq)]
pub struct Claims {
    pub entries: usize,
    pub writes: usize,
}

impl Claims {
    /// Nothing is claimed.
    pub fn none() -> Claims
        ensures { result ≡ record { entries = 0; writes = 0 } }
    {
        Claims {
            entries: 0,
            writes: 0,
        }
    }
}

/// How many of the operations wrote an object. The cost grows with them.
pub fn writes_in(done: &[(Op, Reply)]) -> usize
    ensures value { result ≡ writes_in done.now }
    ensures few { result ≤ length done.now }
{
    let mut writes = 0;
    for (op, told) in done {
        if written_by(op, told).is_some() {
            writes += 1;
        }
    }
    writes
}

impl Transactions {
    /// Makes the journal's room one entry more than is claimed, where it isn't yet.
    pub(crate) fn make_entry_room(&mut self) -> Result<(), NoMemory>
        requires { HasRoom self.old.claims self.old.journal }
        ensures enough { OnOk result (self.old.claims.entries < self.new.journal.room) }
        ensures room { HasRoom self.new.claims self.new.journal }
        ensures claims { self.new.claims ≡ self.old.claims }
        ensures same { IsSame self.old self.new }
    {
        if self.journal.room() == self.claims.entries {
            self.journal.reserve(1, 0)?;
        }
        Ok(())
    }

    /// Claims the place of an entry more. Where memory is wanting nothing is claimed.
    pub(crate) fn claim_entry(&mut self) -> Result<(), NoMemory>
        requires { HasRoom self.old.claims self.old.journal }
        ensures ok { OnOk result (self.new.claims ≡ record self.old.claims { entries = self.old.claims.entries + 1 }) }
        ensures err { OnErr result (self.new.claims ≡ self.old.claims) }
        ensures room { HasRoom self.new.claims self.new.journal }
        ensures same { IsSame self.old self.new }
    {
        self.make_entry_room()?;
        self.claims.entries += 1;
        Ok(())
    }

    // Makes the journal's room one write more than is claimed, where it isn't yet.
    fn make_write_room(&mut self) -> Result<(), NoMemory>
        requires { HasRoom self.old.claims self.old.journal }
        ensures enough { OnOk result (self.old.claims.writes < self.new.journal.write_room) }
        ensures room { HasRoom self.new.claims self.new.journal }
        ensures claims { self.new.claims ≡ self.old.claims }
        ensures same { IsSame self.old self.new }
    {
        if self.journal.write_room() == self.claims.writes {
            self.journal.reserve(0, 1)?;
        }
        Ok(())
    }

    /// Claims the place of a write more. Where memory is wanting nothing is claimed.
    pub fn claim_write(&mut self) -> Result<(), NoMemory>
        requires { HasRoom self.old.claims self.old.journal }
        ensures ok { OnOk result (self.new.claims ≡ record self.old.claims { writes = self.old.claims.writes + 1 }) }
        ensures err { OnErr result (self.new.claims ≡ self.old.claims) }
        ensures room { HasRoom self.new.claims self.new.journal }
        ensures same { IsSame self.old self.new }
    {
        self.make_write_room()?;
        // a room is a number of this size, and more than what is claimed
        let _room = self.journal.write_room();
        self.claims.writes += 1;
        Ok(())
    }

    /// Appends an entry, and gives up what was claimed for it. It takes no memory; the cost grows with the operations of a commit.
    pub(crate) fn enter(&mut self, entry: Entry, given: Claims)
        requires room { HasRoom self.old.claims self.old.journal }
        requires claimed { Covers given self.old.claims entry }
        ensures { Enters self.old self.new entry given }
    {
        self.claims.entries -= given.entries;
        self.claims.writes -= given.writes;
        self.journal.append(entry);
    }
}
