//! Which line assigned each name last.

ghost use Rattle.std.specs.Prelude.{◌≡◌, OnOk, OnErr};
ghost use Rattle.std.specs.FinMap as map;

use rdb_base::list::NoMemory;
use std::alloc::Global;
use std::collections::BTreeMap;
use std::marker::Model;

/// The names that lines assign, each with the number of the last line that assigns it.
#[derive(Drop)]
pub(crate) struct Assigners {
    alloc: Global,
    last: BTreeMap<String, usize>,
}

impl Model for Assigners {
    ghost use Rattle.std.specs.Prelude.{List, ℕ};
    ghost use Rattle.std.specs.Coded.{coded_ℕ, coded_list};
    ghost use Rattle.std.specs.Ordering.{nat_cmp};
    ghost use Rattle.std.specs.Cmp.Lexicographic.{slice_cmp};
    ghost use Rattle.std.specs.FinMap as map;
    ghost use Rattle.rdb_base.specs.Memory.{named};

    ghost Value = { map.FinMap (slice_cmp nat_cmp) ℕ };

    ghost coded = { map.code (coded_list coded_ℕ) coded_ℕ };

    ghost view = { λ assigners. map.from_entries (named assigners.last.entries) };
}

impl Assigners {
    /// No names. It takes no memory.
    pub(crate) fn new(alloc: Global) -> Assigners
        ensures { result ≡ map.empty }
    {
        Assigners {
            alloc,
            last: BTreeMap::new(alloc),
        }
    }

    /// The last line that assigns the name, or None where none does. The cost grows with the logarithm of the number of
    /// names.
    pub(crate) fn last(&self, name: &str) -> Option<usize>
        ensures { result ≡ map.get self.now name.now }
    {
        self.last.get(name).copied()
    }

    /// Notes that a line assigns the name. The cost grows with the logarithm of the number of names.
    pub(crate) fn assign(&mut self, name: &str, number: usize) -> Result<(), NoMemory>
        ensures ok { OnOk result (self.new ≡ map.insert self.old name.now number) }
        ensures err { OnErr result (self.new ≡ self.old) }
    {
        let key = String::from_str(self.alloc, name)?;
        self.last.insert(key, number)?;
        Ok(())
    }
}
