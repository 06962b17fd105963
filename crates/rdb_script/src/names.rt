//! What a script's names stand for.

ghost use Rattle.std.specs.Prelude.{◌≡◌, OnOk, OnErr};
ghost use Rattle.std.specs.Option.{option_copied};
ghost use Rattle.std.specs.FinMap as map;

use rdb_base::list::NoMemory;
use std::alloc::Global;
use std::collections::BTreeMap;
use std::marker::Model;

/// What a name stands for: an object of a class, and where a `seek` assigned it, a place of the class's index too.
#[derive(Clone, Copy, Debug, PartialEq, Eq)]
pub struct Assigned {
    pub class: u32,
    pub index: Option<u32>,
}

/// The names of a script, each with what its last assigning line gives it.
#[derive(Drop)]
pub struct Names {
    alloc: Global,
    assigned: BTreeMap<String, Assigned>,
}

impl Model for Names {
    ghost use Rattle.std.specs.Prelude.{List, ℕ};
    ghost use Rattle.std.specs.Coded.{coded_ℕ, coded_list};
    ghost use Rattle.std.specs.Ordering.{nat_cmp};
    ghost use Rattle.std.specs.Cmp.Lexicographic.{slice_cmp};
    ghost use Rattle.std.specs.FinMap as map;
    ghost use Rattle.rdb_base.specs.Memory.{named};
    ghost use Rattle.rdb_script.specs.declared.names.Assigned.{Assigned};

    ghost Value = { map.FinMap (slice_cmp nat_cmp) Assigned };

    ghost use Rattle.rdb_script.specs.contracts.names.Assigned as assigned_type;

    ghost coded = { map.code (coded_list coded_ℕ) assigned_type.the_row.coded };

    ghost view = { λ names. map.from_entries (named names.assigned.entries) };
}

impl Names {
    /// No names. It takes no memory.
    pub fn new(alloc: Global) -> Names
        ensures { result ≡ map.empty }
    {
        Names {
            alloc,
            assigned: BTreeMap::new(alloc),
        }
    }

    /// What the name stands for, or None where no line assigned it. The cost grows with the logarithm of the number of
    /// names.
    pub fn get(&self, name: &str) -> Option<Assigned>
        ensures { result ≡ map.get self.now name.now }
    {
        self.assigned.get(name).copied()
    }

    /// Assigns the name. The cost grows with the logarithm of the number of names.
    pub fn assign(&mut self, name: &str, assigned: Assigned) -> Result<(), NoMemory>
        ensures ok { OnOk result (self.new ≡ map.insert self.old name.now assigned) }
        ensures err { OnErr result (self.new ≡ self.old) }
    {
        let key = String::from_str(self.alloc, name)?;
        self.assigned.insert(key, assigned)?;
        Ok(())
    }
}
