//! Named files in memory, which contracts see as the finite map from names to bytes.

ghost use Rattle.std.specs.Prelude.{◌≡◌, OnOk, OnErr};
ghost use Rattle.std.specs.Option.{option_copied};
ghost use Rattle.std.specs.FinMap as map;

use crate::files::Bytes;
use crate::list::{List, NoMemory};
use std::alloc::Global;
use std::collections::BTreeMap;
use std::marker::Model;

/// Named files. It keeps its allocator.
#[derive(Drop)]
pub struct Folder {
    alloc: Global,
    files: BTreeMap<String, Bytes>,
}

impl Model for Folder {
    ghost use Rattle.std.specs.Prelude.{List, ℕ};
    ghost use Rattle.std.specs.Coded.{coded_ℕ, coded_list};
    ghost use Rattle.std.specs.Ordering.{nat_cmp};
    ghost use Rattle.std.specs.Cmp.Lexicographic.{slice_cmp};
    ghost use Rattle.std.specs.FinMap as map;

    ghost Value = { map.FinMap (slice_cmp nat_cmp) (List ℕ) };

    ghost coded = { map.code (coded_list coded_ℕ) (coded_list coded_ℕ) };

    ghost use Rattle.rdb_base.specs.Memory.{named};

    ghost view = { λ folder. map.from_entries (named folder.files.entries) };
}

impl Folder {
    /// No files. It takes no memory.
    pub fn new(alloc: Global) -> Folder
        ensures { result ≡ map.empty }
    {
        Folder {
            alloc,
            files: BTreeMap::new(alloc),
        }
    }

    /// The bytes of a file, or None where there is none of the name. The cost grows with the logarithm of the number of files.
    pub fn get(&self, name: &str) -> Option<&Bytes>
        ensures { option_copied result ≡ map.get self.now name.now }
    {
        self.files.get(name)
    }

    /// Adds a file, or replaces the bytes of the one of the name. The cost grows with the bytes.
    pub fn put(&mut self, name: &str, bytes: &[u8]) -> Result<(), NoMemory>
        ensures ok { OnOk result (self.new ≡ map.insert self.old name.now bytes.now) }
        ensures err { OnErr result (self.new ≡ self.old) }
    {
        let key = String::from_str(self.alloc, name)?;
        let copy = List::from_slice(self.alloc, bytes)?;
        self.files.insert(key, copy)?;
        Ok(())
    }
}
