//! The objects of one class, in the order of their ids. It touches its own vector alone.

ghost use Rattle.std.specs.Prelude.{◌≡◌, [], OnOk, OnErr, IfOk, IfErr, length, slice_get, Some};
ghost use Rattle.std.specs.Option.{option_copied};
ghost use Rattle.rdb_model.specs.Database.{row_of, with_row, without};
ghost use Rattle.rdb_model.specs.Place.{IsAt, IsGapFor};

use rdb_base::list::NoMemory;
use rdb_base::value::Row;
use std::alloc::Global;
use std::marker::Model;

/// The objects of one class. Contracts see the pairs of an id and its row, in ascending id.
#[derive(Debug, Drop)]
pub struct Objects {
    pairs: Vec<(u64, Row)>,
}

impl Model for Objects {
    ghost use Rattle.rdb_model.specs.Database.{Objects as Pairs, IsAscending};

    ghost Value = { Pairs };

    ghost view = { λ o. o.pairs.items };

    ghost invariant = { λ o. IsAscending o.pairs.items };
}

impl Objects {
    /// No object. It takes no memory.
    pub fn new(alloc: Global) -> Objects
        ensures { result ≡ [] }
    {
        Objects {
            pairs: Vec::new(alloc),
        }
    }

    /// How many objects there are.
    pub fn len(&self) -> usize
        ensures { result ≡ length self.now }
    {
        self.pairs.len()
    }

    /// All objects, lent, in ascending id.
    pub fn as_slice(&self) -> &[(u64, Row)]
        ensures { result.now ≡ self.now }
    {
        self.pairs.as_slice()
    }

    /// The row of the object of an id. The cost grows with the logarithm of the number of objects.
    pub fn row(&self, id: u64) -> Option<&Row>
        ensures { option_copied result ≡ row_of self.now id }
    {
        match self.search(id) {
            Ok(place) => Some(&self.pairs[place].1),
            Err(_) => None,
        }
    }

    /// Gives the object of an id this row, and makes it where there is none. A new id after all others costs constant time; else the cost
    /// grows with the number of objects.
    pub fn put(&mut self, id: u64, row: Row) -> Result<(), NoMemory>
        ensures ok { OnOk result (self.new ≡ with_row self.old id row) }
        ensures err { OnErr result (self.new ≡ self.old) }
    {
        match self.search(id) {
            Ok(place) => {
                self.pairs[place] = (id, row);
                Ok(())
            }
            Err(place) => Ok(self.pairs.insert(place, (id, row))?),
        }
    }

    /// Takes the object of an id away, if there is one. The cost grows with the number of objects.
    pub fn remove(&mut self, id: u64)
        ensures { self.new ≡ without self.old id }
    {
        if let Ok(place) = self.search(id) {
            let _ = self.pairs.remove(place);
        }
    }

    /// An equal list of objects. The cost grows with all that their rows hold.
    pub fn copy(&self) -> Result<Objects, NoMemory>
        ensures { IfOk result (λ copy. copy ≡ self.now) }
    {
        let pairs = copy_pairs(*self.pairs.allocator(), &self.pairs)?;
        Ok(Objects { pairs })
    }

    // Where the id is, or where it would go.
    fn search(&self, id: u64) -> Result<usize, usize>
        ensures found { IfOk result (IsAt self.now id) }
        ensures absent { IfErr result (IsGapFor self.now id) }
    {
        self.pairs.binary_search_by_key(&id, |pair| pair.0)
    }
}

// Copies of pairs of an id and its row.
fn copy_pairs(alloc: Global, pairs: &[(u64, Row)]) -> Result<Vec<(u64, Row)>, NoMemory>
    ensures { IfOk result (λ copies. copies.items ≡ pairs.now) }
{
    let mut copies = Vec::with_capacity(alloc, pairs.len())?;
    for (id, row) in pairs {
        copies.push((*id, row.copy()?))?;
    }
    Ok(copies)
}
