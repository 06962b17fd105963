//! The places of numbers in a list of different numbers, by a hash table with chains (Knuth, The Art of Computer
//! Programming, volume 3, section 6.4), over memory that is reserved once.
ghost use Rattle.std.specs.Prelude.{◌≡◌, ◌≢◌, ◌<◌, ◌≤◌, ◌-◌, ℕ, [], ◌∷◌, ◌++◌, length, slice_index, IfOk, IfSome, IfNone};
ghost use Rattle.rdb_cells.specs.Places.{bucket_of, AreDifferent};

use rdb_base::list::NoMemory;
use std::alloc::Global;
use std::marker::Model;

/// Different numbers, in the order in which they came. Contracts see their list, oldest first, and how many there is room
/// for. After `reserve` no call takes memory. Each other call takes constant time where the numbers spread evenly over the
/// buckets, of which there are as many as there is room for.
#[derive(Drop)]
pub(crate) struct Places {
    numbers: Vec<u32>,
    links: Vec<usize>,
    heads: Vec<usize>,
}

impl Model for Places {
    ghost use Rattle.std.specs.Prelude.{◌≤◌, length, vec_capacity};
    ghost use Rattle.rdb_cells.specs.Places.{Numbers, IsChained, bucket_of};

    ghost Value = { Numbers };

    ghost view = { λ p. record { numbers = p.numbers.items; room = length p.heads.items } };

    ghost invariant = { λ p. (length p.numbers.items ≤ length p.heads.items) × (length p.heads.items ≤ vec_capacity p.numbers) × (length p.heads.items ≤ vec_capacity p.links) × IsChained (bucket_of (length p.heads.items)) p.numbers.items p.links.items p.heads.items };
}

/// Returns the bucket of a number, by multiplicative hashing.
fn bucket(number: u32, count: usize) -> usize
    requires { 0 < count }
    ensures bucket { result ≡ bucket_of count number }
    ensures within { result < count }
{
    (number as u64 * 2_654_435_769 / 65_536 % count as u64) as usize
}

impl Places {
    /// Reserves room for `count` numbers. The only error is want of memory.
    pub(crate) fn reserve(alloc: Global, count: usize) -> Result<Places, NoMemory>
        ensures { IfOk result (λ p. p ≡ record { numbers = []; room = count }) }
    {
        Ok(Places {
            numbers: Vec::with_capacity(alloc, count)?,
            links: Vec::with_capacity(alloc, count)?,
            heads: vec![in alloc; 0usize; count]?,
        })
    }

    /// Makes a list without room. It takes no memory.
    pub(crate) fn empty(alloc: Global) -> Places
        ensures { result ≡ record { numbers = []; room = 0 } }
    {
        Places {
            numbers: Vec::new(alloc),
            links: Vec::new(alloc),
            heads: Vec::new(alloc),
        }
    }

    /// Says that no two numbers are equal. It does nothing.
    pub(crate) fn differ(&self)
        ensures { AreDifferent self.now.numbers }
    {
        let _ = &self.numbers;
    }

    /// Returns how many numbers there is room for in all.
    pub(crate) fn room(&self) -> usize
        ensures { result ≡ self.now.room }
    {
        self.heads.len()
    }

    /// Returns the place of the number, if it is there.
    pub(crate) fn find(&self, number: u32) -> Option<usize>
        ensures found { IfSome result (λ i. (i < length self.now.numbers) × (slice_index self.now.numbers i ≡ number)) }
        ensures none { IfNone result ((i : ℕ) → i < length self.now.numbers → slice_index self.now.numbers i ≢ number) }
        ensures differ { AreDifferent self.now.numbers }
    {
        if self.numbers.is_empty() {
            return None;
        }
        let mut link = self.heads[bucket(number, self.heads.len())];
        while link > 0 {
            let place = link - 1;
            if self.numbers[place] == number {
                return Some(place);
            }
            link = self.links[place];
        }
        None
    }

    /// Appends a number that isn't there yet.
    pub(crate) fn push(&mut self, number: u32)
        requires room { length self.old.numbers < self.old.room }
        requires fresh { (i : ℕ) → i < length self.old.numbers → slice_index self.old.numbers i ≢ number }
        ensures { self.new ≡ record self.old { numbers = self.old.numbers ++ number ∷ [] } }
    {
        let head = bucket(number, self.heads.len());
        let _linked = self.links.push(self.heads[head]);
        let _kept = self.numbers.push(number);
        self.heads[head] = self.numbers.len();
    }

    /// Takes every number away, newest first, and keeps the room.
    pub(crate) fn clear(&mut self)
        ensures { self.new ≡ record self.old { numbers = [] } }
    {
        while !self.numbers.is_empty() {
            let _number = self.pop();
        }
    }

    /// Takes the newest number away.
    pub(crate) fn pop(&mut self) -> u32
        requires { 0 < length self.old.numbers }
        ensures { self.old ≡ record self.new { numbers = self.new.numbers ++ result ∷ [] } }
    {
        match (self.numbers.pop(), self.links.pop()) {
            (Some(number), Some(link)) => {
                let head = bucket(number, self.heads.len());
                self.heads[head] = link;
                number
            }
            _ => unreachable!(),
        }
    }
}
