//! One block of memory as a row of places, each empty or holding a value. The raw pointer stays in this module.
ghost use Rattle.std.specs.Prelude.{◌≡◌, ℕ, List, Option, Some, None, length, replicate, slice_get, slice_set, IfOk};
ghost use Rattle.std.specs.Borrow.{sem};
ghost use Rattle.std.specs.Vec.Ownership.{FitsInBlock};
ghost use denote.RawPtr.{Ptr};
ghost use Rattle.rdb_pages.specs.Block.{block_owns, block_lends, deed_owns};

use std::alloc::{AllocError, Allocator};
use std::marker::{Model, PhantomData, Send};
use std::mem::{align_of, size_of};

/// The owner of the places, at any type of value. It keeps where they begin; which of them hold a value
/// is told by `held` alone, so a caller that has to know keeps a table of its own.
pub(crate) struct Block<T> {
    start: *mut T,
    ghost held: { List (Option T) },
}

impl<T> Model for Block<T> {
    ghost also_owns = { λ b. block_owns T.row b.start b.held };

    ghost also_shares = { λ b _ κ. block_lends T.row b.start b.held κ };
}

unsafe impl<T: Send> Send for Block<T> {}

/// The right to give the block back to its allocator. It takes no space.
pub(crate) struct Deed<T, A: Allocator> {
    marker: PhantomData<*const (T, A)>,
    ghost start: { Ptr },
    ghost len: { ℕ },
    ghost alloc: { A },
}

impl<T, A: Allocator> Model for Deed<T, A> {
    ghost also_owns = { λ d. deed_owns T.row (A.dealloc_token d.alloc) d.start d.len };
}

unsafe impl<T, A: Allocator + Send> Send for Deed<T, A> {}

/// Asks `alloc` for `len` empty places, and writes to none of them.
pub(crate) fn reserve<T, A: Allocator>(
    alloc: &A,
    len: usize,
) -> Result<(Block<T>, Deed<T, A>), AllocError>
    requires { FitsInBlock T.row len }
    ensures { IfOk result (λ r. (r.0.held ≡ replicate len None) × (r.1.start ≡ r.0.start) × (r.1.len ≡ len) × (r.1.alloc ≡ alloc.now)) }
{
    match alloc.allocate(len * size_of::<T>(), align_of::<T>()) {
        Ok(bytes) => {
            let start = bytes as *mut T;
            Ok((
                Block { start },
                Deed {
                    marker: PhantomData,
                },
            ))
        }
        Err(error) => Err(error),
    }
}

/// Gives the block back. A value that a place holds is forgotten.
pub(crate) fn release<T, A: Allocator>(alloc: &A, block: Block<T>, len: usize, deed: Deed<T, A>)
    requires { (len ≡ length block.held) × (deed.start ≡ block.start) × (deed.len ≡ len) × (deed.alloc ≡ alloc.now) }
{
    let Block { start } = block;
    let Deed { marker: _ } = deed;
    unsafe {
        alloc.deallocate(start as *mut u8, len * size_of::<T>(), align_of::<T>());
    }
}

impl<T> Block<T> {
    ghost use Rattle.rdb_pages.specs.BlockLends.{lends_place};

    /// Puts a value into an empty place.
    pub(crate) fn put(&mut self, index: usize, value: T)
        requires { slice_get self.old.held index ≡ Some None }
        ensures { (self.new.start ≡ self.old.start) × (self.new.held ≡ slice_set self.old.held index (Some value)) }
    {
        unsafe { self.start.add(index).write(value) }
    }

    /// Lends the value that a place holds.
    pub(crate) fn get(&self, index: usize) -> &T
        requires { (x : T) × (slice_get self.now.held index ≡ Some (Some x)) }
        ensures { slice_get self.now.held index ≡ Some (Some result.now) }
    {
        unsafe { &*self.start.add(index) }
    }

    /// Lends the value that a place holds, to write to.
    pub(crate) fn get_mut(&mut self, index: usize) -> &mut T
        requires { (x : T) × (slice_get self.old.held index ≡ Some (Some x)) }
        ensures* writes_back { sem 𝓛 (lends_place T.row self.entry index result) }
        ensures value { slice_get self.old.held index ≡ Some (Some result.now) }
    {
        unsafe { &mut *self.start.add(index) }
    }
}
