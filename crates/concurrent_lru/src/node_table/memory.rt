//! Boxed values turned into raw pointers, and the single owner of what these point to.
//!
//! The owner has no bytes: only contracts see which value is where, and in which slot.
ghost use Rattle.std.specs.Prelude.{◌≡◌, ◌<◌, List as Seq, [], None, IsSome, Option as Maybe};
ghost use Rattle.std.specs.Mem.{type_size};
ghost use Rattle.std.specs.Borrow.{sem};
ghost use Rattle.concurrent_lru.specs.Cells.{Cell, cell_at, slot_at, put_at, put_cell, HoldsBy, AtFirst, AreApart, IsValueAt};
ghost use Rattle.concurrent_lru.specs.CellOwnership.{cells_own, cells_lent};

use std::alloc::{AllocError, Allocator};
use std::marker::{Model, PhantomData, Send, Sync};
use std::ptr;

// The address of a value. It owns nothing.
pub(crate) struct At<T> {
    pub(super) ptr: *mut T,
}

impl<T> At<T> {
    // Returns an address that leads to no value, and that nothing reads through.
    pub(super) fn nowhere() -> At<T> {
        At {
            ptr: ptr::null_mut(),
        }
    }
}

impl<T> Clone for At<T> {
    ghost use Rattle.std.specs.Prelude.{⊤};

    ghost is_clone = { λ x y. y ≡ x };

    ghost is_infallible = { λ _. ⊤ };

    fn clone(&self) -> Result<At<T>, AllocError> {
        Ok(*self)
    }
}

impl<T> Copy for At<T> {}

// Only the holder of the memory may use the value; the pointer alone gives no access.
unsafe impl<T> Send for At<T> {}

unsafe impl<T> Sync for At<T> {}

// The owner of the values that the pointers lead to, each in a slot.
pub(super) struct Memory<T, A: Allocator> {
    mark: PhantomData<*mut (T, A)>,
    ghost cells: { Seq (Maybe (Cell T A)) },
}

impl<T, A: Allocator> Model for Memory<T, A> {
    ghost also_owns = { λ m. cells_own T.row A.row A.dealloc_token m.cells };

    ghost also_shares = { λ m _ κ. cells_lent T.row A.row m.cells κ };
}

// It owns its values as boxes do.
unsafe impl<T: Send, A: Allocator + Send> Send for Memory<T, A> {}

unsafe impl<T: Sync, A: Allocator + Sync> Sync for Memory<T, A> {}

impl<T, A: Allocator> Memory<T, A> {
    ghost use Rattle.concurrent_lru.specs.CellLends.{lends_at};

    pub(super) fn new() -> Memory<T, A>
        ensures { result.cells ≡ [] }
    {
        Memory { mark: PhantomData }
    }

    // Takes over a box, in a slot that is free.
    pub(super) fn put(&mut self, value: Box<T, A>, slot: usize) -> (At<T>, A)
    where
        T: Drop,
        requires { cell_at self.old.cells slot ≡ None }
        ensures { self.new.cells ≡ put_cell slot result.0.ptr result.1 value.value self.old.cells }
    {
        // Only the contract uses it.
        let _ = slot;
        let (ptr, alloc) = Box::into_raw_with_allocator(value);
        (At { ptr }, alloc)
    }

    // Returns the value at an address.
    pub(super) fn get(&self, at: At<T>) -> &T
        requires { IsSome (slot_at self.now.cells at.ptr) }
        ensures { AtFirst self.now.cells at.ptr (λ _ c. result.now ≡ c.value) }
    {
        unsafe { &*at.ptr }
    }

    // Returns the value at an address for writing.
    pub(super) fn lend(&mut self, at: At<T>) -> &mut T
        requires { IsSome (slot_at self.old.cells at.ptr) }
        ensures* writes_back { sem 𝓛 (lends_at T.row A.row A.Allocator self.entry at.ptr result) }
        ensures value { AtFirst self.old.cells at.ptr (λ _ c. result.now ≡ c.value) }
    {
        unsafe { &mut *at.ptr }
    }

    // Returns the value in a slot in its box.
    pub(super) fn take(&mut self, at: At<T>, slot: usize, alloc: A) -> Box<T, A>
        requires { HoldsBy self.old.cells slot at.ptr alloc }
        ensures value { IsValueAt self.old.cells slot result.value }
        ensures cells { self.new.cells ≡ put_at slot None self.old.cells }
    {
        // Only the contract uses it.
        let _ = slot;
        unsafe { Box::from_raw(alloc, at.ptr) }
    }

    // Shows that values with bytes do not overlap, since each is owned.
    pub(super) fn apart(&mut self)
        requires { 0 < type_size T.row }
        ensures same { self.new ≡ self.old }
        ensures apart { AreApart self.old.cells }
    {}

    // Ends a memory that owns no values.
    pub(super) fn end(self)
        requires { (k : _) → cell_at self.cells k ≡ None }
    {
        let Memory { mark: _ } = self;
    }
}
