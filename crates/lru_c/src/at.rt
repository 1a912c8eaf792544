//! A pointer that owns what it points to, as a box does, or owns nothing. A handle of C has the
//! same fields in a struct of its own, because a struct with a type parameter cannot be passed to
//! C.
ghost use Rattle.std.specs.Prelude.{◌≡◌, Option as Maybe, Some, None, is_some, true};
ghost use Rattle.lru_c.specs.Held.{held_owns};

use std::alloc::Allocator;
use std::marker::Model;

/// A pointer. If `held` is some, it owns that value as a box does; otherwise it owns nothing.
pub struct At<T, A: Allocator> {
    pub(crate) ptr: *mut T,
    pub(crate) alloc: A,
    pub ghost held: { Maybe T },
}

impl<T, A: Allocator> Model for At<T, A> {
    ghost also_owns = { λ c. held_owns (A.dealloc_token c.alloc) T.row c.ptr c.held };
}

impl<T, A: Allocator> At<T, A> {
    pub(crate) fn of(inner: Box<T, A>) -> At<T, A>
    where
        T: Drop,
        ensures { result.held ≡ Some inner.value }
    {
        let (ptr, alloc) = Box::into_raw_with_allocator(inner);
        At { ptr, alloc }
    }

    pub(crate) fn into_box(self) -> Box<T, A>
        requires { is_some self.held ≡ true }
        ensures { self.held ≡ Some result.value }
    {
        let At { ptr, alloc } = self;
        unsafe { Box::from_raw(alloc, ptr) }
    }

    pub(crate) fn none(alloc: A) -> At<T, A>
        ensures { result.held ≡ None }
    {
        At {
            ptr: std::ptr::null_mut(),
            alloc,
        }
    }
}
