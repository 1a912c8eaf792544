//! What the handles of C have in common, whatever they point to.
ghost use Rattle.std.specs.Borrow.{sem};
ghost use Rattle.std.specs.Prelude.{◌≡◌, Option as Maybe, Some, None, is_some, MatchOption};
ghost use Rattle.lru_c.specs.Lends.{LendsHeld};
ghost use Rattle.lru_c.specs.Opened.{Opens};

use crate::at::At;
use crate::code;
use core::mem::replace_with;
use std::alloc::Global;

/// A handle of C, which is open and points to a value, or is not open.
pub trait Handle: Sized {
    /// The type of the value.
    type To: Drop;

    /// The value, if the handle is open.
    ghost held: { Self → Maybe Self.To };

    /// Returns a handle with these parts.
    fn of_parts(at: At<Self::To, Global>, is_open: bool) -> Self
        requires { is_some at.held ≡ is_open }
        ensures { held result ≡ at.held };

    /// Returns the pointer of a handle, and whether the handle is open.
    fn into_parts(self) -> (At<Self::To, Global>, bool)
        ensures held { result.0.held ≡ held self }
        ensures is_open { is_some result.0.held ≡ result.1 };

    /// Borrows the value of the handle, for a call on it. Returns `None` if it is not open.
    fn get_mut(&mut self) -> Option<&mut Self::To>
        ensures* writes_back { sem 𝓛 (LendsHeld Self.row Self.To.row held self.entry result) }
        ensures value { MatchOption result (held self.old ≡ None)
            (λ inner. held self.old ≡ Some inner.now) };
}

// Opens a handle, which leads to `inner` from then on. Returns `OPEN` if it is open already, as
// `is_open` says, or `MEMORY`; the handle is unchanged then.
pub(crate) fn open_new<H: Handle + Drop>(
    alloc: Global,
    inner: H::To,
    is_open: bool,
    out: &mut H,
) -> u32
    ensures { Opens is_open (H.held out.old) (λ x. x ≡ inner) result (H.held out.new) }
{
    if is_open {
        return code::OPEN;
    }
    match Box::new(alloc, inner) {
        Ok(inner) => {
            *out = open(inner);
            code::DONE
        }
        Err(_) => code::MEMORY,
    }
}

fn open<H: Handle>(inner: Box<H::To>) -> H
    ensures { H.held result ≡ Some inner.value }
{
    H::of_parts(At::of(inner), true)
}

fn closed<H: Handle>(alloc: Global) -> H
    ensures { H.held result ≡ None }
{
    H::of_parts(At::none(alloc), false)
}

// Takes the value out of a handle and closes it. Returns `None` if the handle was not open.
pub(crate) fn take<H: Handle>(handle: &mut H) -> Option<Box<H::To>>
    ensures closed { H.held handle.new ≡ None }
    ensures taken { MatchOption result (H.held handle.old ≡ None)
        (λ inner. H.held handle.old ≡ Some inner.value) }
{
    replace_with(handle, None, taken)
}

// Returns `none` if the handle is not open. It is an argument because a function that is passed as
// a value may return only types that its arguments name.
fn taken<H: Handle>(handle: H, none: Option<Box<H::To>>) -> (H, Option<Box<H::To>>)
    requires { none ≡ None }
    ensures closed { H.held result.0 ≡ None }
    ensures taken { MatchOption result.1 (H.held handle ≡ None)
        (λ inner. H.held handle ≡ Some inner.value) }
{
    let (at, is_open) = handle.into_parts();
    if !is_open {
        return (H::of_parts(at, false), none);
    }
    let inner = at.into_box();
    let alloc = *Box::allocator(&inner);
    (closed(alloc), Some(inner))
}
