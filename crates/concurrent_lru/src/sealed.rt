//! What a call under a lock leaves to be dropped without it, as a debt: a type that is not `Drop`,
//! so that the checker refuses a path that forgets it.
ghost use Rattle.std.specs.Prelude.{◌≡◌};

use std::marker::Model;
use std::sync::MutexGuard;

/// A debt: what a call under a lock took out of what the lock guards, so that nothing of it is
/// dropped under the lock. `open` takes it, with the guard.
///
/// Clauses see what was taken out.
pub struct Sealed<T> {
    inner: T,
}

impl<T> Model for Sealed<T> {
    ghost Value = { T };

    ghost view = { λ s. s.inner };
}

impl<T> Sealed<T> {
    /// Seals what a call took out.
    pub fn of(inner: T) -> Self
        ensures { result ≡ inner }
    {
        Sealed { inner }
    }

    /// Releases the lock, and then returns what was sealed under it.
    #[inline(always)]
    pub fn open<L: Drop>(self, guard: MutexGuard<'_, L>) -> T
        ensures { result ≡ self }
    {
        drop(guard);
        let Self { inner } = self;
        inner
    }
}
