//! The callers that may wait for what a call under the lock did, as a debt: they are to be woken.
use std::marker::Model;
use std::sync::Condvar;

/// A debt: callers may wait for what was just done. `wake` takes it.
///
/// Clauses see whether there may be any.
pub struct Waiters {
    pub(super) some: bool,
}

impl Model for Waiters {
    ghost use Rattle.std.specs.Prelude.{Bool};

    ghost Value = { Bool };

    ghost view = { λ w. w.some };
}

impl Waiters {
    /// Wakes all callers that wait, if there may be any.
    #[inline(always)]
    pub fn wake(self, woken: &Condvar) {
        let Self { some } = self;
        if some {
            woken.notify_all();
        }
    }
}
