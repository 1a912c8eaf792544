//! A ghost count, of writes of the idle order or of lookups. It has no bytes.
ghost use Rattle.std.specs.Prelude.{◌≡◌, ◌+◌, ℕ};
ghost use base.Fml.{ftrue};

use std::marker::{Model, PhantomData};

// The number of times that `tick` was called.
#[derive(Drop)]
pub struct Work {
    mark: PhantomData<()>,
    pub ghost count: { ℕ },
}

// There is nothing in it that threads could share.
unsafe impl Send for Work {}

unsafe impl Sync for Work {}

impl Model for Work {
    ghost also_owns = { λ _. ftrue };
}

impl Work {
    pub(crate) fn new() -> Work
        ensures { result.count ≡ 0 }
    {
        Work { mark: PhantomData }
    }

    pub(crate) fn tick(&mut self)
        ensures { self.new.count ≡ self.old.count + 1 }
    {}
}
