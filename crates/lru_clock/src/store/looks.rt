//! The looks that a call makes at slots. They exist only in proofs.
ghost use Rattle.std.specs.Prelude.{◌≡◌, ◌++◌, ◌∷◌, [], List};
ghost use base.Fml.{ftrue};
ghost use Rattle.lru_clock.specs.declared.order.Looked.{Looked as Looked_};

use crate::order::Looked;
use std::marker::{Model, PhantomData};

/// The looks that a call made, in order. It has no bytes, and only `Store::look` adds to it.
#[derive(Drop)]
pub struct Looks {
    mark: PhantomData<()>,
    pub ghost made: { List Looked_ },
}

impl Model for Looks {
    ghost also_owns = { λ _. ftrue };
}

impl Looks {
    /// Creates an empty list.
    pub fn new() -> Self
        ensures { result.made ≡ [] }
    {
        Looks { mark: PhantomData }
    }

    // Returns the list with one look more.
    pub(super) fn with(&self, look: &Looked) -> Self
        ensures { result.made ≡ self.now.made ++ look.now ∷ [] }
    {
        // Only the contract uses it.
        let _ = look;
        Looks { mark: PhantomData }
    }
}
