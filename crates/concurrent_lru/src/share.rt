//! How an entry stores its value, of which each pin gets a share.
ghost use Rattle.std.specs.Prelude.{◌≡◌, IfOk};
ghost use Rattle.std.specs.Arc.{arc_value};

use std::alloc::AllocError;
use std::fmt;
use std::marker::{Model, PhantomData};
use std::sync::Arc;

/// How values of type `V` are shared. It is a parameter of a cache: an entry stores a share of its
/// value, and each pin of the entry gets another.
pub trait Sharing<V>: Sized {
    /// A share of a value.
    type Share;

    // The value of a share.
    ghost seen: { Self.Share → V };

    /// Returns another share of the same value. Returns `AllocError` if it is refused.
    fn share(share: &Self::Share) -> Result<Self::Share, AllocError>
    where
        V: Drop,
        ensures { IfOk result (λ other. seen other ≡ seen share.now) };

    /// Returns the value of a share.
    fn value(share: &Self::Share) -> &V
        ensures { result.now ≡ seen share.now };

    /// Drops a share.
    fn end(share: Self::Share)
    where
        V: Drop;
}

/// A share is an `Arc`, an owner of the value. Counting the owners takes two atomic instructions a
/// pin. A share takes no memory, and is refused only if the count of owners is full.
#[derive(Debug, Drop, PartialEq, Eq)]
pub struct ByArc {}

impl<V> Sharing<V> for ByArc {
    type Share = Arc<V>;

    ghost seen = { λ a. arc_value a };

    fn share(share: &Arc<V>) -> Result<Arc<V>, AllocError>
    where
        V: Drop,
    {
        share.clone()
    }

    fn value(share: &Arc<V>) -> &V {
        &**share
    }

    // Most values are not shared, and then the count of owners is not written.
    fn end(share: Arc<V>)
    where
        V: Drop,
    {
        drop(Arc::try_unwrap(share));
    }
}

/// A share is a copy of the value. It takes no memory besides the entry, and is never refused.
#[derive(Debug, Drop, PartialEq, Eq)]
pub struct ByCopy {}

impl<V: Copy> Sharing<V> for ByCopy {
    type Share = V;

    ghost seen = { λ v. v };

    fn share(share: &V) -> Result<V, AllocError>
    where
        V: Drop,
    {
        Ok(*share)
    }

    fn value(share: &V) -> &V {
        share
    }

    fn end(share: V)
    where
        V: Drop,
    {
        drop(share);
    }
}

/// A share in the node of an entry. Clauses see the value.
pub struct Stored<V, M: Sharing<V>> {
    share: M::Share,
    values: PhantomData<V>,
}

impl<V, M: Sharing<V>> Model for Stored<V, M> {
    ghost Value = { V };

    ghost coded = { V.code };

    ghost view = { λ s. M.seen s.share };
}

impl<V: Drop, M: Sharing<V>> Drop for Stored<V, M> {
    #[inline(always)]
    fn drop(self) {
        let Stored { share, values: _ } = self;
        M::end(share);
    }
}

impl<V, M: Sharing<V>> Stored<V, M> {
    /// Stores a share.
    #[inline(always)]
    pub fn new(share: M::Share) -> Stored<V, M>
        ensures { result ≡ M.seen share }
    {
        Stored {
            share,
            values: PhantomData,
        }
    }

    /// Returns the share.
    #[inline(always)]
    pub fn into_share(self) -> M::Share
        ensures { M.seen result ≡ self }
    {
        let Stored { share, values: _ } = self;
        share
    }

    /// Returns the value.
    #[inline(always)]
    pub fn value(&self) -> &V
        ensures { result.now ≡ self.now }
    {
        M::value(&self.share)
    }
}

impl<V: Drop, M: Sharing<V>> Stored<V, M> {
    /// Returns another share. Returns `AllocError` if it is refused.
    #[inline(always)]
    pub fn share(&self) -> Result<M::Share, AllocError>
        ensures { IfOk result (λ other. M.seen other ≡ self.now) }
    {
        M::share(&self.share)
    }
}

impl<V: PartialEq, M: Sharing<V>> PartialEq for Stored<V, M> {
    ghost eq = { V.eq };

    ghost laws = { V.laws };

    fn eq(&self, other: &Self) -> bool {
        *self.value() == *other.value()
    }
}

impl<V: Eq, M: Sharing<V>> Eq for Stored<V, M> {
    ghost laws = { V.Eq.laws };
}

// Prints as the value does.
impl<V: fmt::Debug, M: Sharing<V>> fmt::Debug for Stored<V, M> {
    fn fmt<W: fmt::Write>(&self, f: &mut fmt::Formatter<W>) -> fmt::Result {
        self.value().fmt(f)
    }
}
