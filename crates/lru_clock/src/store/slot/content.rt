//! What a slot holds.
ghost use Rattle.std.specs.Prelude.{◌≡◌, IfSome};
ghost use Rattle.lru_clock.specs.Contents.{IsContentOf, IsOfValue};
ghost use Rattle.lru_clock.specs.Hits.{HasArrived, Sees};

use crate::history::past::{Arrival, Past};
use crate::history::track::Track;
use crate::history::{Count, Log};
use crate::store::slot::Kept;
use concurrent_lru::fit::Fit;
use concurrent_lru::shown::Shown;
use lru_slot::Fits;

/// Nothing, or an entry, and how it came to the slot.
///
/// The age of the entry's making lies beside the tag of the enum, where it takes no room. In the
/// arrival it would take 8 bytes.
#[derive(Drop)]
pub(super) enum Content<K: Eq, V, F: Fit<K, V>> {
    Empty,
    Entry {
        age: u32,
        kept: Kept<K, V, F>,
        arrival: Arrival<K, V>,
    },
}

impl<K: Eq, V, F: Fit<K, V>> Fits for Content<K, V, F> {
    ghost use Rattle.lru_clock.specs.Contents.{IsContentOf};

    // The counter of the slot in the history.
    type Tag = Count<K, V>;

    ghost fits = { λ word content. IsContentOf F.fits word content };
}

impl<K: Eq, V, F: Fit<K, V>> Content<K, V, F> {
    /// Returns the entry that was in a slot.
    pub(super) fn into_kept(self) -> Option<Kept<K, V, F>>
    where
        K: Drop,
        V: Drop,
    {
        match self {
            Content::Entry { kept, .. } => Some(kept),
            Content::Empty => None,
        }
    }

    /// Shows the value, with a prefix of the history, if the entry has this key. With a past, its
    /// making must also have begun after `since`, and the entry still be in its slot at the end of
    /// the prefix.
    #[inline(always)]
    pub(super) fn confirm(
        &self,
        key: &K,
        track: &Track<K, V>,
        past: &Option<Past<K, V>>,
    ) -> Option<(Shown<V>, Log<K, V>)>
        requires content { IsContentOf F.fits track.now.word self.now }
        requires book { IfSome past.now (λ p. p.book ≡ track.now.word.book) }
        ensures value { IfSome result (λ found. IsOfValue self.now found.0.value) }
        ensures fits { IfSome result (λ found. F.fits key.now found.0.value) }
        ensures book { IfSome result (λ found. found.1.book ≡ track.now.word.book) }
        ensures arrived { IfSome result
            (λ found. HasArrived K.eq found.1.log key.now found.0.value) }
        ensures since { IfSome past.now (λ past. IfSome result (λ found. Sees K.eq past key.now
            found.0.value found.1.book found.1.log)) }
    {
        let Content::Entry { age, kept, arrival } = self else {
            return None;
        };
        if kept.key == *key {
            let seen = arrival.confirm(*age, track, past)?;
            return Some((Shown::of(&kept.value), seen));
        }
        None
    }
}
