//! The calls that take a `Past`, with which a caller finds nothing from before its invalidations.
ghost use Rattle.std.specs.Prelude.{◌≡◌, ◌≢◌, None, IfOk, IfErr, IfSome};
ghost use mathlib.Core.List.{IsPrefix};
ghost use Rattle.lru_clock.specs.Hits.{HasArrived, IsFresh};
ghost use Rattle.lru_clock.specs.Shards.{IsBookOf, IsEvidenceOf};

use crate::clock::{Cache, CacheHandle, Invalidated};
use crate::history::past::Past;
use concurrent_lru::fit::Fit;
use concurrent_lru::sharded::Refusal;
use std::hash::{BuildHasher, Hash};
use std::sync::Wait;

impl<K: Hash + Eq + Clone + Drop, V: Drop, R: Wait, S: BuildHasher, F: Fit<K, V>> Cache<
    K,
    V,
    R,
    S,
    F,
> {
    /// Returns a new past of the key's shard, which has seen what is there now. Until the first
    /// `invalidate_since` with it, `find_since` finds what `find` would, except as it says of very
    /// long makings. Takes no memory.
    pub fn past(&self, key: &K) -> Past<K, V>
        ensures book { IsBookOf S.BuildHasher S.Hasher.Hasher K.hash_input self.now key.now
            result.book }
    {
        let (shard, _) = self.route(key);
        shard.past()
    }

    /// `find`, limited to values that were inserted, or whose making began, after the last
    /// `invalidate_since` with this past.
    ///
    /// So an entry that this past had seen before that call is not found again: one that was found
    /// with it, or that it has learned of by `Past::learn`. A hit extends the prefix of the history
    /// that the past has seen, and the entry is in the cache at the end of that prefix. A copy of a
    /// past begins with what the past has seen by then. Reads one more word than `find`. Does not
    /// find a value if two billion makings and insertions came to its shard while it was made.
    ///
    /// Returns `Overflow` as `get` does.
    #[inline(always)]
    pub fn find_since(
        &self,
        key: &K,
        past: &mut Past<K, V>,
    ) -> Result<Option<CacheHandle<'_, K, V, R, F>>, Refusal>
        requires book { IsBookOf S.BuildHasher S.Hasher.Hasher K.hash_input self.now key.now
            past.old.book }
        ensures key { IfOk result (λ found. IfSome found (λ h. h.key ≡ key.now)) }
        ensures charge { IfOk result (λ found. IfSome found (λ h. h.charge ≡ None)) }
        ensures fits { IfOk result (λ found. IfSome found (λ h. F.fits key.now h.value)) }
        ensures never_stale { IfErr result (λ e. e ≢ Refusal.Stale) }
        ensures book { past.new.book ≡ past.old.book }
        ensures same_book { IfOk result (λ found. IfSome found (λ h. h.book ≡ past.old.book)) }
        ensures since { past.new.since ≡ past.old.since }
        ensures later { IsPrefix past.old.seen past.new.seen }
        ensures come { IfOk result (λ found. IfSome found
            (λ h. IsFresh K.eq past.old.since past.new.seen key.now h.value)) }
    {
        let (shard, tag) = self.route(key);
        match shard.pin(&self.rt, tag, key, &Some(past.again()))? {
            Some(found) => {
                *past = past.after(found.pin.seen());
                Ok(Some(CacheHandle::new(&self.rt, shard, found, None)))
            }
            None => Ok(None),
        }
    }

    /// `invalidate`, after which `find_since` with this past returns only values that are inserted,
    /// or whose making begins, later, for every key of the shard: the new `since` is the prefix of
    /// the history after which the key was invalidated, and extends all that the past had seen.
    ///
    /// Returns evidence for clauses that it did, which may be dropped.
    pub fn invalidate_since(&self, key: &K, past: &mut Past<K, V>) -> Invalidated<K, V>
        requires book { IsBookOf S.BuildHasher S.Hasher.Hasher K.hash_input self.now key.now
            past.old.book }
        ensures evidence { IsEvidenceOf S.BuildHasher S.Hasher.Hasher K.hash_input self.now key.now
            result }
        ensures book { past.new.book ≡ past.old.book }
        ensures later { IsPrefix past.old.seen past.new.since }
        ensures since { result.since ≡ past.new.since }
    {
        let (shard, tag) = self.route(key);
        shard.invalidate_since(&self.rt, tag, key, past)
    }
}

impl<K: Hash + Eq + Clone, V> Past<K, V> {
    /// From now on, the past has also seen the entry of a handle, whatever call returned the
    /// handle. So after an `invalidate_since` with this past, `find_since` with it does not return
    /// that entry. Has no effect at run time.
    pub fn learn<R: Wait, F: Fit<K, V>>(&mut self, handle: &CacheHandle<'_, K, V, R, F>)
        requires book { handle.now.book ≡ self.old.book }
        ensures book { self.new.book ≡ self.old.book }
        ensures since { self.new.since ≡ self.old.since }
        ensures later { IsPrefix self.old.seen self.new.seen }
        ensures learned { IsPrefix handle.now.log self.new.seen }
        ensures arrived { HasArrived K.eq handle.now.log handle.now.key handle.now.value }
    {
        let mut seen = self.seen();
        seen.learn(&handle.seen());
        *self = self.after(seen);
    }
}
