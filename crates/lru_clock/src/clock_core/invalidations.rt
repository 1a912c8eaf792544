//! The invalidation of a key, and the evidence that it has taken place.
ghost use Rattle.std.specs.Prelude.{◌≡◌, false, Some, IfSome};
ghost use Rattle.std.specs.List.{list_any};
ghost use mathlib.Core.List.{IsPrefix};
ghost use Rattle.lru_clock.specs.Makings.{is_of};
ghost use Rattle.lru_clock.specs.Seats.{LacksKey};

use crate::clock_core::Core;
use crate::history::Log;
use crate::history::past::Past;
use crate::shard_state::ShardState;
use crate::store::Left;
use concurrent_lru::fit::Fit;
use concurrent_lru::shown::Shown;
use std::marker::Model;

/// Evidence that a key was invalidated: that its entry is gone from the index of its shard, and
/// that a value which was being made for it is for its maker alone. It takes no memory, and may be
/// dropped.
///
/// Clauses see the key, the tag of its hash, the `book` of the shard's history, and the prefix of
/// that history after which the invalidation took place (`since`). Only `Core::invalidate` and
/// `Core::invalidate_since` create one.
#[derive(Drop)]
pub struct Invalidated<K, V> {
    key: Shown<K>,
    tag: Shown<u32>,
    since: Log<K, V>,
}

impl<K, V> Model for Invalidated<K, V> {
    ghost use Rattle.lru_clock.specs.Pins.{InvalidatedOf};

    ghost Value = { InvalidatedOf K V };

    ghost view = { λ i. record {
      key = i.key.value;
      tag = i.tag.value;
      book = i.since.book;
      since = i.since.log;
    } };
}

impl<K: Eq + Clone + Drop, V: Drop, F: Fit<K, V>> Core<K, V, F> {
    /// Invalidates the key's entry and the making of its value. Removes the entry if nobody has
    /// pinned it.
    pub fn invalidate(
        &self,
        state: &mut ShardState<K>,
        tag: u32,
        key: &K,
    ) -> (Option<Left<'_, K, V, F>>, Invalidated<K, V>)
        ensures left { IfSome result.0 (λ l. l ≡ Some self.now.store.chronicle.first.book) }
        ensures gone { LacksKey K.eq state.new.seats tag key.now }
        ensures unmade { list_any (is_of K.eq key.now) state.new.makings ≡ false }
        ensures key { (result.1.key ≡ key.now) × (result.1.tag ≡ tag) }
        ensures book { result.1.book ≡ self.now.store.chronicle.first.book }
    {
        self.invalidate_since(state, tag, key, &mut self.store.past())
    }

    /// `invalidate`, which moves `past.since` to this call.
    pub fn invalidate_since(
        &self,
        state: &mut ShardState<K>,
        tag: u32,
        key: &K,
        past: &mut Past<K, V>,
    ) -> (Option<Left<'_, K, V, F>>, Invalidated<K, V>)
        requires book { past.old.book ≡ self.now.store.chronicle.first.book }
        ensures left { IfSome result.0 (λ l. l ≡ Some self.now.store.chronicle.first.book) }
        ensures gone { LacksKey K.eq state.new.seats tag key.now }
        ensures unmade { list_any (is_of K.eq key.now) state.new.makings ≡ false }
        ensures key { (result.1.key ≡ key.now) × (result.1.tag ≡ tag) }
        ensures book { (result.1.book ≡ past.old.book) × (past.new.book ≡ past.old.book) }
        ensures later { IsPrefix past.old.seen past.new.since }
        ensures since { result.1.since ≡ past.new.since }
    {
        let left = self.invalidate_entry(state, tag, key);
        state.makings.invalidate(key);
        *past = self.store.chronicle.renew(past);
        let invalidated = Invalidated {
            key: Shown::of(key),
            tag: Shown::of(&tag),
            since: past.since(),
        };
        (left, invalidated)
    }
}
