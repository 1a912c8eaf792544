//! The entries of a cache as one value: nodes, lookup of their places by key and by stamp, and the
//! total of the charges. The order of eviction is the only rule of the cache that is decided here;
//! the core decides when entries come and leave.
//!
//! A key is hashed by `Table::find_key`, once in a call of the core, which passes the hash on to
//! the call that adds an entry for the key.
ghost use Rattle.std.specs.Prelude.{◌≡◌, ◌≢◌, ℕ, ◌+◌, ◌<◌, ◌≤◌, ◌^◌, Some, None, [], IsSome, OnOk, OnErr, IfOk, IfErr, IfSome, MatchOption, true, cond, nat_eq};
ghost use Rattle.concurrent_lru.specs.Cache.{count_of, pinned_of, CopiesAreEqual};
ghost use Rattle.std.specs.FinMap as map;
ghost use Rattle.concurrent_lru.specs.NodeTable.{Entry, entry_of, hash_of as hash_in, new_entry, chain_of, phase_of, ContainsNode, LacksIdle, IsNewStamp};
ghost use Rattle.concurrent_lru.specs.Representation.{as_idle, GetsEntry};
ghost use Rattle.concurrent_lru.specs.Entries.{cache_of, charges_of, ContainsNoStamp, ContainsNoKey, IsPlaceOfKey, ContainsPlace, ContainsIdleAt, ContainsHeldAt, ContainsFoundAt, FitsAt, GetsAt, GetsNodeAt, LeadsAt, IsReadyAt, Rewrites, RevivesAt, RestsAt, AddsOverHeld, AddsOverIdle, pins_at, held_with_pins, new_held};
ghost use Rattle.concurrent_lru.specs.KeyHashes.{IsHashOf};
ghost use Rattle.concurrent_lru.specs.Reads.{RenewsAt};
ghost use Rattle.concurrent_lru.specs.StampIndex.{keeps_map, mapped_place, HasRoomFor};
ghost use Rattle.concurrent_lru.specs.Steps.{held_in_phase, held_with_charge, held_detached};

mod key_hashes;
mod removals;
mod spot;
mod stamp_index;
mod walk;
mod word_hasher;

pub use self::key_hashes::{KeyHash, seed_of_shard};
pub use self::spot::{Hint, Spot};
use crate::as_key::AsKey;
use crate::node_table::{At, Found, Node, Nodes, Phase, Place, Refusal};
use crate::table::stamp_index::StampIndex;
use std::alloc::Global;
use std::collections::HashMap;
use std::fmt;
use std::hash::Hash;
use std::marker::Model;

/// The entries of a cache: idle ones, oldest first, and held ones, which may be detached from their
/// keys.
#[derive(Drop)]
pub struct Table<K: Hash + Eq + Clone, V> {
    nodes: Nodes<K, V>,
    by_stamp: StampIndex,
    // The seed with which keys are hashed.
    seed: u64,
    total: u64,
    // The idle entries' part of the total.
    idle_charge: u64,
}

impl<K: Hash + Eq + Clone, V> Model for Table<K, V> {
    ghost use Rattle.concurrent_lru.specs.Entries.{Entries, entries_code};

    ghost Value = { Entries K V };

    ghost coded = { entries_code K.code V.code };

    ghost use Rattle.concurrent_lru.specs.Indexes.{entries_of, IsSoundTable};

    ghost view = { λ a. entries_of a.nodes };

    ghost use Rattle.concurrent_lru.specs.KeyHashes.{key_hash};

    ghost invariant = { λ a. IsSoundTable K.is_clone K.eq (key_hash a.seed K.hash_input) a.nodes
        a.by_stamp a.total a.idle_charge };
}

impl<K: Hash + Eq + Clone, V: Drop> Table<K, V> {
    /// Creates a table with no entries, which hashes keys with a seed and has a map by stamp. Takes
    /// no memory.
    pub fn new(alloc: Global, seed: u64) -> Table<K, V>
        requires { CopiesAreEqual K.is_clone K.eq }
        ensures idle { result.idle ≡ [] }
        ensures held { result.held ≡ map.empty }
        ensures stamps { result.stamps ≡ map.empty }
        ensures work { result.work ≡ 0 }
    {
        Table::with_stamp_index(alloc, seed, StampIndex::Mapped(HashMap::new(alloc)))
    }

    // Creates a table with no entries and no map by stamp: adding or removing an entry costs one
    // write less, but a lookup by stamp visits every node unless its hint leads to the entry. For
    // callers that keep the hints of what they pinned. Takes no memory.
    pub(crate) fn without_stamp_map(alloc: Global, seed: u64) -> Table<K, V>
        requires { CopiesAreEqual K.is_clone K.eq }
        ensures idle { result.idle ≡ [] }
        ensures held { result.held ≡ map.empty }
        ensures stamps { result.stamps ≡ map.empty }
        ensures work { result.work ≡ 0 }
    {
        Table::with_stamp_index(alloc, seed, StampIndex::Unmapped)
    }

    // Creates a table with no entries that finds stamps with `by_stamp`.
    fn with_stamp_index(alloc: Global, seed: u64, by_stamp: StampIndex) -> Table<K, V>
        requires copies { CopiesAreEqual K.is_clone K.eq }
        requires unmapped { (s : ℕ) → mapped_place by_stamp s ≡ None }
        ensures idle { result.idle ≡ [] }
        ensures held { result.held ≡ map.empty }
        ensures stamps { result.stamps ≡ map.empty }
        ensures work { result.work ≡ 0 }
    {
        Table {
            nodes: Nodes::new(alloc),
            by_stamp,
            seed,
            total: 0,
            idle_charge: 0,
        }
    }

    /// Reserves room for a total of `entries` entries, including those present.
    ///
    /// Returns `Memory` if a growth is refused; some room may have been reserved.
    pub fn reserve(&mut self, entries: usize) -> Result<(), Refusal>
        ensures err { IfErr result (λ e. e ≡ Refusal.Memory) }
        ensures same { self.new ≡ self.old }
    {
        let more = entries.saturating_sub(self.nodes.len());
        make_room(&mut self.nodes, &mut self.by_stamp, more)
    }

    /// Returns the number of entries.
    pub fn len(&self) -> usize
        ensures { result ≡ count_of (cache_of self.now) }
    {
        self.nodes.len()
    }

    /// Returns the sum of the charges of all entries.
    pub fn total(&self) -> u64
        ensures { result ≡ charges_of self.now }
    {
        self.total
    }

    /// Returns the sum of the charges of held entries, including detached ones.
    pub fn pinned_charge(&self) -> u64
        ensures { result ≡ pinned_of (cache_of self.now) }
    {
        self.total - self.idle_charge
    }

    /// Returns the node of the entry with this stamp. The lookup begins with the spot's hint; any
    /// hint will do.
    #[inline(always)]
    pub fn find_stamp(&self, spot: &Spot) -> Option<Found<'_, K, V>>
        ensures found { MatchOption result (ContainsNoStamp self.now spot.now.stamp)
            (λ found. map.get self.now.stamps found.place ≡ Some spot.now.stamp) }
        ensures node { IfSome result (λ found. GetsNodeAt self.now found.place found.node.now) }
        ensures link { IfSome result (λ found. LeadsAt self.now found.link found.place) }
    {
        match self.nodes.find_stamp_by_hash(spot.hint.hash, spot.stamp) {
            Some(found) => Some(found),
            None => self.find_stamp_near(spot.hint.place, spot.stamp),
        }
    }

    // Returns the node of the entry with this stamp, which may be detached. The lookup begins at
    // `near`; any place will do.
    #[inline(never)]
    fn find_stamp_near(&self, near: Place, stamp: u64) -> Option<Found<'_, K, V>>
        ensures found { MatchOption result (ContainsNoStamp self.now stamp)
            (λ found. map.get self.now.stamps found.place ≡ Some stamp) }
        ensures node { IfSome result (λ found. GetsNodeAt self.now found.place found.node.now) }
        ensures link { IfSome result (λ found. LeadsAt self.now found.link found.place) }
    {
        if self.nodes.has_stamp(near, stamp) {
            return Some(self.nodes.found(near));
        }
        match self.by_stamp.find(&self.nodes, stamp) {
            Some(place) => Some(self.nodes.found(place)),
            None => None,
        }
    }

    /// Returns the node of the entry with an equal key. If there is none, returns the hash of the
    /// key, with which an entry can be added for it.
    #[inline(always)]
    pub fn find_key<Q: AsKey<K>>(&self, key: Q) -> Result<Found<'_, K, V>, KeyHash>
        ensures found { IfOk result (λ found. IsPlaceOfKey K.eq self.now found.place
            (Q.owned key)) }
        ensures node { IfOk result (λ found. GetsNodeAt self.now found.place found.node.now) }
        ensures link { IfOk result (λ found. LeadsAt self.now found.link found.place) }
        ensures absent { OnErr result (ContainsNoKey K.eq self.now (Q.owned key)) }
        ensures hash { IfErr result (λ hash. IsHashOf K.hash_input hash (Q.owned key)) }
    {
        let hash = KeyHash::of::<K, Q>(self.seed, key);
        match self.nodes.find_key(hash.number, key) {
            Some(found) => Ok(found),
            None => Err(hash),
        }
    }

    /// Adds a new entry, held by one pin, whose value is being made, and returns its place. `hash`
    /// is the hash of the key.
    ///
    /// Returns `Memory` if a copy of the key or a growth is refused; then nothing changes.
    #[inline(never)]
    pub fn add(
        &mut self,
        alloc: Global,
        stamp: u64,
        hash: KeyHash,
        key: &K,
        charge: u64,
    ) -> Result<Place, Refusal>
        requires hash { IsHashOf K.hash_input hash key.now }
        requires absent { ContainsNoKey K.eq self.old key.now }
        requires fresh { ContainsNoStamp self.old stamp }
        requires fits { charges_of self.old + charge < 2 ^ 64 }
        ensures idle { self.new.idle ≡ self.old.idle }
        ensures ok { OnOk result ((copy : K) × (K.eq copy key.now ≡ true)
            × (self.new.held ≡ map.insert self.old.held stamp (new_held copy charge))) }
        ensures err { OnErr result (self.new ≡ self.old) }
        ensures refusal { IfErr result (λ e. e ≡ Refusal.Memory) }
        ensures work { self.new.work ≡ self.old.work }
    {
        let hash = hash.under(self.seed, key);
        let node = new_entry(alloc, stamp, hash, key, charge)?;
        make_room(&mut self.nodes, &mut self.by_stamp, 1)?;
        Ok(put(&mut self.nodes, &mut self.by_stamp, &mut self.total, node))
    }

    /// Adds a new entry, as `add` does, and detaches the held one that the key had. Everything that
    /// can be refused precedes the first change.
    ///
    /// Returns `Memory` as `add` does; then nothing changes.
    pub fn add_over_held(
        &mut self,
        alloc: Global,
        place: Place,
        stamp: u64,
        key: &K,
        charge: u64,
    ) -> Result<Place, Refusal>
        requires held { ContainsFoundAt self.old place }
        requires keyed { (e : Entry K V) → GetsAt self.old place e → K.eq e.key key.now ≡ true }
        requires fresh { ContainsNoStamp self.old stamp }
        requires fits { charges_of self.old + charge < 2 ^ 64 }
        ensures ok { OnOk result (AddsOverHeld K.eq self.old place stamp key.now charge self.new) }
        ensures err { OnErr result (self.new ≡ self.old) }
        ensures refusal { IfErr result (λ e. e ≡ Refusal.Memory) }
    {
        // Equal keys have the same hash.
        let hash = self.nodes.node(place).hash;
        let node = new_entry(alloc, stamp, hash, key, charge)?;
        make_room(&mut self.nodes, &mut self.by_stamp, 1)?;
        self.nodes.set_detached(place);
        Ok(put(&mut self.nodes, &mut self.by_stamp, &mut self.total, node))
    }

    /// Adds a new entry, as `add` does, and removes the idle one that the key had, which is
    /// returned with the place. Everything that can be refused precedes the first change.
    ///
    /// Returns `Memory` as `add` does; then nothing changes.
    pub fn add_over_idle(
        &mut self,
        alloc: Global,
        place: Place,
        stamp: u64,
        key: &K,
        charge: u64,
    ) -> Result<(Box<Node<K, V>>, Place), Refusal>
        requires idle { ContainsIdleAt self.old place }
        requires keyed { (e : Entry K V) → GetsAt self.old place e → K.eq e.key key.now ≡ true }
        requires fresh { ContainsNoStamp self.old stamp }
        requires fits { (e : Entry K V) → GetsAt self.old place e
            → charges_of self.old + charge < 2 ^ 64 + e.charge }
        ensures ready { IfOk result (λ r. IsSome (as_idle (entry_of r.0.value))) }
        ensures alone { IfOk result (λ r. chain_of r.0.value ≡ []) }
        ensures ok { IfOk result (λ r. AddsOverIdle K.eq self.old place (entry_of r.0.value) stamp
            key.now charge self.new) }
        ensures err { OnErr result (self.new ≡ self.old) }
        ensures refusal { IfErr result (λ e. e ≡ Refusal.Memory) }
    {
        // Equal keys have the same hash.
        let hash = self.nodes.node(place).hash;
        let node = new_entry(alloc, stamp, hash, key, charge)?;
        make_room(&mut self.nodes, &mut self.by_stamp, 1)?;
        self.nodes.remove(place);
        let old = take_away(&mut self.nodes, &mut self.by_stamp, &mut self.total, place);
        self.idle_charge -= old.charge;
        let new = put(&mut self.nodes, &mut self.by_stamp, &mut self.total, node);
        Ok((old, new))
    }

    /// Sets the number of pins of a held entry, which stays held. Takes no memory.
    ///
    /// In this call and those below, `link` is the one that a lookup found with the place.
    pub fn set_pins(&mut self, place: Place, link: At<Node<K, V>>, pins: u32)
        requires held { ContainsHeldAt self.old place }
        requires link { LeadsAt self.old link place }
        requires some { 0 < pins }
        ensures { Rewrites (held_with_pins pins) self.old place self.new }
    {
        self.nodes.write_pins(place, link, pins);
    }

    /// Adds a pin to an entry, which has `pins` pins. An idle entry leaves the idle order. Takes no
    /// memory.
    #[inline(always)]
    pub fn pin(&mut self, place: Place, link: At<Node<K, V>>, pins: u32)
        requires place { ContainsPlace self.old place }
        requires link { LeadsAt self.old link place }
        requires pins { pins_at self.old place ≡ pins }
        requires room { pins + 1 < 2 ^ 32 }
        ensures revived { pins ≡ 0 → RevivesAt self.old place self.new }
        ensures held { pins ≢ 0 → Rewrites (held_with_pins (pins + 1)) self.old place self.new }
    {
        let charge = self.nodes.pin(place, link, pins);
        if pins > 0 {
            return;
        }
        self.idle_charge -= charge;
    }

    /// Detaches a held entry from its key: it is then found by its stamp only. Takes no memory.
    pub fn detach(&mut self, place: Place)
        requires { ContainsFoundAt self.old place }
        ensures { Rewrites held_detached self.old place self.new }
    {
        self.nodes.set_detached(place);
    }

    /// Sets the phase of a held entry: its making is handed over, or its value is ready. Takes no
    /// memory.
    pub fn set_phase(&mut self, place: Place, link: At<Node<K, V>>, phase: Phase<V>)
        requires held { ContainsHeldAt self.old place }
        requires link { LeadsAt self.old link place }
        ensures { Rewrites (held_in_phase (phase_of phase)) self.old place self.new }
    {
        self.nodes.write_phase(place, link, phase);
    }

    /// Sets the charge of a held entry. Takes no memory.
    pub fn set_charge(&mut self, place: Place, link: At<Node<K, V>>, charge: u64)
        requires held { ContainsHeldAt self.old place }
        requires link { LeadsAt self.old link place }
        requires fits { FitsAt self.old place charge }
        ensures { Rewrites (held_with_charge charge) self.old place self.new }
    {
        let was = self.nodes.write_charge(place, link, charge);
        self.total = self.total - was + charge;
    }

    /// Removes the pins of a ready entry, which becomes the newest idle one. Takes no memory.
    #[inline(always)]
    pub fn make_idle(&mut self, place: Place, link: At<Node<K, V>>)
        requires ready { IsReadyAt self.old place }
        requires link { LeadsAt self.old link place }
        ensures { RestsAt self.old place self.new }
    {
        let charge = self.nodes.make_idle(place, link);
        self.idle_charge += charge;
    }

    /// Makes an idle entry the newest idle one, as pinning and releasing it does. Takes no memory.
    pub fn renew(&mut self, place: Place, link: At<Node<K, V>>)
        requires idle { ContainsIdleAt self.old place }
        requires link { LeadsAt self.old link place }
        ensures { RenewsAt self.old place self.new }
    {
        self.nodes.renew(place, link);
    }
}

// Creates the node of a new entry.
#[inline(always)]
fn new_entry<K: Hash + Eq + Clone, V: Drop>(
    alloc: Global,
    stamp: u64,
    hash: u64,
    key: &K,
    charge: u64,
) -> Result<Box<Node<K, V>>, Refusal>
    ensures entry { IfOk result (λ n. entry_of n.value
        ≡ new_entry stamp (entry_of n.value).key charge) }
    ensures hash { IfOk result (λ n. hash_in n.value ≡ hash) }
    ensures alone { IfOk result (λ n. chain_of n.value ≡ []) }
    ensures own { IfOk result (λ n. K.is_clone key.now (entry_of n.value).key) }
    ensures refusal { IfErr result (λ e. e ≡ Refusal.Memory) }
{
    let key_copy = key.clone()?;
    let node = Box::new(alloc, Node::new(stamp, hash, key_copy, charge))?;
    Ok(node)
}

// Reserves room for `more` entries besides those present, so that their inserts cannot fail.
fn make_room<K: Drop, V: Drop>(
    nodes: &mut Nodes<K, V>,
    by_stamp: &mut StampIndex,
    more: usize,
) -> Result<(), Refusal>
    ensures ok { OnOk result ((more ≤ nodes.new.spare) × HasRoomFor by_stamp.new more) }
    ensures refusal { IfErr result (λ e. e ≡ Refusal.Memory) }
    ensures nodes { nodes.new.nodes ≡ nodes.old.nodes }
    ensures hashes { nodes.new.hashes ≡ nodes.old.hashes }
    ensures links { nodes.new.links ≡ nodes.old.links }
    ensures idle { nodes.new.idle ≡ nodes.old.idle }
    ensures work { nodes.new.work ≡ nodes.old.work }
    ensures keeps { keeps_map by_stamp.new ≡ keeps_map by_stamp.old }
    ensures by_stamp { (s : ℕ) → mapped_place by_stamp.new s ≡ mapped_place by_stamp.old s }
{
    nodes.reserve(more)?;
    by_stamp.reserve(more)?;
    Ok(())
}

// Inserts a new node and returns its place. There must be room for it.
#[inline(always)]
fn put<K: Drop, V: Drop>(
    nodes: &mut Nodes<K, V>,
    by_stamp: &mut StampIndex,
    total: &mut u64,
    node: Box<Node<K, V>>,
) -> Place
    requires room { 0 < nodes.old.spare }
    requires stamp_room { HasRoomFor by_stamp.old 1 }
    requires alone { chain_of node.value ≡ [] }
    requires fresh { IsNewStamp nodes.old (entry_of node.value).stamp }
    requires fits { total.old + (entry_of node.value).charge < 2 ^ 64 }
    ensures free { map.get nodes.old.nodes result ≡ None }
    ensures nodes { nodes.new.nodes ≡ map.insert nodes.old.nodes result (entry_of node.value) }
    ensures hashes { nodes.new.hashes ≡ map.insert nodes.old.hashes result (hash_in node.value) }
    ensures idle { nodes.new.idle ≡ nodes.old.idle }
    ensures work { nodes.new.work ≡ nodes.old.work }
    ensures keeps { keeps_map by_stamp.new ≡ keeps_map by_stamp.old }
    ensures by_stamp { keeps_map by_stamp.old ≡ true → (s : ℕ) → mapped_place by_stamp.new s
        ≡ cond (nat_eq (entry_of node.value).stamp s) (Some result) (mapped_place by_stamp.old s) }
    ensures total { total.new ≡ total.old + (entry_of node.value).charge }
{
    let stamp = node.stamp;
    let charge = node.charge;
    let place = nodes.insert_reserved(node);
    by_stamp.insert(stamp, place);
    *total += charge;
    place
}

// Removes a node that is not in the idle order, with its stamp and its charge.
fn take_away<K: Drop, V: Drop>(
    nodes: &mut Nodes<K, V>,
    by_stamp: &mut StampIndex,
    total: &mut u64,
    place: Place,
) -> Box<Node<K, V>>
    requires within { ContainsNode nodes.old place }
    requires apart { LacksIdle nodes.old place }
    requires counted { (e : Entry K V) → GetsEntry nodes.old place e → e.charge ≤ total.old }
    ensures entry { GetsEntry nodes.old place (entry_of result.value) }
    ensures alone { chain_of result.value ≡ [] }
    ensures nodes { nodes.new.nodes ≡ map.remove nodes.old.nodes place }
    ensures hashes { nodes.new.hashes ≡ map.remove nodes.old.hashes place }
    ensures idle { nodes.new.idle ≡ nodes.old.idle }
    ensures work { nodes.new.work ≡ nodes.old.work }
    ensures keeps { keeps_map by_stamp.new ≡ keeps_map by_stamp.old }
    ensures by_stamp { keeps_map by_stamp.old ≡ true → (s : ℕ) → mapped_place by_stamp.new s
        ≡ cond (nat_eq (entry_of result.value).stamp s) None (mapped_place by_stamp.old s) }
    ensures room { nodes.old.spare ≤ nodes.new.spare }
    ensures stamp_room { HasRoomFor by_stamp.old 1 → HasRoomFor by_stamp.new 1 }
    ensures total { total.new + (entry_of result.value).charge ≡ total.old }
{
    let node = nodes.take(place);
    by_stamp.remove(node.stamp);
    *total -= node.charge;
    node
}

// Returns the value of a node if it is printed: if it is ready, and the node is not detached.
fn shown<K: Drop, V: Drop>(node: &Node<K, V>) -> Option<&V> {
    match &node.phase {
        Phase::Ready(value) if !node.detached => Some(value),
        _ => None,
    }
}

// Prints the ready entries as a map, in the order of their places. An entry that is being made or
// detached is not shown.
impl<K: Hash + Eq + Clone + fmt::Debug, V: Drop + fmt::Debug> fmt::Debug for Table<K, V> {
    fn fmt<W: fmt::Write>(&self, f: &mut fmt::Formatter<W>) -> fmt::Result {
        let mut map = f.debug_map();
        let end = self.nodes.end_of_places();
        for number in 0..end {
            let place = Place::at(number);
            if self.nodes.contains(place) {
                let node = self.nodes.node(place);
                if let Some(value) = shown(node) {
                    map.entry(&node.key, value);
                }
            }
        }
        map.finish()
    }
}
