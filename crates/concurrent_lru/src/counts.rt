//! Counts of what the calls of a cache have done.
//!
//! They are plain numbers, kept beside the cache under its lock.
ghost use Rattle.std.specs.Prelude.{◌≡◌, ◌+◌, ◌-◌, ◌<◌, ◌≤◌, ◌^◌};
ghost use Rattle.std.specs.Fmt.{WritesOnOk};
ghost use Rattle.concurrent_lru.specs.Counts.{added, asked_text, counts_from, entries_text, hit_ratio_of, inserted, makings_text, one_failure, one_hit, one_making, one_miss, one_refusal, one_wait, recharged, entries_in, charge_in};

use std::fmt;
use std::num::nearest_u64_to_f64;

/// What the calls of a cache have done since it was created or its counts were last reset.
///
/// A count that reaches the maximum of its type stays there. The counts of a cache behind one lock
/// add up: the entries present when the counting began and those inserted since are the entries
/// present now, those evicted and those removed. The same holds for their charges. In one cache no
/// number in this sum reaches its maximum, because the cache runs out of stamps first.
#[derive(Clone, Copy, Debug, Default, PartialEq, Eq)]
pub struct Counts {
    /// Calls that asked for a value and found it ready.
    pub hits: u64,
    /// Calls that asked for a value that was not ready. A call that waits for a value in the making
    /// is counted in `waits` instead.
    pub misses: u64,
    /// Calls that found the value being made by another caller, and waited for it.
    pub waits: u64,
    /// Calls that asked for a value, or inserted one, and were refused: with `Memory`, `Overflow`
    /// or `Full`.
    pub refusals: u64,
    /// Makings started: how often a caller was asked to make a value.
    pub makings: u64,
    /// Makings that failed: `init` returned an error, or there was no memory for the value.
    pub failures: u64,
    /// Entries inserted.
    pub insertions: u64,
    /// Entries evicted.
    pub evictions: u64,
    /// Entries removed because their making failed and no caller was waiting for them.
    pub removals: u64,
    /// Entries present when the counting began.
    pub entries_before: u64,
    /// The sum of the charges of the entries inserted. A charge that a loader told with its value
    /// takes the place of the one with which its making was begun.
    pub inserted_charge: u128,
    /// The sum of the charges of the entries evicted.
    pub evicted_charge: u128,
    /// The sum of the charges of the entries removed.
    pub removed_charge: u128,
    /// The sum of the charges of the entries present when the counting began. If the loader of one
    /// that was being made then told less than its making was begun with, and those inserted since
    /// have less than the difference, the rest is taken from here.
    pub charge_before: u128,
}

impl Counts {
    // Starts counting at a cache with `entries` entries whose charges sum to `charge`.
    pub(crate) fn from(entries: u64, charge: u64) -> Self
        ensures { result ≡ counts_from entries charge }
    {
        Counts {
            hits: 0,
            misses: 0,
            waits: 0,
            refusals: 0,
            makings: 0,
            failures: 0,
            insertions: 0,
            evictions: 0,
            removals: 0,
            entries_before: entries,
            inserted_charge: 0,
            evicted_charge: 0,
            removed_charge: 0,
            charge_before: u128::from(charge),
        }
    }

    /// Returns the hit ratio: `hits` divided by the sum of `hits` and `misses`, each as the nearest
    /// `f64`. Returns `None` if both are 0. Calls that waited or were refused do not count.
    pub fn hit_ratio(&self) -> Option<f64>
        ensures { result ≡ hit_ratio_of self.now }
    {
        let asked = self.hits.saturating_add(self.misses);
        if asked == 0 {
            return None;
        }
        Some(nearest_u64_to_f64(self.hits) / nearest_u64_to_f64(asked))
    }

    /// Returns the sums of these counts and those of another cache, one by one. A sum saturates at
    /// the maximum of its type.
    pub fn saturating_add(self, other: Counts) -> Counts
        ensures { result ≡ added self other }
    {
        Counts {
            hits: self.hits.saturating_add(other.hits),
            misses: self.misses.saturating_add(other.misses),
            waits: self.waits.saturating_add(other.waits),
            refusals: self.refusals.saturating_add(other.refusals),
            makings: self.makings.saturating_add(other.makings),
            failures: self.failures.saturating_add(other.failures),
            insertions: self.insertions.saturating_add(other.insertions),
            evictions: self.evictions.saturating_add(other.evictions),
            removals: self.removals.saturating_add(other.removals),
            entries_before: self.entries_before.saturating_add(other.entries_before),
            inserted_charge: self.inserted_charge.saturating_add(other.inserted_charge),
            evicted_charge: self.evicted_charge.saturating_add(other.evicted_charge),
            removed_charge: self.removed_charge.saturating_add(other.removed_charge),
            charge_before: self.charge_before.saturating_add(other.charge_before),
        }
    }

    #[inline(always)]
    pub(crate) fn hit(&mut self)
        ensures { self.new ≡ one_hit self.old }
    {
        self.hits = self.hits.saturating_add(1);
    }

    #[inline(always)]
    pub(crate) fn miss(&mut self)
        ensures { self.new ≡ one_miss self.old }
    {
        self.misses = self.misses.saturating_add(1);
    }

    pub(crate) fn wait(&mut self)
        ensures { self.new ≡ one_wait self.old }
    {
        self.waits = self.waits.saturating_add(1);
    }

    pub(crate) fn refuse(&mut self)
        ensures { self.new ≡ one_refusal self.old }
    {
        self.refusals = self.refusals.saturating_add(1);
    }

    pub(crate) fn make(&mut self)
        ensures { self.new ≡ one_making self.old }
    {
        self.makings = self.makings.saturating_add(1);
    }

    pub(crate) fn fail(&mut self)
        ensures { self.new ≡ one_failure self.old }
    {
        self.failures = self.failures.saturating_add(1);
    }

    // Counts an inserted entry of this charge.
    pub(crate) fn insert(&mut self, charge: u64)
        requires entries { self.old.insertions + 1 < 2 ^ 64 }
        requires charge { self.old.inserted_charge + charge < 2 ^ 128 }
        ensures { self.new ≡ inserted charge self.old }
    {
        self.insertions += 1;
        self.inserted_charge += u128::from(charge);
    }

    // Counts that the charge of an entry, which was `was`, became `charge`. As far as the entries
    // inserted since the counting began have so much, it is one of theirs.
    pub(crate) fn recharge(&mut self, was: u64, charge: u64)
        requires fits { self.old.inserted_charge + charge < 2 ^ 128 }
        requires counted { was ≤ charge_in self.old }
        ensures { self.new ≡ recharged was charge self.old }
    {
        let was = u128::from(was);
        let inserted = self.inserted_charge + u128::from(charge);
        self.inserted_charge = inserted.saturating_sub(was);
        self.charge_before -= was.saturating_sub(inserted);
    }

    // Counts evictions that left `entries` entries of `charge`. Whatever came and is neither left
    // nor removed has been evicted.
    pub(crate) fn evict(&mut self, entries: u64, charge: u64)
        requires entries { entries + self.old.removals ≤ entries_in self.old }
        requires entries_fit { entries_in self.old < 2 ^ 64 }
        requires charge { charge + self.old.removed_charge ≤ charge_in self.old }
        requires charge_fits { charge_in self.old < 2 ^ 128 }
        ensures { self.new ≡ record self.old {
          evictions = entries_in self.old - self.old.removals - entries;
          evicted_charge = charge_in self.old - self.old.removed_charge - charge;
        } }
    {
        self.evictions = self.entries_before + self.insertions - self.removals - entries;
        self.evicted_charge = self.charge_before + self.inserted_charge
            - self.removed_charge
            - u128::from(charge);
    }

    // Counts a removed entry that left `charge`. All charge that came and is neither left nor
    // evicted has been removed.
    pub(crate) fn remove(&mut self, charge: u64)
        requires entries { self.old.removals + 1 < 2 ^ 64 }
        requires charge { charge + self.old.evicted_charge ≤ charge_in self.old }
        requires charge_fits { charge_in self.old < 2 ^ 128 }
        ensures { self.new ≡ record self.old {
          removals = self.old.removals + 1;
          removed_charge = charge_in self.old - self.old.evicted_charge - charge;
        } }
    {
        self.removals += 1;
        self.removed_charge = self.charge_before + self.inserted_charge
            - self.evicted_charge
            - u128::from(charge);
    }
}

// Prints all counts in one line.
impl fmt::Display for Counts {
    ghost use Rattle.std.specs.Prelude.{Some};
    ghost use Rattle.concurrent_lru.specs.Counts.{counts_text};

    ghost output = { λ n. Some (counts_text n) };

    fn fmt<W: fmt::Write>(&self, f: &mut fmt::Formatter<W>) -> fmt::Result {
        write_asked(self, f)?;
        write_makings(self, f)?;
        write_entries("inserted", self.insertions, self.inserted_charge, f)?;
        write_entries("evicted", self.evictions, self.evicted_charge, f)?;
        write_entries("removed", self.removals, self.removed_charge, f)?;
        write_entries("before", self.entries_before, self.charge_before, f)
    }
}

// Writes what the calls that asked for a value found.
fn write_asked<W: fmt::Write>(n: &Counts, f: &mut fmt::Formatter<W>) -> fmt::Result
    ensures { WritesOnOk W.write_str_gives f.old result (asked_text n.now) f.new }
{
    write!(f, "hits {}, misses {}, waits {}", n.hits, n.misses, n.waits)
}

// Writes the refusals and the makings.
fn write_makings<W: fmt::Write>(n: &Counts, f: &mut fmt::Formatter<W>) -> fmt::Result
    ensures { WritesOnOk W.write_str_gives f.old result (makings_text n.now) f.new }
{
    write!(
        f,
        ", refusals {}, makings {}, failures {}",
        n.refusals, n.makings, n.failures
    )
}

// Writes the number of entries of one kind and the sum of their charges.
fn write_entries<W: fmt::Write>(
    kind: &str,
    entries: u64,
    charge: u128,
    f: &mut fmt::Formatter<W>,
) -> fmt::Result
    ensures { WritesOnOk W.write_str_gives f.old result (entries_text kind.now entries charge)
        f.new }
{
    write!(f, ", {kind} {entries} of charge {charge}")
}
