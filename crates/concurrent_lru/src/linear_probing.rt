//! Linear probing: a search visits the buckets of a table in a cycle, beginning at the home of a
//! hash.
ghost use Rattle.std.specs.Prelude.{◌≡◌, ◌<◌};
ghost use Rattle.concurrent_lru.specs.Probing.Cycle.{next_of as next_in, steps, home_of as home_in};

/// Returns the home of a hash among `count` buckets: the bucket at which a search for it begins.
// The number of buckets is a power of two, so the mask keeps each low bit of the hash.
#[inline(always)]
pub fn home_of(count: usize, hash: u64) -> usize
    requires { 0 < count }
    ensures home { result ≡ home_in count hash }
    ensures within { result < count }
{
    hash as usize & (count - 1)
}

/// Returns the bucket after `at`. The first bucket comes after the last.
#[inline(always)]
pub fn next_of(count: usize, at: usize) -> usize
    requires { at < count }
    ensures next { result ≡ next_in count at }
    ensures within { result < count }
{
    let next = at + 1;
    if next < count { next } else { 0 }
}

/// Returns the number of steps forward from one bucket to another.
#[inline(always)]
pub fn steps_between(count: usize, from: usize, to: usize) -> usize
    requires from { from < count }
    requires to { to < count }
    ensures { result ≡ steps count from to }
{
    if to < from {
        count - from + to
    } else {
        to - from
    }
}
