//! An example of a loader that may fail: a pool that opens connections on demand, pins two, and
//! closes one to make room.

use crate::assertions::assert_equal;
use concurrent_lru::lru_core::Refusal;
use concurrent_lru::unsharded::{GetError, LruCache};
use std::alloc::Global;
use std::process::Abort;
use std::sync::Wait;

/// Something that is expensive to open.
#[derive(Drop)]
struct Connection {
    port: u64,
}

/// Why there is no connection.
#[derive(Debug, Drop, PartialEq, Eq)]
enum Failure {
    /// The cache has no memory, or a number of it is at its maximum.
    Refused(Refusal),
    /// Nobody listens there.
    Closed(u64),
}

impl From<Refusal> for Failure {
    fn from(refusal: Refusal) -> Failure {
        Failure::Refused(refusal)
    }
}

impl From<GetError<Failure>> for Failure {
    fn from(error: GetError<Failure>) -> Failure {
        match error {
            GetError::Init(failure) => failure,
            GetError::Memory => Failure::Refused(Refusal::Memory),
            GetError::Overflow => Failure::Refused(Refusal::Overflow),
            GetError::Full => Failure::Refused(Refusal::Full),
        }
    }
}

fn open(port: u64) -> Result<Connection, Failure> {
    if port == 0 {
        return Err(Failure::Closed(port));
    }
    Ok(Connection { port })
}

// Holds two connections at the same time, and returns their ports. `R` is the right to wait for the
// pool's lock: only `main` and tests have it, so code that uses a cache is generic in it.
fn web_and_mail<R: Wait>(pool: &LruCache<u64, Connection, R>) -> Result<(u64, u64), Failure> {
    let web = pool.get_or_try_init(80, 1, |port| open(*port))?;
    let mail = pool.get_or_try_init(25, 1, |port| open(*port))?;
    Ok((web.value().port, mail.value().port))
}

// Returns whether a connection is open.
fn is_open<R: Wait>(pool: &LruCache<u64, Connection, R>, port: u64) -> Result<bool, Refusal> {
    Ok(pool.get(port)?.is_some())
}

// Returns whether a connection to the port 0 fails because nobody listens there.
fn is_closed<R: Wait>(pool: &LruCache<u64, Connection, R>) -> bool {
    let closed = pool.get_or_try_init(0, 1, |port| open(*port)).err();
    matches!(&closed, Some(GetError::Init(Failure::Closed(0))))
}

fn opens_on_demand<R: Wait + Abort>(rt: &R, alloc: Global) {
    // Keeps idle connections while at most one is open in all.
    let pool = LruCache::new(alloc, rt, 1);
    assert_equal(rt, web_and_mail(&pool), Ok((80, 25)));
    // In use, both were open; the one that was released first was closed to make room.
    assert_equal(
        rt,
        [is_open(&pool, 25), is_open(&pool, 80)],
        [Ok(false), Ok(true)],
    );
    assert_equal(rt, web_and_mail(&pool), Ok((80, 25)));
    // Room is made before the connection is opened, so one that fails may close another.
    assert_equal(rt, (is_closed(&pool), pool.total_charge()), (true, 0));
}

#[test]
fn a_pool_of_connections(rt: HostRuntime) {
    opens_on_demand(&rt, rt.alloc());
}
