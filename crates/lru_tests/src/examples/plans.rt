//! Compiled queries by their text, looked up by reference, so that a hit copies no text.

use concurrent_lru::unsharded::{CacheHandle, GetError, LruCache};
use std::alloc::Global;
use std::hash::{BuildHasher, RandomState};
use std::sync::Wait;
use std::test::Fail;

/// A compiled query: the number of rows that it asks for.
#[derive(Drop)]
struct Plan {
    limit: u64,
}

/// Why a query has no plan.
#[derive(Debug, Drop, PartialEq, Eq)]
enum Unplanned {
    /// It has no limit.
    NoLimit,
    /// Its limit is not a number.
    NotANumber,
}

fn compile(query: &String) -> Result<Plan, Unplanned> {
    let Some((_, limit)) = query.split_once(" limit ") else {
        return Err(Unplanned::NoLimit);
    };
    match limit.parse() {
        Ok(limit) => Ok(Plan { limit }),
        Err(_) => Err(Unplanned::NotANumber),
    }
}

// The charge of a plan is the length of its query, or 1 for an empty query.
fn plan_of<'a, R: Wait>(
    plans: &'a LruCache<String, Plan, R>,
    query: &String,
) -> Result<CacheHandle<'a, String, Plan, R>, GetError<Unplanned>> {
    let charge = (query.len() as u64).max(1);
    plans.get_or_try_init_by(query, charge, |query| compile(query))
}

#[test]
fn plans_are_found_by_their_query(rt: HostRuntime) -> Result<(), Fail> {
    // The texts come from outside, so the keys are hashed with a seed that nobody can foresee.
    let seed = RandomState::new(&rt)?.hash_one(&0);
    let plans = LruCache::with_seed(rt.alloc(), &rt, 1_000, seed);
    let query = String::from_str(rt.alloc(), "select name limit 10")?;
    assert_eq!(rt; plan_of(&plans, &query)?.limit, 10);
    // The second lookup is a hit, and copies no text.
    assert_eq!(rt; plans.read(&query, |plan| plan.limit)?, Some(10));
    assert_eq!(rt; plans.total_charge(), 20);

    // A query that does not compile leaves nothing behind.
    let wrong = String::from_str(rt.alloc(), "select name")?;
    let error = plan_of(&plans, &wrong).err();
    assert!(rt; matches!(&error, Some(GetError::Init(Unplanned::NoLimit))));
    assert_eq!(rt; plans.len(), 1);
    Ok(())
}
