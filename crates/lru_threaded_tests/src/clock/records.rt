//! An example of pasts: a bank, and a cache of its balances. Whoever deposits into an account never
//! reads a balance from before the deposit, whatever others do.
ghost use Rattle.std.specs.Prelude.{◌≡◌, ◌<◌};
ghost use Rattle.std.specs.Hash as fed;
ghost use Rattle.lru_clock.specs.Shards.{IsBookOf};

use crate::assertions::assert_equal;
use lru_clock::clock::{Cache, Past, Refusal};
use lru_support::hashers::ByOwnNumber;
use std::alloc::Global;
use std::hash::BuildHasher;
use std::sync::atomic::AtomicU64;
use std::sync::atomic::Ordering::SeqCst;
use std::sync::{Mutex, Wait};
use std::thread;
use std::thread::Threads;

/// The bank: a store with the balance of each account.
#[derive(Drop)]
struct Bank<R: Wait> {
    rt: R,
    balances: Mutex<[u64; 2]>,
}

impl<R: Wait> Bank<R> {
    fn balance(&self, account: u64) -> u64 {
        let balances = self.balances.lock(&self.rt);
        balances[(account % 2) as usize]
    }

    /// Adds one to the balance of an account, and returns it.
    fn deposit(&self, account: u64) -> u64 {
        let mut balances = self.balances.lock(&self.rt);
        let balance = &mut balances[(account % 2) as usize];
        *balance = balance.wrapping_add(1);
        *balance
    }
}

/// Returns the balance of an account: from the cache, if the bank was asked for it after the last
/// invalidation with this past, and otherwise from the bank, which one caller asks for all.
fn balance<R: Wait, S: BuildHasher>(
    cache: &Cache<u64, u64, R, S>,
    bank: &Bank<R>,
    account: u64,
    past: &mut Past<u64, u64>,
) -> Result<u64, Refusal>
    requires { IsBookOf S.BuildHasher S.Hasher.Hasher fed.u64 cache.now account past.old.book }
    ensures { past.new.book ≡ past.old.book }
{
    if let Some(handle) = cache.find_since(&account, past)? {
        return Ok(*handle);
    }
    let handle = cache.get_or_init(account, 1, |account| bank.balance(*account))?;
    // This past will not find this balance again after its next invalidation.
    past.learn(&handle);
    Ok(*handle)
}

/// Deposits twice, and reads the balance after each. Returns whether neither read was of a balance
/// from before the deposit.
fn sees_its_deposits<R: Wait, S: BuildHasher>(
    cache: &Cache<u64, u64, R, S>,
    bank: &Bank<R>,
    account: u64,
) -> Result<bool, Refusal> {
    let mut past = cache.past(&account);
    let first = bank.deposit(account);
    cache.invalidate_since(&account, &mut past);
    let after_first = balance(cache, bank, account, &mut past)?;
    let second = bank.deposit(account);
    cache.invalidate_since(&account, &mut past);
    let after_second = balance(cache, bank, account, &mut past)?;
    Ok(after_first >= first && after_second >= second)
}

// Deposits often, and counts the times at which a balance was too old or a call was refused.
fn deposits<R: Wait, S: BuildHasher>(
    cache: &Cache<u64, u64, R, S>,
    bank: &Bank<R>,
    account: u64,
    wrong: &AtomicU64,
) {
    for _ in 0..500u32 {
        if !matches!(sees_its_deposits(cache, bank, account), Ok(true)) {
            wrong.fetch_add(1, SeqCst);
        }
    }
}

// Returns the number of such times of four threads, two for each account, and the balances at the
// end.
fn deposit_at_once<T: Threads + Wait, R: Wait + Send + Sync>(
    rt: &T,
    cache: &Cache<u64, u64, R, ByOwnNumber>,
    bank: &Bank<R>,
) -> (u64, [u64; 2]) {
    let wrong = AtomicU64::new(0);
    let count = &wrong;
    thread::scope(thread::scope_env(), rt, |scope| {
        for number in 0..4u64 {
            let _started = scope.spawn(move || deposits(cache, bank, number % 2, count));
        }
    });
    let left = [bank.balance(0), bank.balance(1)];
    (wrong.load(SeqCst), left)
}

// Does this with a new bank and a new cache.
fn deposit_in_new<T: Threads + Wait, R: Wait + Drop + Send + Sync>(
    rt: &T,
    alloc: Global,
    rights: (R, R),
) -> Option<(u64, [u64; 2])> {
    let cache = Cache::with_shards_hasher(alloc, rights.0, 10, 2, ByOwnNumber).ok()?;
    let bank = Bank {
        rt: rights.1,
        balances: Mutex::new([0, 0]),
    };
    Some(deposit_at_once(rt, &cache, &bank))
}

#[test]
fn depositors_see_their_deposits(rt: HostRuntime) {
    let told = deposit_in_new(&rt, rt.alloc(), (&rt, &rt));
    assert_equal(&rt, told, Some((0, [2_000, 2_000])));
}
