//! The counts of a run, for plans of the tests' own.

use crate::assertions::{assert_equal, assert_equal_at};
use lru_support::stress::plan::Plan;
use lru_support::stress::run::run;

// The seed, the capacity of each cache, the numbers of makings, hits and evictions of one worker
// that makes 2,000 calls, and the greatest total, as the rules of the cache imply them.
const ALONE: [(u64, u64, [u64; 3], u128); 4] = [
    (1, 100, [3504, 2496, 1754], 100),
    (1, 40, [4947, 1053, 2544], 40),
    (2, 100, [3753, 2247, 1882], 100),
    (2, 40, [5070, 930, 2652], 40),
];

fn plan_of(seed: u64, workers: u16, calls: u32) -> Plan {
    let mut plan = Plan::new(seed);
    plan.workers = workers;
    plan.calls = calls;
    plan.looks = true;
    plan
}

#[test]
fn counts_what_one_worker_does(rt: HostRuntime) {
    for (seed, capacity, wanted, greatest) in ALONE {
        let mut plan = plan_of(seed, 1, 2_000);
        plan.lock_capacity = capacity;
        plan.shards_capacity = capacity;
        plan.shards = 1;
        let counts = run(&rt, rt.alloc(), &plan).expect(&rt, "ok");
        assert_equal_at(
            &rt,
            [counts.makings, counts.hits, counts.evictions],
            wanted,
            (capacity, "from", seed),
        );
        assert_equal(&rt, (counts.meetings, counts.greatest), (0, greatest));
    }
}

#[test]
fn each_call_is_a_hit_or_a_making(rt: HostRuntime) {
    let mut plan = plan_of(3, 5, 1_001);
    plan.yields = 1;
    let counts = run(&rt, rt.alloc(), &plan).expect(&rt, "ok");
    assert_equal(&rt, counts.makings.wrapping_add(counts.hits), 15_015);
    assert!(rt; counts.meetings <= counts.hits);
}

#[test]
fn a_clock_takes_part_if_the_plan_says_so(rt: HostRuntime) {
    let mut plan = plan_of(3, 5, 1_001);
    plan.has_clock = true;
    let counts = run(&rt, rt.alloc(), &plan).expect(&rt, "ok");
    assert_equal(&rt, counts.makings.wrapping_add(counts.hits), 20_020);
}

#[test]
fn keys_go_to_several_shards(rt: HostRuntime) {
    let mut plan = plan_of(1, 1, 2_000);
    // So that the greatest total is that of the shards: one of them keeps 8, and 4 while it is
    // read.
    plan.lock_capacity = 1;
    let counts = run(&rt, rt.alloc(), &plan).expect(&rt, "ok");
    assert!(rt; counts.greatest > 12, "{}", counts.greatest);
}
