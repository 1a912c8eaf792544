//! The first calls of workers, as Rust's generator draws them.

use crate::assertions::assert_equal_at;
use lru_support::calls::Calls;
use lru_support::stress::plan::KEYS;

const SEED: u64 = 1;

// The number of a worker, and the key, the charge and the failure of each of its calls.
const DRAWN: [(u64, [(u64, u64, bool); 4]); 2] = [
    (
        0,
        [
            (87, 2, false),
            (70, 1, false),
            (23, 2, false),
            (42, 2, false),
        ],
    ),
    (
        2,
        [
            (90, 2, false),
            (80, 1, false),
            (74, 2, false),
            (18, 1, false),
        ],
    ),
];

#[test]
fn draws_the_calls_of_a_worker(rt: HostRuntime) {
    for (worker, drawn) in DRAWN {
        let mut calls = Calls::of_worker(SEED, worker);
        for expected in drawn {
            let call = calls.draw(KEYS);
            assert_equal_at(
                &rt,
                (call.key, call.charge, call.fails),
                expected,
                ("of worker", worker),
            );
        }
    }
}
