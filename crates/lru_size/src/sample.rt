//! How good an estimate from a sample of the keys is.

use crate::failure::Failure;
use crate::trace::Trace;

/// The minimum number of sampled keys that a curve is estimated from.
pub const LEAST_KEYS: usize = 100;

// On the traces that docs/SIZING.md names, a hit ratio that was estimated from n keys was wrong by
// at most this many percentage points, divided by the square root of n.
const ERROR_OF_ONE_KEY: u64 = 250;

// The error of `LEAST_KEYS` keys, in percentage points.
const GREATEST_ERROR: u64 = 25;

/// Fails with `FewKeys` or `NoReuse` if a trace has a sample that is too small for an estimate. A
/// sample of all keys never is.
pub fn check(trace: &Trace) -> Result<(), Failure> {
    if is_whole(trace) {
        return Ok(());
    }
    if trace.keys() < LEAST_KEYS {
        return Err(Failure::FewKeys {
            keys: trace.keys(),
            wanted: LEAST_KEYS,
        });
    }
    if trace.keys() == trace.uses.len() {
        return Err(Failure::NoReuse);
    }
    Ok(())
}

/// Returns the greatest error that was measured of hit ratios estimated from a sample of this size,
/// in percentage points rounded up, or `None` if the sample has all keys and there is no error.
pub fn measured_error(trace: &Trace) -> Option<u64> {
    if is_whole(trace) {
        return None;
    }
    Some(error_of(trace.keys() as u64))
}

fn is_whole(trace: &Trace) -> bool {
    trace.sample.one_in == 1
}

// Returns the least number whose square times `keys` is at least the square of the error of one
// key. `keys` is at least `LEAST_KEYS`.
fn error_of(keys: u64) -> u64 {
    for points in 1..GREATEST_ERROR {
        if points.saturating_mul(points).saturating_mul(keys)
            >= ERROR_OF_ONE_KEY * ERROR_OF_ONE_KEY
        {
            return points;
        }
    }
    GREATEST_ERROR
}
