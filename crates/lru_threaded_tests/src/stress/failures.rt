//! The line for a failed round.

use crate::assertions::assert_equal;
use lru_support::stress::outcome::{Check, RoundFailure, Trouble};
use std::test::Fail;

#[test]
fn a_failed_check_is_reported_with_its_seed(rt: HostRuntime) -> Result<(), Fail> {
    let alloc = rt.alloc();
    let cases = [
        (Trouble::Refused, "refused 1"),
        (Trouble::Failed(Check::Prune), "seed 7 failed: prune"),
        (
            Trouble::Failed(Check::TwinTotal),
            "seed 7 failed: total of the twin",
        ),
    ];
    for (trouble, line) in cases {
        let failure = RoundFailure { seed: 7, trouble };
        assert_equal(&rt, format!(in alloc; "{failure}")?.as_str(), line);
    }
    Ok(())
}
