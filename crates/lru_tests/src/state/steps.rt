//! Steps that a cache for a single owner takes as one list.
ghost use Rattle.concurrent_lru.specs.Results.{IsCharged, request_of};

use concurrent_lru::lru_core::{Answer, Refusal, State, Step};
use std::alloc::{AllocError, Global};
use std::sync::Arc;

/// Returns what an empty cache answers to this step, and then to a making of key 1 that one caller
/// gives up and a waiting one takes over. Returns `AllocError` if memory for the steps is refused.
pub fn hand_over_after(
    alloc: Global,
    first: Step<u64, u64>,
) -> Result<Result<Vec<Answer<u64, u64>>, Refusal>, AllocError>
    requires { IsCharged (request_of first) }
{
    let (one, two) = (Arc::new(alloc, 1)?, Arc::new(alloc, 2)?);
    let steps = vec![in alloc;
        first,
        Step::Get(1),
        Step::Begin(1, 7),
        Step::Fail(0),
        Step::Poll(0),
        Step::Ready(0, one),
        Step::Ready(0, two),
        Step::Total,
        Step::Release(0),
        Step::Release(0),
        Step::Invalidate(1),
    ]?;
    let mut state: State<u64, u64> = State::new(alloc, 10);
    Ok(state.run(steps))
}
