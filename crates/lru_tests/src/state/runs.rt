//! Steps that are taken as one list: one of each kind, the worked row on a making that is handed
//! over, and makings that end with another charge, also in shards.

use crate::state::steps::hand_over_after;
use concurrent_lru::lru_core::{State, Step};
use concurrent_lru::sharded::{ShardStep, Shards};
use lru_support::hashers::ByOwnNumber;
use lru_support::tables::says;
use std::sync::Arc;
use std::test::Fail;

#[test]
fn hands_a_making_over(rt: HostRuntime) -> Result<(), Fail> {
    let alloc = rt.alloc();
    says(
        alloc,
        &hand_over_after(alloc, Step::Begin(1, 3))?,
        "Ok([Begun(Make(0), []), Got(None), Begun(Wait(0), []), Failed(Left), Polled(Make(0)), \
         Done, Back(2), Total(3), Released([]), Refused(Stale), \
         Gone([Gone { stamp: 0, key: 1, charge: 3, value: 1 }])])",
    )
}

#[test]
fn takes_every_other_kind_of_step(rt: HostRuntime) -> Result<(), Fail> {
    let alloc = rt.alloc();
    let steps = vec![in alloc;
        Step::Insert(1, 1, Arc::new(alloc, 10)?),
        Step::Read(1),
        Step::Repin(0),
        Step::ReleaseAndEvict(0),
        Step::Release(0),
        Step::AdviceEvict(2),
        Step::BeginStrictly(2, 4),
        Step::InsertStrictly(3, 1, Arc::new(alloc, 30)?),
        Step::Fail(1),
        Step::InsertStrictly(3, 1, Arc::new(alloc, 30)?),
        Step::SetCapacity(0),
        Step::ReleaseAndEvict(2),
        Step::Prune,
        Step::Repin(2),
    ]?;
    let mut state: State<u64, u64> = State::new(alloc, 4);
    says(
        alloc,
        &state.run(steps),
        "Ok([Inserted(Inserted { stamp: 0, replaced: [], evicted: [] }), Read(Some((0, 10))), \
         Repinned(10), Released([]), Released([]), Gone([]), \
         Begun(Make(1), [Gone { stamp: 0, key: 1, charge: 1, value: 10 }]), \
         NotInserted(Full, 30), Failed(Removed(2)), \
         Inserted(Inserted { stamp: 2, replaced: [], evicted: [] }), Gone([]), \
         Released([Gone { stamp: 2, key: 3, charge: 1, value: 30 }]), Gone([]), Refused(Stale)])",
    )
}

// A refused charge leaves the making as it was. One that the limit refuses is taken without it, and
// then the total may exceed the capacity.
#[test]
fn takes_the_charges_that_values_come_with(rt: HostRuntime) -> Result<(), Fail> {
    let alloc = rt.alloc();
    let steps = vec![in alloc;
        Step::Begin(1, 3),
        Step::ReadyWith(0, Arc::new(alloc, 10)?, 2),
        Step::Release(0),
        Step::Begin(2, 1),
        Step::ReadyWith(1, Arc::new(alloc, 20)?, u64::MAX),
        Step::ReadyWithStrictly(1, Arc::new(alloc, 21)?, 5),
        Step::Total,
        Step::ReadyWithStrictly(1, Arc::new(alloc, 22)?, 3),
        Step::ReadyWithStrictly(1, Arc::new(alloc, 23)?, 3),
        Step::Release(1),
        Step::Begin(3, 1),
        Step::ReadyWith(2, Arc::new(alloc, 30)?, 5),
        Step::Total,
    ]?;
    let mut state: State<u64, u64> = State::new(alloc, 4);
    says(
        alloc,
        &state.run(steps),
        "Ok([Begun(Make(0), []), Gone([]), Released([]), Begun(Make(1), []), \
         NotReady(Overflow, 20), NotReady(Full, 21), Total(3), \
         Gone([Gone { stamp: 0, key: 1, charge: 2, value: 10 }]), NotReady(Stale, 23), \
         Released([]), Begun(Make(2), []), \
         Gone([Gone { stamp: 1, key: 2, charge: 3, value: 22 }]), Total(5)])",
    )
}

// The limit is that of the shard, and so is the total. If there is no such shard, the value comes
// back.
#[test]
fn shards_take_the_charges_that_values_come_with(rt: HostRuntime) -> Result<(), Fail> {
    let alloc = rt.alloc();
    let steps = vec![in alloc;
        ShardStep::Begin(1, 1),
        ShardStep::ReadyWith(1, 0, Arc::new(alloc, 10)?, 2),
        ShardStep::Release(1, 0),
        ShardStep::Begin(3, 1),
        ShardStep::ReadyWithStrictly(1, 1, Arc::new(alloc, 30)?, 5),
        ShardStep::Fail(1, 1),
        ShardStep::Begin(3, 1),
        ShardStep::ReadyWithStrictly(1, 2, Arc::new(alloc, 31)?, 4),
        ShardStep::Begin(2, 1),
        ShardStep::ReadyWith(0, 0, Arc::new(alloc, 20)?, 5),
        ShardStep::ReadyWith(2, 0, Arc::new(alloc, 21)?, 1),
        ShardStep::ReadyWithStrictly(2, 0, Arc::new(alloc, 22)?, 1),
        ShardStep::Total(0),
        ShardStep::Total(1),
    ]?;
    let mut shards: Shards<u64, u64, ByOwnNumber> = Shards::new(alloc, 8, 2, ByOwnNumber)?;
    says(
        alloc,
        &shards.run(steps),
        "Ok([(1, Begun(Make(0), [])), (1, Gone([])), (1, Released([])), (1, Begun(Make(1), [])), \
         (1, NotReady(Full, 30)), (1, Failed(Removed(3))), (1, Begun(Make(2), [])), \
         (1, Gone([Gone { stamp: 0, key: 1, charge: 2, value: 10 }])), (0, Begun(Make(0), [])), \
         (0, Gone([])), (2, NotReady(Stale, 21)), (2, NotReady(Stale, 22)), (0, Total(5)), \
         (1, Total(4))])",
    )
}

// A making whose charges were refused can still be given up, also if they were told to a shard that
// has no such making, or does not exist.
#[test]
fn shards_take_such_charges_by_calls(rt: HostRuntime) -> Result<(), Fail> {
    let alloc = rt.alloc();
    let mut shards: Shards<u64, u64, ByOwnNumber> = Shards::new(alloc, 8, 2, ByOwnNumber)?;
    drop(shards.begin(&1, 1)?);
    says(
        alloc,
        &shards.ready_with(1, 0, Arc::new(alloc, 10)?, 2),
        "Ok([])",
    )?;
    says(alloc, &shards.release(1, 0), "Ok([])")?;
    drop(shards.begin(&3, 1)?);
    let large = shards.ready_with(1, 1, Arc::new(alloc, 30)?, u64::MAX);
    says(alloc, &large, "Err((Overflow, 30))")?;
    let full = shards.ready_with_strictly(1, 1, Arc::new(alloc, 31)?, 5);
    says(alloc, &full, "Err((Full, 31))")?;
    let stale = [
        shards.ready_with(0, 1, Arc::new(alloc, 32)?, 1),
        shards.ready_with_strictly(2, 1, Arc::new(alloc, 33)?, 1),
    ];
    says(alloc, &stale, "[Err((Stale, 32)), Err((Stale, 33))]")?;
    says(alloc, &shards.total_shard(1), "Ok(3)")?;
    says(alloc, &shards.fail(1, 1), "Ok(Removed(3))")?;
    drop(shards.begin(&3, 1)?);
    says(
        alloc,
        &shards.ready_with_strictly(1, 2, Arc::new(alloc, 34)?, 3),
        "Ok([Gone { stamp: 0, key: 1, charge: 2, value: 10 }])",
    )?;
    says(alloc, &shards.total_shard(1), "Ok(3)")?;
    says(alloc, &shards.release(1, 2), "Ok([])")?;
    drop(shards.begin(&5, 1)?);
    says(
        alloc,
        &shards.ready_with(1, 3, Arc::new(alloc, 50)?, 5),
        "Ok([Gone { stamp: 2, key: 3, charge: 3, value: 34 }])",
    )?;
    says(alloc, &shards.total_shard(1), "Ok(5)")?;
    says(alloc, &shards, "[{}, {5: 50}]")
}
