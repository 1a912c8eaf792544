//! Steps as data, and runs of them.
ghost use Rattle.std.specs.Prelude.{◌≡◌, map, IfOk, IfErr, OnErr};
ghost use Rattle.std.specs.List.{AllByRecursion, AllZip};
ghost use Rattle.concurrent_lru.specs.Parts.{StandsAt, RunsApart};
ghost use Rattle.concurrent_lru.specs.Results.{IsCharged, outcome_of, request_of};
ghost use Rattle.concurrent_lru.specs.Runs.{refused};
ghost use Rattle.concurrent_lru.specs.declared.refusal.Refusal.TheVariants.{Stale};
ghost use Rattle.concurrent_lru.specs.Sharded.{AreLawful, key_shard};
ghost use Rattle.concurrent_lru.specs.ShardSteps.{request_at_shard, shard_of_step, step_at_shard, outcome_at_shard, IsShardAnswerTo, TellsNoShard};

use crate::lru_core::{Answer, Refusal, Step};
use crate::shards::{ShardStep, Shards};
use std::hash::{BuildHasher, Hash};

impl<K: Hash + Eq + Clone, V: Drop, S: BuildHasher + Drop> Shards<K, V, S> {
    // Returns the shard of a step, and the step that it takes.
    fn address(&self, step: ShardStep<K, V>) -> (usize, Step<K, V>)
        ensures shard { result.0 ≡ shard_of_step
            (key_shard S.BuildHasher S.Hasher.Hasher K.hash_input self.now) step }
        ensures step { result.1 ≡ step_at_shard step }
    {
        match step {
            ShardStep::Begin(key, charge) => (self.route(&key), Step::Begin(key, charge)),
            ShardStep::BeginStrictly(key, charge) => {
                (self.route(&key), Step::BeginStrictly(key, charge))
            }
            ShardStep::Get(key) => (self.route(&key), Step::Get(key)),
            ShardStep::AdviceEvict(key) => (self.route(&key), Step::AdviceEvict(key)),
            ShardStep::Invalidate(key) => (self.route(&key), Step::Invalidate(key)),
            ShardStep::Insert(key, charge, value) => {
                (self.route(&key), Step::Insert(key, charge, value))
            }
            ShardStep::InsertStrictly(key, charge, value) => {
                (self.route(&key), Step::InsertStrictly(key, charge, value))
            }
            ShardStep::Read(key) => (self.route(&key), Step::Read(key)),
            ShardStep::Poll(shard, stamp) => (shard, Step::Poll(stamp)),
            ShardStep::Ready(shard, stamp, value) => (shard, Step::Ready(stamp, value)),
            ShardStep::ReadyWith(shard, stamp, value, charge) => {
                (shard, Step::ReadyWith(stamp, value, charge))
            }
            ShardStep::ReadyWithStrictly(shard, stamp, value, charge) => {
                (shard, Step::ReadyWithStrictly(stamp, value, charge))
            }
            ShardStep::Fail(shard, stamp) => (shard, Step::Fail(stamp)),
            ShardStep::Release(shard, stamp) => (shard, Step::Release(stamp)),
            ShardStep::ReleaseAndEvict(shard, stamp) => (shard, Step::ReleaseAndEvict(stamp)),
            ShardStep::Repin(shard, stamp) => (shard, Step::Repin(stamp)),
            ShardStep::Prune(shard) => (shard, Step::Prune),
            ShardStep::SetCapacity(shard, capacity) => (shard, Step::SetCapacity(capacity)),
            ShardStep::Total(shard) => (shard, Step::Total),
        }
    }

    // Takes one step.
    fn step(&mut self, step: ShardStep<K, V>) -> (usize, Answer<K, V>)
        requires { IsCharged (request_of (step_at_shard step)) }
        ensures shard { result.0 ≡ shard_of_step
            (key_shard S.BuildHasher S.Hasher.Hasher K.hash_input self.old) step }
        ensures step { StandsAt K.eq self.old result.0 (request_of (step_at_shard step))
            (outcome_of result.1) self.new }
        ensures kind { IsShardAnswerTo step result }
        ensures lawful { AreLawful K.eq self.new }
    {
        let (shard, step) = self.address(step);
        let Some(cache) = self.shards.get_mut(shard) else {
            return (shard, tell_no_shard(step));
        };
        (shard, cache.step(step))
    }

    /// Takes steps in order and returns one answer for each, with its shard. Each charge is above
    /// 0; shards and stamps may be stale or invented.
    ///
    /// Returns `Memory` if there is no room for the answers, which is reserved first: then no step
    /// was taken, and the steps are dropped.
    pub fn run(
        &mut self,
        steps: Vec<ShardStep<K, V>>,
    ) -> Result<Vec<(usize, Answer<K, V>)>, Refusal>
        requires { AllByRecursion IsCharged (map request_of (map step_at_shard steps.items)) }
        ensures run { IfOk result (λ answers. RunsApart K.eq self.old
            (map (request_at_shard (key_shard S.BuildHasher S.Hasher.Hasher K.hash_input self.old))
            steps.items) (map outcome_at_shard answers.items) self.new) }
        ensures kinds { IfOk result (λ answers. AllZip IsShardAnswerTo steps.items answers.items) }
        ensures err { IfErr result (λ e. e ≡ Refusal.Memory) }
        ensures same { OnErr result (self.new ≡ self.old) }
        ensures lawful { AreLawful K.eq self.new }
    {
        let mut answers = Vec::new(self.alloc);
        answers.reserve(steps.len())?;
        for step in steps {
            let answer = self.step(step);
            // Never refused: the room was reserved before the first step.
            let _kept = answers.push(answer);
        }
        Ok(answers)
    }
}

// The answer to a step for a shard that does not exist: a value comes back.
fn tell_no_shard<K: Drop, V: Drop>(step: Step<K, V>) -> Answer<K, V>
    ensures kind { TellsNoShard step result }
    ensures outcome { outcome_of result ≡ refused Stale }
{
    match step {
        Step::Ready(_, value) => Answer::Back(value),
        Step::ReadyWith(_, value, _) => Answer::NotReady(Refusal::Stale, value),
        Step::ReadyWithStrictly(_, value, _) => Answer::NotReady(Refusal::Stale, value),
        Step::Insert(_, _, value) => Answer::NotInserted(Refusal::Stale, value),
        Step::InsertStrictly(_, _, value) => Answer::NotInserted(Refusal::Stale, value),
        _ => Answer::Refused(Refusal::Stale),
    }
}
