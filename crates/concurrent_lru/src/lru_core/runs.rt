//! Steps as data, and runs of them.
ghost use Rattle.std.specs.Prelude.{◌≡◌, ◌+◌, ◌<◌, ◌≤◌, [], ◌∷◌, ◌++◌, None, OnErr, IfErr, IfOk, map, vec_len, vec_capacity};
ghost use Rattle.std.specs.List.{AllByRecursion};
ghost use Rattle.concurrent_lru.specs.Cache.{IsLawful};
ghost use Rattle.concurrent_lru.specs.Counted.{most_writes_of_read, StepWritesBy, StepsWriteAtMost};
ghost use Rattle.concurrent_lru.specs.Request as ask;
ghost use Rattle.concurrent_lru.specs.Results.{outcome_of_read_by, request_of_by, outcome_of_by, IsCharged, IsAnswerToBy, AreAnswersToBy};
ghost use Rattle.concurrent_lru.specs.Runs.{Stands, Run};
ghost use Rattle.concurrent_lru.specs.WholeRuns.{KeepsLimitIfStrict, KeepsStamps, LeavesFitted, LeavesTail};

use crate::lru_core::{Refusal, State};
use crate::share::Sharing;
use crate::step::{Answer, Step};
use std::hash::Hash;

impl<K: Hash + Eq + Clone, V: Drop, M: Sharing<V>> State<K, V, M>
where
    M::Share: Drop,
{
    // Does what `read` does, and shares the value as `get` does: a `get`, and the release of its
    // pin.
    fn read_shared(&mut self, key: &K) -> Result<Option<(u64, M::Share)>, Refusal>
        ensures step { Stands K.eq self.old.cache (ask.read key.now)
            (outcome_of_read_by M.seen result) self.new.cache }
        ensures work { IfOk result (λ found. self.new.work ≤ self.old.work + most_writes_of_read
            found) }
        ensures same { OnErr result (self.new.work ≡ self.old.work) }
        ensures lawful { IsLawful K.eq self.new.cache }
    {
        // The checker opens the invariant of `self`, which the proof uses, where a field is read.
        let _ = &self.alloc;
        let Some((stamp, value)) = self.get(key)? else {
            return Ok(None);
        };
        // Never refused, and evicts nothing.
        let _evicted = self.release(stamp);
        Ok(Some((stamp, value)))
    }

    // Takes one step.
    pub(crate) fn step(&mut self, step: Step<K, M::Share>) -> Answer<K, V, M>
        requires { IsCharged (request_of_by M.seen step) }
        ensures step { Stands K.eq self.old.cache (request_of_by M.seen step)
            (outcome_of_by M.seen result) self.new.cache }
        ensures work { StepWritesBy M.seen self.old result self.new }
        ensures kind { IsAnswerToBy M.seen step result }
        ensures lawful { IsLawful K.eq self.new.cache }
    {
        match step {
            Step::Begin(key, charge) => match self.begin(&key, charge) {
                Ok((begun, evicted)) => Answer::Begun(begun, evicted),
                Err(refusal) => Answer::Refused(refusal),
            },
            Step::BeginStrictly(key, charge) => match self.begin_strictly(&key, charge) {
                Ok((begun, evicted)) => Answer::Begun(begun, evicted),
                Err(refusal) => Answer::Refused(refusal),
            },
            Step::Poll(stamp) => match self.poll(stamp) {
                Ok(begun) => Answer::Polled(begun),
                Err(refusal) => Answer::Refused(refusal),
            },
            Step::Ready(stamp, value) => match self.ready(stamp, value) {
                Ok(()) => Answer::Done,
                Err(value) => Answer::Back(value),
            },
            Step::ReadyWith(stamp, value, charge) => match self.ready_with(stamp, value, charge) {
                Ok(evicted) => Answer::Gone(evicted),
                Err((refusal, value)) => Answer::NotReady(refusal, value),
            },
            Step::ReadyWithStrictly(stamp, value, charge) => {
                match self.ready_with_strictly(stamp, value, charge) {
                    Ok(evicted) => Answer::Gone(evicted),
                    Err((refusal, value)) => Answer::NotReady(refusal, value),
                }
            }
            Step::Fail(stamp) => match self.fail(stamp) {
                Ok(failed) => Answer::Failed(failed),
                Err(refusal) => Answer::Refused(refusal),
            },
            Step::Get(key) => match self.get(&key) {
                Ok(found) => Answer::Got(found),
                Err(refusal) => Answer::Refused(refusal),
            },
            Step::Release(stamp) => match self.release(stamp) {
                Ok(evicted) => Answer::Released(evicted),
                Err(refusal) => Answer::Refused(refusal),
            },
            Step::ReleaseAndEvict(stamp) => match self.release_and_evict(stamp) {
                Ok(evicted) => Answer::Released(evicted),
                Err(refusal) => Answer::Refused(refusal),
            },
            Step::Repin(stamp) => match self.repin(stamp) {
                Ok(value) => Answer::Repinned(value),
                Err(refusal) => Answer::Refused(refusal),
            },
            Step::AdviceEvict(key) => Answer::Gone(self.advice_evict(&key)),
            Step::Invalidate(key) => Answer::Gone(self.invalidate(&key)),
            Step::Insert(key, charge, value) => match self.insert(&key, charge, value) {
                Ok(inserted) => Answer::Inserted(inserted),
                Err((refusal, value)) => Answer::NotInserted(refusal, value),
            },
            Step::InsertStrictly(key, charge, value) => {
                match self.insert_strictly(&key, charge, value) {
                    Ok(inserted) => Answer::Inserted(inserted),
                    Err((refusal, value)) => Answer::NotInserted(refusal, value),
                }
            }
            Step::Read(key) => match self.read_shared(&key) {
                Ok(found) => Answer::Read(found),
                Err(refusal) => Answer::Refused(refusal),
            },
            Step::Prune => Answer::Gone(self.prune()),
            Step::SetCapacity(capacity) => Answer::Gone(self.set_capacity(capacity)),
            Step::Total => Answer::Total(self.total()),
        }
    }

    /// Takes steps in order and returns one answer for each. Each charge is above 0; stamps may be
    /// stale or invented.
    ///
    /// Returns `Memory` if there is no room for the answers, which is reserved first: then no step
    /// was taken, and the steps are dropped.
    ///
    /// After a plain run (`IsPlain`: each use is released at once, and there are no other steps),
    /// what an empty cache is left with is the longest suffix of the keys, ordered by last use,
    /// whose charges fit (`tail`). Between uses, the capacity may be set, and keys may be removed
    /// by `AdviceEvict`, `Invalidate` and `Prune`. A key that was removed since its last use is not
    /// idle afterwards. Any other used key is idle if and only if, at every moment since its last
    /// use, it weighed at most the capacity of that moment (`fitted`). Each stamp that was present
    /// or was given out is in exactly one place: in the cache, in the answer of `fail`, or in an
    /// evicted list (`stamps`). If no step is a `Begin`, a `ReadyWith` or an `Insert`, but each is
    /// strict, a total that was at most the capacity stays so as long as the capacity is not
    /// lowered (`limit`). The idle order is written at most once for each step that is not refused,
    /// twice for a `Read`, and once for each evicted entry (`work`).
    pub fn run(&mut self, steps: Vec<Step<K, M::Share>>) -> Result<Vec<Answer<K, V, M>>, Refusal>
        requires { AllByRecursion IsCharged (map (request_of_by M.seen) steps.items) }
        ensures run { IfOk result (λ answers. Run K.eq self.old.cache
            (map (request_of_by M.seen) steps.items) (map (outcome_of_by M.seen) answers.items)
            self.new.cache) }
        ensures kinds { IfOk result (λ answers. AreAnswersToBy M.seen steps.items answers.items) }
        ensures tail { IfOk result (λ answers. LeavesTail K.eq self.old.cache
            (map (request_of_by M.seen) steps.items) (map (outcome_of_by M.seen) answers.items)
            self.new.cache) }
        ensures fitted { IfOk result (λ answers. LeavesFitted K.eq self.old.cache
            (map (request_of_by M.seen) steps.items) (map (outcome_of_by M.seen) answers.items)
            self.new.cache) }
        ensures stamps { IfOk result (λ answers. KeepsStamps self.old.cache
            (map (request_of_by M.seen) steps.items) (map (outcome_of_by M.seen) answers.items)
            self.new.cache) }
        ensures limit { IfOk result (λ answers. KeepsLimitIfStrict self.old.cache
            (map (request_of_by M.seen) steps.items) self.new.cache) }
        ensures work { IfOk result (λ answers. StepsWriteAtMost self.old
            (map (outcome_of_by M.seen) answers.items) self.new) }
        ensures err { IfErr result (λ e. e ≡ Refusal.Memory) }
        ensures same { OnErr result (self.new ≡ self.old) }
        ensures lawful { IsLawful K.eq self.new.cache }
    {
        let mut answers = Vec::new(self.alloc);
        answers.reserve(steps.len())?;
        for step in steps {
            let answer = self.step(step);
            push_within(&mut answers, answer);
        }
        Ok(answers)
    }
}

// Pushes an item. There must be room for it; then the push is never refused.
fn push_within<T: Drop>(items: &mut Vec<T>, item: T)
    requires { vec_len items.old < vec_capacity items.old }
    ensures items { items.new.items ≡ items.old.items ++ item ∷ [] }
    ensures len { vec_len items.new ≡ vec_len items.old + 1 }
    ensures capacity { vec_capacity items.old ≤ vec_capacity items.new }
{
    let _pushed = items.push(item);
}
