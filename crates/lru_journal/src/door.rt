//! The lock of a twin. Each call acquires it once, makes one call of the journal, and notes its
//! record. What the call took out of the cache is dropped after the lock is released.
ghost use Rattle.std.specs.Prelude.{◌≡◌, ◌++◌, ◌∷◌, [], IfOk, OnErr};
ghost use Rattle.crossbeam_utils.specs.Seq.{cell_view};
ghost use Rattle.lru_journal.specs.Tallies.{knower, all_parts, AreExactly, Receives};

use crate::journal::Journal;
use crate::record::Record;
use crate::tally::{Cell, CellPass, Identity, Tally, append};
use crate::twin_state::TwinState;
use concurrent_lru::sealed::Sealed;
use std::hash::Hash;
use std::marker::Brand;
use std::sync::{Mutex, MutexGuard, Wait};

/// The lock, the cell of the tallies, and the right to wait.
#[derive(Drop)]
pub struct Door<K: Hash + Eq + Clone, V, R, I: Identity> {
    cell: Cell<K>,
    state: Mutex<TwinState<K, V, I>>,
    rt: R,
    pub ghost own: { cell.table.shared.table_id ≡ I.name.table },
}

/// A debt: the lock is held. Only `unlock` takes it, with the answer of the call that was made.
pub struct Guard<'a, K: Hash + Eq + Clone, V, I: Identity> {
    pub(crate) state: MutexGuard<'a, TwinState<K, V, I>>,
}

impl<K: Hash + Eq + Clone, V, R, I: Identity> Door<K, V, R, I> {
    /// Creates the lock of a twin whose tallies have this cell.
    pub(crate) fn new(cell: Cell<K>, state: TwinState<K, V, I>, rt: R) -> Self
        requires { cell.table.shared.table_id ≡ I.name.table }
    {
        Door {
            cell,
            state: Mutex::new(state),
            rt,
        }
    }

    /// Returns the cell of the tallies. Acquires no lock.
    pub(crate) fn cell(&self) -> &Cell<K>
        ensures { result.now.table.shared.table_id ≡ I.name.table }
    {
        &self.cell
    }
}

impl<K: Hash + Eq + Clone, V: Drop, R: Wait + Drop, I: Identity> Door<K, V, R, I> {
    /// Acquires the lock for one call.
    pub(crate) fn lock(&self) -> Guard<'_, K, V, I> {
        Guard {
            state: self.state.lock(&self.rt),
        }
    }

    /// Adds the journal's last record to the cell, and its receipt to the tally, if the answer is
    /// that of an accepted call. Returns the answer sealed, for `Guard::unlock`.
    pub(crate) fn note<T, E>(
        &self,
        tally: &mut Tally<K, I>,
        journal: &Journal<K, V>,
        records_pass: &mut CellPass<K>,
        answer: Result<T, E>,
    ) -> Sealed<Result<T, E>>
        requires records_pass { (records_pass.old.table_id ≡ I.name.table)
            × (cell_view records_pass.old ≡ knower (cell_view records_pass.old).all) }
        requires added { IfOk answer (λ _. (r : Record K)
            × (journal.now.records ≡ (cell_view records_pass.old).all ++ r ∷ [])) }
        requires unchanged { OnErr answer
            (journal.now.records ≡ (cell_view records_pass.old).all) }
        ensures answer { result ≡ answer }
        ensures records_pass { (records_pass.new.table_id ≡ I.name.table)
            × (cell_view records_pass.new ≡ knower journal.now.records) }
        ensures parts { tally.new.parts ≡ tally.old.parts }
        ensures accepted { IfOk answer (λ _. (r : Record K)
            → journal.now.records ≡ (cell_view records_pass.old).all ++ r ∷ []
            → Receives tally.old r tally.new) }
        ensures refused { OnErr answer (tally.new ≡ tally.old) }
    {
        match answer {
            Ok(answer) => {
                let records = journal.records();
                let number = records.len() - 1;
                append::<K, Brand, I, R>(
                    &self.rt,
                    &self.cell,
                    records_pass,
                    tally,
                    number,
                    &records[number],
                );
                Sealed::of(Ok(answer))
            }
            Err(refused) => Sealed::of(Err(refused)),
        }
    }

    /// Returns the journal, as `TwinState::close` does.
    pub(crate) fn close(self, tally: Tally<K, I>) -> Journal<K, V>
        requires { tally.parts ≡ all_parts }
        ensures exactly { AreExactly result.records tally.receipts }
        ensures began { result.began ≡ I.name.capacity }
    {
        let Door { cell, state, rt } = self;
        state.into_inner().close(&rt, &cell, tally)
    }
}

impl<'a, K: Hash + Eq + Clone, V: Drop, I: Identity> Guard<'a, K, V, I> {
    /// Releases the lock, and then returns the answer that was sealed under it.
    pub(crate) fn unlock<T>(self, answer: Sealed<T>) -> T
        ensures { result ≡ answer }
    {
        let Self { state } = self;
        answer.open(state)
    }
}
