//! The data under the twin's lock: the journal, and the pass that knows all its records.
ghost use Rattle.std.specs.Prelude.{◌≡◌};
ghost use Rattle.lru_journal.specs.Tallies.{all_parts, AreExactly};

use crate::journal::Journal;
use crate::tally::{Cell, CellPass, CheckRecords, Identity, Tally, add_tally, take_tally};
use std::hash::Hash;
use std::marker::{Model, PhantomData};
use std::sync::Wait;

/// A journal, and the pass that knows all its records.
#[derive(Drop)]
pub struct TwinState<K: Hash + Eq + Clone, V, I: Identity> {
    pub(crate) journal: Journal<K, V>,
    pub(crate) records_pass: CellPass<K>,
    pub(crate) twin: PhantomData<I>,
}

impl<K: Hash + Eq + Clone, V, I: Identity> Model for TwinState<K, V, I> {
    ghost use Rattle.std.specs.Coded.{codes};
    ghost use Rattle.concurrent_lru.specs.Cache.{cache_code};
    ghost use Rattle.lru_journal.specs.Journals.{Journaled};

    ghost Value = { Journaled K V };

    ghost coded = { Prim.hlevel (codes, cache_code) };

    ghost use Rattle.std.specs.Prelude.{◌≡◌};
    ghost use Rattle.crossbeam_utils.specs.Seq.{cell_view};
    ghost use Rattle.lru_journal.specs.Tallies.{knower};

    ghost view = { λ s. s.journal };

    ghost invariant = { λ s. (s.records_pass.table_id ≡ I.name.table) × (cell_view s.records_pass ≡ knower s.journal.records) × (s.journal.began ≡ I.name.capacity) };
}

impl<K: Hash + Eq + Clone, V: Drop, I: Identity> TwinState<K, V, I> {
    /// Returns the journal. The whole tally has exactly its records.
    pub(crate) fn close<R: Wait>(self, rt: &R, cell: &Cell<K>, tally: Tally<K, I>) -> Journal<K, V>
        requires cell { cell.now.table.shared.table_id ≡ I.name.table }
        requires whole { tally.parts ≡ all_parts }
        ensures journal { result ≡ self }
        ensures began { result.began ≡ I.name.capacity }
        ensures exactly { AreExactly result.records tally.receipts }
    {
        let TwinState {
            journal,
            mut records_pass,
            twin: _,
        } = self;
        let Tally { mut pass, twin: _ } = tally;
        let whole = take_tally(cell, &mut pass);
        add_tally(cell, &mut records_pass, whole);
        cell.load_as::<CheckRecords, R>(rt, &mut records_pass);
        journal
    }
}
