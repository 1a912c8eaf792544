//! The tallies of a twin, and the ruled cell that ties their receipts to its records.
//!
//! Passes of that cell have no bytes; its single word counts the records.
ghost use Rattle.std.specs.Prelude.{◌≡◌, ◌+◌, ◌^◌, ◌<◌, ◌++◌, ◌∷◌, [], length, IfOk, IfErr};
ghost use Rattle.crossbeam_utils.specs.Seq.{cell_view, IsSamePass};
ghost use Rattle.lru_journal.specs.Tallies.{knower, hand_with_receipt, without_tally, only_tally, view_with_view, AllBelow};

use crate::record::Record;
use atomic_table::{Join, Split};
use concurrent_lru::lru_core::Refusal;
use crossbeam_utils::atomic::seq_cell::{Pass, RuledSeqCell};
use crossbeam_utils::rule::{Outcome, Protocol};
use std::alloc::Global;
use std::collections::LinkedList;
use std::marker::{Brand, Model, PhantomData};
use std::sync::Wait;

/// Identifies one twin, for contracts only. It is a parameter of the twin and of its tallies, so
/// that a tally of another twin has another type.
pub trait Identity {
    ghost use Rattle.lru_journal.specs.Tallies.{Name};

    ghost name: { Name };
}

impl Identity for Brand {
    ghost use Rattle.lru_journal.specs.Tallies.{no_name};

    ghost name = { no_name };
}

/// The record of an accepted call. The cell's step receives it through this type.
pub trait Noted<K> {
    ghost use Rattle.lru_journal.specs.declared.record.Record.{Record};

    ghost made: { Record K };
}

impl<K> Noted<K> for Brand {
    ghost use Rattle.lru_journal.specs.Tallies.{no_record};

    ghost made = { no_record };
}

/// What a pass knows. No value of it ever exists at run time.
pub struct View<K> {
    /// Whether it knows all records, as the pass under the twin's lock does.
    pub keeps: bool,
    /// The records that it knows.
    pub all: LinkedList<Record<K>>,
    /// How many parts of the twin it has.
    pub parts: u64,
    /// Its receipts: positions with the records there.
    pub receipts: LinkedList<(u64, Record<K>)>,
}

/// The rule of the cell, whose single word is the number of records.
pub struct RecordCount;

impl<K> Protocol<[u64; 1], View<K>> for RecordCount {
    ghost use Rattle.lru_journal.specs.Tallies.{IsCounted, opening};

    ghost holds = { IsCounted };

    ghost first = { opening };
}

/// Adds a record to all records, and its receipt to the tally that the pass under the lock has
/// taken in.
pub struct AppendRecord<E> {
    noted: PhantomData<E>,
}

impl<K, E: Noted<K>> Outcome<[u64; 1], View<K>> for AppendRecord<E> {
    ghost use Rattle.lru_journal.specs.Tallies.{Appended};

    ghost then = { Appended E.made };
}

/// Compares the whole tally, which the pass under the lock has taken in, with all records.
pub struct CheckRecords;

impl<K> Outcome<[u64; 1], View<K>> for CheckRecords {
    ghost use Rattle.lru_journal.specs.Tallies.{Checked};

    ghost then = { Checked };
}

/// Splits off the tally of a pass, with all its parts and receipts.
pub struct WholeTally;

impl<K> Split<View<K>> for WholeTally {
    ghost use Rattle.lru_journal.specs.Tallies.{without_tally, only_tally};

    ghost left = { without_tally };

    ghost right = { only_tally };
}

/// Splits off one part of a tally.
pub struct OnePart;

impl<K> Split<View<K>> for OnePart {
    ghost use Rattle.lru_journal.specs.Tallies.{less_one, one_part};

    ghost left = { less_one };

    ghost right = { one_part };
}

/// Takes in a tally's parts and receipts.
pub struct Merge;

impl<K> Join<View<K>> for Merge {
    ghost use Rattle.lru_journal.specs.Tallies.{view_with_view, nobody};

    ghost both = { view_with_view };

    ghost spent = { nobody };
}

/// The cell of a twin's tallies.
pub type Cell<K> = RuledSeqCell<[u64; 1], View<K>, RecordCount, 1>;

/// A pass of that cell. It has no bytes.
pub type CellPass<K> = Pass<[u64; 1], View<K>>;

/// What a twin is created from: its initial capacity, a new cell, and the cell's first pass.
///
/// A twin is created in a function that is generic in its `Identity` and called with `Brand`: that
/// call picks the opening's own name.
#[derive(Drop)]
pub struct Opening<K> {
    pub(crate) capacity: u64,
    pub(crate) cell: Cell<K>,
    pub(crate) first: CellPass<K>,
}

impl<K> Model for Opening<K> {
    ghost use Rattle.std.specs.Prelude.{◌≡◌};
    ghost use Rattle.crossbeam_utils.specs.Seq.{cell_view};
    ghost use Rattle.lru_journal.specs.Tallies.{Name, name, opening};

    ghost Value = { Name };

    ghost view = { λ o. name o.cell.table.shared.table_id o.capacity };

    ghost invariant = { λ o. (o.first.table_id ≡ o.cell.table.shared.table_id) × (cell_view o.first ≡ opening) };
}

impl<K> Opening<K> {
    /// Creates an opening for a twin with this capacity. Returns `Memory` if there is no room for
    /// the cell.
    pub fn new(alloc: Global, capacity: u64) -> Result<Opening<K>, Refusal>
        ensures capacity { IfOk result (λ o. o.capacity ≡ capacity) }
        ensures memory { IfErr result (λ e. e ≡ Refusal.Memory) }
    {
        let Ok((cell, first)) = Cell::<K>::ruled(alloc, [0]) else {
            return Err(Refusal::Memory);
        };
        Ok(Opening {
            capacity,
            cell,
            first,
        })
    }
}

/// Some of the million parts of a twin, and the receipts of accepted calls: each is a record and
/// its position among all records. It has no bytes.
///
/// A caller of the twin needs a tally with a part; whoever has all parts has all receipts.
#[derive(Drop)]
pub struct Tally<K, I: Identity> {
    pub(crate) pass: CellPass<K>,
    pub(crate) twin: PhantomData<I>,
}

impl<K, I: Identity> Model for Tally<K, I> {
    ghost use Rattle.std.specs.Prelude.{◌≡◌, ◌<◌, false};
    ghost use Rattle.crossbeam_utils.specs.Seq.{cell_view};
    ghost use Rattle.lru_journal.specs.Tallies.{Hand, hand};

    ghost Value = { Hand K };

    ghost view = { λ t. hand (cell_view t.pass).parts (cell_view t.pass).receipts };

    ghost invariant = { λ t. (t.pass.table_id ≡ I.name.table) × ((cell_view t.pass).keeps ≡ false) × (0 < (cell_view t.pass).parts) };
}

// Takes the whole tally out of a pass.
//
// A call of a cell takes long to prove, so each split and join is proved once, here and below.
pub(crate) fn take_tally<K>(cell: &Cell<K>, pass: &mut CellPass<K>) -> CellPass<K>
    requires { pass.old.table_id ≡ cell.now.table.shared.table_id }
    ensures kept { IsSamePass pass.old pass.new
        × (cell_view pass.new ≡ without_tally (cell_view pass.old)) }
    ensures given { (result.table_id ≡ pass.old.table_id)
        × (cell_view result ≡ only_tally (cell_view pass.old)) × (result.me.1 ≡ []) }
{
    cell.split_pass::<WholeTally>(pass)
}

// Adds the parts and the receipts of another pass to those of a pass.
pub(crate) fn add_tally<K>(cell: &Cell<K>, pass: &mut CellPass<K>, other: CellPass<K>)
    requires { (pass.old.table_id ≡ cell.now.table.shared.table_id)
        × (other.table_id ≡ pass.old.table_id) × (other.me.1 ≡ []) }
    ensures { IsSamePass pass.old pass.new
        × (cell_view pass.new ≡ view_with_view (cell_view pass.old) (cell_view other)) }
{
    cell.join_pass::<Merge>(pass, other);
}

// Adds a record to all records, and its receipt to the tally. The pass under the lock takes the
// whole tally in, gains both in one step, and gives the tally back, so that the rule holds between
// any two moves.
pub(crate) fn append<K, E: Noted<K>, I: Identity, R: Wait>(
    rt: &R,
    cell: &Cell<K>,
    records_pass: &mut CellPass<K>,
    tally: &mut Tally<K, I>,
    number: usize,
    noted: &Record<K>,
)
    requires cell { (cell.now.table.shared.table_id ≡ I.name.table)
        × (records_pass.old.table_id ≡ I.name.table) }
    requires records_pass { (cell_view records_pass.old ≡ knower (cell_view records_pass.old).all)
        × (length (cell_view records_pass.old).all ≡ number) }
    requires noted { noted.now ≡ E.made }
    requires room { number + 1 < 2 ^ 64 }
    ensures records_pass { (records_pass.new.table_id ≡ I.name.table)
        × (cell_view records_pass.new
        ≡ knower ((cell_view records_pass.old).all ++ noted.now ∷ [])) }
    ensures tally { tally.new ≡ hand_with_receipt tally.old number noted.now }
    ensures past { AllBelow number tally.old.receipts }
{
    let mine = take_tally(cell, &mut tally.pass);
    add_tally(cell, records_pass, mine);
    cell.swap_as::<AppendRecord<E>, R>(rt, records_pass, [number as u64 + 1]);
    tally.pass = take_tally(cell, records_pass);
}
