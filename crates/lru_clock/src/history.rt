//! The history of a shard: which entries came to which slots, and when they left. It exists only in
//! proofs.
//!
//! At run time only counters remain of it. Each slot has a counter, which every event of the slot
//! raises. The kit's `logbook` ties the counters of a shard to one history: whoever loads a counter
//! learns a prefix of the history after which the counter has that value.
//!
//! The shard has another counter, from which numbers are drawn, each greater than all earlier ones.
//! Each entry has one, to which the counter of its slot is raised when the entry comes: it is still
//! in its slot as long as the slot's counter equals the number.
//!
//! The making of a value draws a number when it begins: its ticket. So it began after some moment
//! if the ticket is greater than the shard's counter was then. The ticket is also the number of the
//! entry, unless the counter of its slot has passed the ticket meanwhile: then another number is
//! drawn when the entry comes. The ticket of a value that `insert` was given is the number of its
//! entry.
ghost use Rattle.std.specs.Prelude.{◌≡◌, ◌≤◌, IfSome};
ghost use Rattle.crossbeam_utils.specs.Padded.{padded_value};
ghost use Rattle.lru_clock.specs.History.{turns, named};

pub mod past;
pub mod track;

use crate::history::track::Track;
use concurrent_lru::shown::Shown;
use crossbeam_utils::CachePadded;
use logbook::{Gain, Offer, Plain, Play, Rule, Seen, Start, Word};
use std::marker::Model;

// No counter is raised once it has reached this. At a billion entries a second that takes decades.
const MOST_NUMBERS: u64 = 0x4000_0000_0000_0000;

/// An entry, as the history records it. It exists only in clauses.
pub struct Entry<K, V> {
    pub key: K,
    pub value: V,
}

/// An event of a slot: an entry comes to the slot, or leaves it. It exists only in clauses.
pub struct Event<K, V> {
    pub place: u64,
    /// How many values the slot's counter skips.
    pub skipped: u64,
    /// The ticket of the entry that comes, or 0.
    pub ticket: u64,
    /// The entry that comes, or `None` if the slot has no entry after the event.
    pub entry: Option<Entry<K, V>>,
}

/// The rule of a history: the counter of each slot has the value to which the slot's events have
/// raised it.
pub struct CountersMatchEvents;

impl<K, V> Rule<Event<K, V>, u64> for CountersMatchEvents {
    ghost use Rattle.std.specs.Prelude.{[], ◌∷◌};
    ghost use base.Fml.{ftrue};
    ghost use Rattle.lru_clock.specs.History.{event};
    ghost use Rattle.lru_clock.specs.HistoryRule.{IsKept};

    ghost holds = { λ cells log. IsKept cells log };

    ghost first = { event 1 0 ∷ [] };

    ghost hinted = { λ n log. Unit {0} };

    ghost shows = { λ log. [] };

    ghost keeps = { λ names log. ftrue };

    ghost moves = { λ ask before after answer. Unit {0} };
}

/// A step gives its caller nothing but a longer prefix of the history.
struct GainsNothing;

impl<K, V> Gain<Event<K, V>, u64> for GainsNothing {
    ghost use base.Fml.{ftrue};

    ghost after = { λ names about answer. ftrue };
}

/// A prefix of a history, as a caller has seen it.
pub type Log<K, V> = Seen<Event<K, V>, u64, CountersMatchEvents>;

/// A counter.
pub type Count<K, V> = Word<Event<K, V>, u64, CountersMatchEvents>;

// What a step is asked to do.
type Ask<K, V> = Offer<Event<K, V>, u64, CountersMatchEvents, GainsNothing>;

/// A step that reads a counter.
struct Look;

impl<K, V> Play<Event<K, V>, u64> for Look {
    ghost use Rattle.lru_clock.specs.HistoryRule.{Looks};

    ghost then = { Looks };
}

/// A step that adds an event.
struct Add;

impl<K, V> Play<Event<K, V>, u64> for Add {
    ghost use Rattle.lru_clock.specs.HistoryRule.{Adds};

    ghost then = { Adds };
}

/// A step that adds the counter of a new slot.
struct Widen;

impl<K, V> Play<Event<K, V>, u64> for Widen {
    ghost use Rattle.lru_clock.specs.HistoryRule.{Widens};

    ghost then = { Widens };
}

/// A step that adds the first event of a slot. From then on the history knows the slot's counter.
struct Begin;

impl<K, V> Play<Event<K, V>, u64> for Begin {
    ghost use Rattle.lru_clock.specs.HistoryRule.{Begins};

    ghost then = { Begins };
}

/// Asks for the event that the entry leaves the slot of this counter.
struct EntryLeaves;

impl<K, V> Plain<Count<K, V>, Event<K, V>, u64> for EntryLeaves {
    ghost use Rattle.std.specs.Prelude.{None};
    ghost use Rattle.lru_clock.specs.History.{event};

    ghost ask = { λ word. event word.key 0 };

    ghost state = { λ word. None };
}

/// Asks for the event that a number is drawn. It is two greater than the last one, since the entry
/// with the last one raises the counter of its slot by one when it leaves.
struct NumberIsDrawn;

impl<K, V> Plain<Count<K, V>, Event<K, V>, u64> for NumberIsDrawn {
    ghost use Rattle.std.specs.Prelude.{None};
    ghost use Rattle.lru_clock.specs.History.{event};

    ghost ask = { λ word. event word.key 1 };

    ghost state = { λ word. None };
}

/// An entry that comes to a slot, its ticket, and how many values the slot's counter skips.
#[derive(Drop)]
struct Coming<K, V> {
    word: Shown<Count<K, V>>,
    skipped: u64,
    ticket: u64,
    key: Shown<K>,
    value: Shown<V>,
}

/// Asks for the event that the entry comes to the slot.
struct EntryComes;

impl<K, V> Plain<Coming<K, V>, Event<K, V>, u64> for EntryComes {
    ghost use Rattle.std.specs.Prelude.{None};
    ghost use Rattle.lru_clock.specs.History.{coming, entry};

    ghost ask = { λ x. coming x.word.value.key x.skipped x.ticket
        (entry x.key.value x.value.value) };

    ghost state = { λ x. None };
}

/// A history, the word by which slots are added to it, and the counter from which the numbers of
/// entries are drawn.
#[derive(Drop)]
pub struct Chronicle<K, V> {
    head: Count<K, V>,
    // On a cache line of its own: each new entry writes it, and hits read the other fields.
    numbers: CachePadded<Track<K, V>>,
    pub first: Log<K, V>,
    ghost head_is: { head ≡ named 0 first.book },
    ghost numbers_is: { (padded_value numbers).word ≡ named 1 first.book },
    ghost one: { turns 1 first.log ≡ 1 },
}

impl<K, V> Chronicle<K, V> {
    /// Creates a history without slots.
    pub fn new() -> Self {
        let (first, mut head, mut numbers) = Seen::open(Start::alone(), 0, 1);
        Chronicle {
            head: Word::tracked(0, &mut head),
            numbers: CachePadded::new(Track {
                word: Word::tracked(1, &mut numbers),
                begun: first.again(),
            }),
            first,
        }
    }

    /// Draws a number, and returns it with the prefix of the history that ends when it is drawn.
    ///
    /// Returns `None` if another caller draws a number at the same time, or if no number is left.
    pub fn draw(&self) -> Option<(u64, Log<K, V>)>
        ensures book { IfSome result (λ drawn. drawn.1.book ≡ self.now.first.book) }
        ensures drawn { IfSome result (λ drawn. drawn.0 ≡ turns 1 drawn.1.log) }
    {
        self.numbers.draw(&self.first)
    }

    /// Returns the number and the ticket of an entry that comes to a slot whose counter has reached
    /// `passed`, with a prefix of the history in which the number was drawn.
    ///
    /// The ticket of the making serves as the number too, unless the counter has passed it. Then,
    /// and for an entry without a ticket, a number is drawn, which an entry without a ticket has as
    /// its ticket too.
    ///
    /// Returns `None` as `draw` does.
    pub fn number(&self, passed: u64, ticket: Option<u64>) -> Option<(u64, u64, Log<K, V>)>
        ensures book { IfSome result (λ n. n.2.book ≡ self.now.first.book) }
        ensures drawn { IfSome result (λ n. n.0 ≤ turns 1 n.2.log) }
        ensures begun { IfSome result (λ n. n.1 ≤ n.0) }
        ensures ticket { IfSome ticket (λ t. IfSome result (λ n. n.1 ≡ t)) }
    {
        if let Some(ticket) = ticket {
            if passed < ticket {
                let (last, seen) = self.numbers.look(&self.first);
                if ticket <= last {
                    return Some((ticket, ticket, seen));
                }
            }
        }
        let (number, seen) = self.draw()?;
        let ticket = ticket.unwrap_or(number);
        // Always so, since a ticket was drawn before.
        if ticket <= number {
            Some((number, ticket, seen))
        } else {
            None
        }
    }

    /// Adds a slot without an entry to the history, and returns its track.
    pub fn begin(&self) -> Track<K, V>
        ensures book { result.word.book ≡ self.now.first.book }
    {
        let mut seen = self.first.again();
        let mut pen = seen.no_pen();
        let mut ask: Ask<K, V> = seen.plain::<GainsNothing, Count<K, V>, EntryLeaves>(&self.head);
        self.head
            .compare_exchange::<Widen, GainsNothing>(0, 0, &mut seen, &mut ask, &mut pen);
        let word = Word::tracked(1, &mut pen);
        let mut ask: Ask<K, V> = seen.plain::<GainsNothing, Count<K, V>, EntryLeaves>(&word);
        self.head
            .compare_exchange::<Begin, GainsNothing>(0, 0, &mut seen, &mut ask, &mut pen);
        Track { word, begun: seen }
    }
}
