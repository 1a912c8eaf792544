//! What holds of the order, whatever the looks at slots found. Nothing here runs: each contract
//! holds for all that it names.
ghost use Rattle.std.specs.Prelude.{◌≡◌, ◌≢◌, ℕ, ◌+◌, ◌*◌, ◌/◌, ◌<◌, List, [], length, true, false};
ghost use Rattle.lru_clock.specs.Seats.{Seat as Seat_};
ghost use Rattle.lru_clock.specs.Bits.{has_bit, with_bit, without_bit};
ghost use Rattle.lru_clock.specs.Orders.{OrderOf};
ghost use Rattle.lru_clock.specs.Looks.{chances_taken, times_pinned};
ghost use Rattle.lru_clock.specs.Evictions.{evict, none_left, places_of, Stops, UsesAtMost};
ghost use Rattle.lru_clock.specs.declared.order.Looked.{Looked as Looked_};

/// An entry leaves only after a look at its place that found it unused, which is the last look that
/// is made. So an entry that somebody has pinned never leaves.
pub fn only_unused_leave<K>()
    ensures { (seats : List (Seat_ K)) (o : OrderOf) (looks : List Looked_)
        → Stops looks (evict seats o looks) }
{}

/// An eviction makes at most ten looks for each place.
pub fn looks_are_bounded<K>()
    ensures { (seats : List (Seat_ K)) (o : OrderOf) (looks : List Looked_)
        → UsesAtMost (2 * places_of seats + 4 * places_of seats + 4 * places_of seats) looks
        (evict seats o looks) }
{}

/// An eviction leaves all entries only if at each place a look found no entry, or one that somebody
/// had pinned or changed meanwhile (`Look::Pinned`), or four looks took a chance. In the last case
/// somebody used the entry between these, since it has at most three chances.
pub fn all_are_in_use<K>()
    ensures { (seats : List (Seat_ K)) (o after : OrderOf) (looks : List Looked_) (p : ℕ)
        → evict seats o looks ≡ none_left after [] → p < places_of seats
        → chances_taken p looks < 4 → 0 < times_pinned p looks }
{}

/// The bit of a place is set and cleared alone.
pub fn bits_change_alone()
    ensures set { (words : List ℕ) (p : ℕ) → p / 64 < length words
        → has_bit (with_bit words p) p ≡ true }
    ensures cleared { (words : List ℕ) (p : ℕ) → p / 64 < length words
        → has_bit (without_bit words p) p ≡ false }
    ensures other_set { (words : List ℕ) (p q : ℕ) → p / 64 < length words → q ≢ p
        → has_bit (with_bit words p) q ≡ has_bit words q }
    ensures other_cleared { (words : List ℕ) (p q : ℕ) → p / 64 < length words → q ≢ p
        → has_bit (without_bit words p) q ≡ has_bit words q }
{}
