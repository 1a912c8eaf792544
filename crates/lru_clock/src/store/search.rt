//! A search for a key in the index, under the lock.
ghost use Rattle.std.specs.Prelude.{◌≡◌, ◌<◌, false, IsTrue, IsFalse};
ghost use Rattle.lru_clock.specs.Seats.{IsIndex};
ghost use Rattle.lru_clock.specs.Searches.{Searches, SeatHas, SeatLacks};

use crate::index::{Words, past_place, tag_of};
use crate::store::seat::Seat;
use concurrent_lru::linear_probing::{home_of, next_of};

/// The result of a search.
pub enum Search {
    /// The place of the key's entry.
    Found(u32),
    /// The position where a new word of the key's tag would be put.
    Empty(usize),
}

// Returns whether the seat of a place has a copy of a key.
fn has_key<K: Eq>(seats: &[Seat<K>], place: u32, key: &K) -> bool
    ensures yes { IsTrue result → SeatHas K.eq seats.now place key.now }
    ensures no { IsFalse result → SeatLacks K.eq seats.now place key.now }
{
    match seats.get(place as usize) {
        Some(seat) => match seat.key() {
            Some(key_copy) => *key_copy == *key,
            None => false,
        },
        None => false,
    }
}

/// Searches for the entry of a key whose hash has the tag.
pub fn find_key<K: Eq>(words: &mut Words, seats: &[Seat<K>], tag: u32, key: &K) -> Search
    requires { IsIndex K.eq seats.now words.old }
    ensures same { words.new ≡ words.old }
    ensures found { Searches K.eq seats.now words.old tag key.now result }
{
    let count = words.count();
    let mut at = home_of(count, tag as u64);
    loop {
        let word = words.get(at);
        if word == 0 {
            return Search::Empty(at);
        }
        if tag_of(word) == tag {
            let place = past_place(word).wrapping_sub(1);
            if has_key(seats, place, key) {
                return Search::Found(place);
            }
        }
        at = next_of(count, at);
    }
}
