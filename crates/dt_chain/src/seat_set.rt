//! Sets of seats.
ghost use Rattle.std.specs.Prelude.{◌≡◌, ◌<◌, ◌/◌, ◌==◌, ◌↔◌, ℕ, true, false, MatchOption, IsTrue, if◌then◌else◌};
ghost use Rattle.dt_machine.specs.declared.bit_word.TheConstants.{WORD_BITS};

use crate::seat::{SEATS, Seat};
use dt_machine::{BitWord, WORD_BITS};

/// How many words a set of seats has.
pub(crate) const SEAT_WORDS: usize = SEATS / WORD_BITS as usize;

const _: () = prove!(SEATS == SEAT_WORDS * WORD_BITS as usize);

/// A set of seats: of 32 bytes, in the value itself.
///
/// Contracts see it as `has seats seat`: whether the seat is in the set.
#[derive(Clone, Copy)]
pub struct SeatSet {
    pub(crate) words: [BitWord; SEAT_WORDS],
}

impl SeatSet {
    ghost use Rattle.dt_chain.specs.Seats.{has};

    /// The empty set.
    pub fn new() -> Self
        ensures { (seat : ℕ) → has result seat ≡ false }
    {
        SeatSet {
            words: [BitWord::new(); SEAT_WORDS],
        }
    }

    /// Whether no seat is in it.
    pub fn is_empty(&self) -> bool
        ensures { IsTrue result ↔ ((seat : ℕ) → has self.now seat ≡ false) }
    {
        for word in 0..SEAT_WORDS {
            if !self.words[word].is_empty() {
                return false;
            }
        }
        true
    }

    /// Whether all that are in it lie in the first word.
    pub(crate) fn is_of_first_word(&self) -> bool
        ensures { IsTrue result ↔ ((seat : ℕ) → 0 < seat / WORD_BITS → has self.now seat ≡ false) }
    {
        for word in 1..SEAT_WORDS {
            if !self.words[word].is_empty() {
                return false;
            }
        }
        true
    }

    /// Whether a seat is in it.
    pub fn contains(&self, seat: Seat) -> bool
        ensures { result ≡ has self.now seat }
    {
        self.words[seat.word()].contains(seat.place())
    }

    /// Puts a seat in.
    pub fn insert(&mut self, seat: Seat)
        ensures { (other : ℕ) → has self.new other ≡ (if other == seat then true else has self.old other) }
    {
        self.words[seat.word()].insert(seat.place());
    }

    /// Takes a seat out.
    pub fn remove(&mut self, seat: Seat)
        ensures { (other : ℕ) → has self.new other ≡ (if other == seat then false else has self.old other) }
    {
        self.words[seat.word()].remove(seat.place());
    }

    /// Puts a seat in, or takes it out.
    pub(crate) fn set(&mut self, seat: Seat, is_in: bool)
        ensures { (other : ℕ) → has self.new other ≡ (if other == seat then is_in else has self.old other) }
    {
        if is_in {
            self.insert(seat);
        } else {
            self.remove(seat);
        }
    }

    /// The seat of the least number in the set.
    pub fn first(&self) -> Option<Seat>
        ensures { MatchOption result ((seat : ℕ) → has self.now seat ≡ false)
            (λ first. (has self.now first ≡ true) × ((seat : ℕ) → seat < first → has self.now seat ≡ false)) }
    {
        for word in 0..SEAT_WORDS {
            if let Some(place) = self.words[word].first() {
                return Some(Seat::at(word, place));
            }
        }
        None
    }
}
