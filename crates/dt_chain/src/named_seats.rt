//! How one goes over the seats that a mask names.
ghost use Rattle.std.specs.Prelude.{◌≡◌, ◌<◌, ◌≤◌, ◌==◌, ◌/◌, ℕ, None, Some, MatchOption, false, if◌then◌else◌};
ghost use Rattle.dt_chain.specs.declared.seat_set.TheConstants.{SEAT_WORDS};
ghost use Rattle.dt_chain.specs.Seats.{has};
ghost use Rattle.dt_machine.specs.declared.bit_word.TheConstants.{WORD_BITS};

use crate::seat::Seat;
use crate::seat_mask::SeatMask;
use crate::seat_set::SEAT_WORDS;
use dt_machine::BitWord;

/// The seats that a mask names, each with its life, in order of the seats. The mask stays as it is.
///
/// Contracts see it as `life_left named seat`: the life that a seat is named with, if the seat is still to come.
#[derive(Drop)]
pub struct NamedSeats<'a> {
    pub(crate) mask: &'a SeatMask,
    /// The word of the mask that one is at.
    pub(crate) word: usize,
    /// What is still to come of it: of the words after it all is.
    pub(crate) left: BitWord,
    ghost there: { word < SEAT_WORDS },
    ghost all: { (seat : ℕ) → SEAT_WORDS ≤ seat / WORD_BITS → has mask.now.seats seat ≡ false },
}

impl NamedSeats<'_> {
    ghost use Rattle.dt_chain.specs.Named.{life_left};
    ghost use Rattle.dt_machine.specs.BitWord.{has_bit};

    /// Takes out the seat of the least number that is still to come, with its life. `None`: no seat is left.
    pub fn pop_first(&mut self) -> Option<(Seat, u64)>
        ensures { MatchOption result (((seat : ℕ) → life_left self.old seat ≡ None) × ((seat : ℕ) → life_left self.new seat ≡ None))
            (λ first. (life_left self.old first.0 ≡ Some first.1)
            × ((seat : ℕ) → seat < first.0 → life_left self.old seat ≡ None)
            × ((seat : ℕ) → life_left self.new seat ≡ (if seat == first.0 then None else life_left self.old seat))) }
    {
        self.turn();
        let place = self.left.first()?;
        self.left.remove(place);
        let seat = Seat::at(self.word, place);
        Some((seat, self.mask.lives[seat.number() as usize]))
    }

    /// Goes on to the first word of which a seat is left. Where none is left it goes on to the last, or stays. The seats that are still to come stay the same.
    fn turn(&mut self)
        ensures same { (seat : ℕ) → life_left self.new seat ≡ life_left self.old seat }
        ensures none { ((place : ℕ) → has_bit self.new.left place ≡ false) → (seat : ℕ) → life_left self.new seat ≡ None }
    {
        if !self.left.is_empty() {
            return;
        }
        // a few sessions are all at seats of the first word: then no other is gone over
        if self.mask.seats.is_of_first_word() {
            return;
        }
        for word in self.word + 1..SEAT_WORDS {
            self.word = word;
            self.left = self.mask.seats.words[word];
            if !self.left.is_empty() {
                return;
            }
        }
    }
}
