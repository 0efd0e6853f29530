//! Seats, on each of which one consumer traces.
ghost use Rattle.std.specs.Prelude.{◌≡◌, ◌<◌, ◌+◌, ◌*◌, ◌/◌, ◌%◌, SomeIff};
ghost use Rattle.dt_chain.specs.declared.seat_set.TheConstants.{SEAT_WORDS};
ghost use Rattle.dt_machine.specs.declared.bit_word.TheConstants.{WORD_BITS};

use dt_machine::WORD_BITS;
use std::marker::Model;

/// How many seats there are. They are numbered from 0 on.
pub const SEATS: usize = 256;

/// One of the [`SEATS`] seats. Contracts see it as its number.
#[derive(Clone, Copy, PartialEq, Eq)]
pub struct Seat {
    number: u32,
}

impl Model for Seat {
    ghost use Rattle.std.specs.Prelude.{ℕ, ◌<◌};
    ghost use Rattle.dt_chain.specs.declared.seat.TheConstants.{SEATS};

    ghost Value = { ℕ };

    ghost view = { λ seat. seat.number };

    ghost invariant = { λ seat. seat.number < SEATS };

    ghost inverse = { λ number. record { number = number } };
}

impl Seat {
    /// The seat of a number, or `None` where there are not so many.
    pub fn new(number: u32) -> Option<Seat>
        ensures { SomeIff result (number < SEATS) number }
    {
        if (number as usize) < SEATS {
            Some(Seat { number })
        } else {
            None
        }
    }

    /// Its number, which is below [`SEATS`].
    pub fn number(self) -> u32
        ensures value { result ≡ self }
        ensures small { result < SEATS }
    {
        self.number
    }
    /// The seat at a place of a word of a set.
    pub(crate) fn at(word: usize, place: u32) -> Seat
        requires word { word < SEAT_WORDS }
        requires place { place < WORD_BITS }
        ensures { result ≡ word * WORD_BITS + place }
    {
        Seat {
            number: word as u32 * WORD_BITS + place,
        }
    }

    /// The word of a set in which it lies.
    pub(crate) fn word(self) -> usize
        ensures value { result ≡ self / WORD_BITS }
        ensures small { result < SEAT_WORDS }
    {
        (self.number / WORD_BITS) as usize
    }

    /// Its place in that word.
    pub(crate) fn place(self) -> u32
        ensures value { result ≡ self % WORD_BITS }
        ensures small { result < WORD_BITS }
    {
        self.number % WORD_BITS
    }
}
