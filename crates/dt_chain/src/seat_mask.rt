//! The seats that a look names.
ghost use Rattle.std.specs.Prelude.{◌≡◌, ◌<◌, ◌==◌, ◌↔◌, ℕ, Some, None, IsTrue, MatchOption, is_some, if◌then◌else◌};

use crate::named_seats::NamedSeats;
use crate::seat::{SEATS, Seat};
use crate::seat_set::SeatSet;

/// Some seats, each with the number of the life that it is named for. It lies in the value itself, which is of 2 KB: so a
/// look fills one that is lent (`Entries::look_into`), [`SeatMask::seats`] tells which are named, and [`SeatMask::named`] goes over them with their lives.
///
/// Contracts see it as `life_at mask seat`: the life that a seat is named with, if it is named.
#[derive(Clone, Copy)]
pub struct SeatMask {
    pub(crate) seats: SeatSet,
    pub(crate) lives: [u64; SEATS],
}

impl SeatMask {
    ghost use Rattle.dt_chain.specs.Seats.{has, life_at};
    ghost use Rattle.dt_chain.specs.Named.{life_left};

    /// A mask that names no seat.
    pub fn new() -> Self
        ensures { (seat : ℕ) → life_at result seat ≡ None }
    {
        SeatMask {
            seats: SeatSet::new(),
            lives: [0; SEATS],
        }
    }

    /// Names no seat any more.
    pub fn clear(&mut self)
        ensures { (seat : ℕ) → life_at self.new seat ≡ None }
    {
        // the lives stay where they are, and mean nothing there
        self.seats = SeatSet::new();
    }

    /// The seats that are named.
    pub fn seats(&self) -> SeatSet
        ensures { (seat : ℕ) → has result seat ≡ is_some (life_at self.now seat) }
    {
        self.seats
    }

    /// The seats that are named, each with its life, to go over them.
    pub fn named(&self) -> NamedSeats<'_>
        ensures { (seat : ℕ) → life_left result seat ≡ life_at self.now seat }
    {
        NamedSeats {
            mask: self,
            word: 0,
            left: self.seats.words[0],
        }
    }

    /// Names a seat no more.
    pub fn remove(&mut self, seat: Seat)
        ensures { (other : ℕ) → life_at self.new other ≡ (if other == seat then None else life_at self.old other) }
    {
        // its life stays where it was, and means nothing there while the seat isn't named
        self.seats.remove(seat);
    }

    /// The number of the life that a seat is named with, or `None` where it is not named.
    pub fn life_of(&self, seat: Seat) -> Option<u64>
        ensures { result ≡ life_at self.now seat }
    {
        if self.seats.contains(seat) {
            Some(self.lives[seat.number() as usize])
        } else {
            None
        }
    }

    /// The seat of the least number that is named, with its life.
    pub fn first(&self) -> Option<(Seat, u64)>
        ensures { MatchOption result ((seat : ℕ) → life_at self.now seat ≡ None)
            (λ first. (life_at self.now first.0 ≡ Some first.1)
            × ((seat : ℕ) → seat < first.0 → life_at self.now seat ≡ None)) }
    {
        let seat = self.seats.first()?;
        Some((seat, self.lives[seat.number() as usize]))
    }

    /// Whether no seat is named.
    pub fn is_empty(&self) -> bool
        ensures { IsTrue result ↔ ((seat : ℕ) → life_at self.now seat ≡ None) }
    {
        self.seats.is_empty()
    }
}
