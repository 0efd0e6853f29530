//! Which seats a firing missed.
ghost use Rattle.std.specs.Prelude.{◌≡◌, ◌==◌, ℕ, true, false, MatchOption, if◌then◌else◌};
ghost use Rattle.dt_chain.specs.Seats.{has};

use dt_chain::{Seat, SeatSet};

/// The seats that a firing missed, as others had their locks. Few miss any: the set is made at the first, and its room serves again, firing after firing.
///
/// Contracts see it as `missed_in missed seat`: whether the seat was missed.
#[derive(Clone, Copy)]
pub(crate) struct MissedSeats {
    /// Whether some were. Where none was, what lies in the set means nothing.
    pub(crate) some: bool,
    pub(crate) seats: SeatSet,
}

impl MissedSeats {
    ghost use Rattle.dt_hub.specs.Offering.{missed_in};

    /// No seat was missed.
    pub(crate) fn new() -> MissedSeats
        ensures { (seat : ℕ) → missed_in result seat ≡ false }
    {
        MissedSeats {
            some: false,
            seats: SeatSet::new(),
        }
    }

    /// Forgets those of the firing before.
    pub(crate) fn clear(&mut self)
        ensures { (seat : ℕ) → missed_in self.new seat ≡ false }
    {
        self.some = false;
    }

    /// Notes that a seat was missed.
    #[cold]
    pub(crate) fn add(&mut self, seat: Seat)
        ensures { (other : ℕ) → missed_in self.new other ≡ (if other == seat then true else missed_in self.old other) }
    {
        if !self.some {
            self.seats = SeatSet::new();
            self.some = true;
        }
        self.seats.insert(seat);
    }

    /// The seats that were missed, if some were.
    pub(crate) fn seats(&self) -> Option<SeatSet>
        ensures { MatchOption result ((seat : ℕ) → missed_in self.now seat ≡ false)
            (λ seats. (seat : ℕ) → has seats seat ≡ missed_in self.now seat) }
    {
        if self.some { Some(self.seats) } else { None }
    }
}
