//! What a firing came to at a seat.
ghost use Rattle.std.specs.Prelude.{◌≡◌};
ghost use Rattle.dt_hub.specs.Processors.{offered_as};

use dt_seat::Held;

/// What a firing came to at a seat.
#[derive(Clone, Copy, Debug, PartialEq, Eq)]
pub enum Offered {
    /// No life of the seat was named, and nothing was offered there.
    NotNamed,
    /// The session there saw it: it is the last item of its trail that the processor knows.
    Kept,
    /// The session there didn't see it. The processor then knows so many items of its trail.
    Unseen { known: u64 },
    /// The life that was named isn't there any more.
    Gone,
}

impl Offered {
    /// What an offer came to.
    pub(crate) fn of(held: Held) -> Offered
        ensures { result ≡ offered_as held }
    {
        match held {
            Held::Kept => Offered::Kept,
            Held::Unseen { known } => Offered::Unseen { known },
            Held::Gone => Offered::Gone,
        }
    }
}
