//! What comes of a firing at a seat.

/// What comes of a firing that a processor offers to a life at a seat.
#[derive(Clone, Copy, Debug, PartialEq, Eq)]
pub enum Held {
    /// The life's consumer saw it, and it is the last item of the trail.
    Kept,
    /// The life's consumer didn't see it. The processor then knows so many items of the trail.
    Unseen { known: u64 },
    /// The life isn't there.
    Gone,
}
