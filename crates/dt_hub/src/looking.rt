//! What a processor's look comes to.

use dt_chain::SeatMask;

/// What a processor's look comes to.
#[derive(Clone, Copy)]
pub enum Looked {
    /// Its script has no more firings.
    End,
    /// The chains gave no entry, and nothing has changed.
    Refused,
    /// The place of its next firing, and the seats and lives that it would be offered to.
    At { place: u32, mask: SeatMask },
}
