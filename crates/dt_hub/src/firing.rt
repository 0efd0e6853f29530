//! What a processor's call to fire comes to.

/// What a processor's call to fire comes to.
#[derive(Clone, Copy, Debug, PartialEq, Eq)]
pub enum Fired {
    /// Its script has no more firings.
    End,
    /// The chains gave no entry. Nothing that the processor knows has changed, and it may try again.
    Refused,
    /// It made the firing at this place of its script. What it came to at each seat, the processor's token tells.
    At(u32),
}
