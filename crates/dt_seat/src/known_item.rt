//! What a session knows at a place of its trail.

/// What a session knows at a place of its trail.
#[derive(Clone, Copy, Debug, PartialEq, Eq)]
pub enum KnownItem {
    /// A line of its own, by its number among these, from 0 on: [`Session::line`](crate::Session::line) lends it.
    Line(usize),
    /// A firing, by its processor and its place in that processor's script, both from 0 on.
    Fired { cpu: u32, place: u32 },
}
