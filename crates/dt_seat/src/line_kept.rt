//! A line that a session asked.

use dt_trail::Item;

/// A line of a session's own, with its place in the trail, whose cell doesn't say the line's bytes.
#[derive(Drop)]
pub(crate) struct LineKept {
    pub(crate) place: u64,
    pub(crate) item: Item,
}
