//! The limits of a replay.

/// The most reads of an input: after so many it counts as one that fails.
pub(crate) const READS_MAX: u64 = 1 << 28;
