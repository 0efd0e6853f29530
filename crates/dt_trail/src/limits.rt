//! The limits of a trail.

/// Processors whose firings an item can name are numbered from 0 to one less.
pub const TRAIL_CPUS_MAX: u32 = 64;

/// A block of a trail has fewer cells than this.
pub const BLOCK_CELLS_MAX: u64 = 1 << 40;

/// How often a trail can be widened.
pub const WIDENINGS_MAX: u64 = 31;

/// How many cells a session's trail has as it is opened: a history of 65,536 firings, and 1,024 lines.
pub const TRAIL_CELLS: u64 = 66_560;

/// How many cells a session's trail is widened by.
pub const BLOCK_CELLS: u64 = 65_536;

/// How many cells a session's longest trail has: a history of 1,048,576 firings, and 1,024 lines.
pub const TRAIL_CELLS_MAX: u64 = 1_049_600;

/// So many cells are read ahead at once, each time that so many were set: they lie on [`AHEAD_LINES`] cache lines of 64 bytes. No contract speaks of it.
pub(crate) const AHEAD_CELLS: u64 = AHEAD_LINES * LINE_CELLS;

pub(crate) const AHEAD_LINES: u64 = 16;

/// How many cells lie on a cache line.
pub(crate) const LINE_CELLS: u64 = 4;
