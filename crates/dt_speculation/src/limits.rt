//! The limits of speculative buffers.
/// The most identifiers.
pub const NSPEC_MAX: usize = 64;

/// The fewest bytes of a part, which is an identifier's buffer of one processor.
pub const SPECSIZE_MIN: usize = 4;

/// The most bytes of a part.
pub const SPECSIZE_MAX: usize = 65_536;

/// The most processors, each of which has a part of each identifier.
pub const CPUS_MAX: usize = 64;

/// How many failed draws are counted: a `draw` wants fewer failed before it. This is 2^40.
pub const FAILS_LIMIT: u64 = 1_099_511_627_776;
