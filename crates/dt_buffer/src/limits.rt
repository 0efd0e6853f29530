//! The limits of a principal buffer.
/// The most bytes that a buffer may have room for.
pub const SIZE_MAX: usize = 1_048_576;

/// How many drops a buffer counts: a `put` wants fewer counted before it. This is 2^40.
pub const DROPS_LIMIT: u64 = 1_099_511_627_776;
