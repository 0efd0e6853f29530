//! The limits of thread-local variables.
/// The fewest bytes of room that a consumer may ask for: a single variable's.
pub const DYNVARSIZE_MIN: usize = 32;

/// The most bytes of room.
pub const DYNVARSIZE_MAX: usize = 1_048_576;

/// How many bytes of the room a variable costs that isn't 0.
pub const LOCAL_SIZE: usize = 32;

/// How many drops are counted: a `set` wants fewer counted before it. This is 2^40.
pub const LOCAL_DROPS_LIMIT: u64 = 1_099_511_627_776;
