//! The limits of stores and keys.
/// The most parts of a key.
pub const KEYS_MAX: usize = 4;

/// The most bytes that the entries of a store may cost.
pub const AGGSIZE_MAX: usize = 1_048_576;

/// How many contributions a store counts: an `add` wants fewer counted before it. This is 2^40.
pub const ADDED_LIMIT: u64 = 1_099_511_627_776;

/// The most stores that a table joins.
pub const STORES_MAX: usize = 64;

/// The least bytes that an entry costs: its head and a cell of one word.
pub(crate) const COST_MIN: usize = 16;

/// For how many aggregations, by their numbers, a store remembers an entry each: as many as a consumer has at most.
pub(crate) const RECENT_MAX: usize = 64;

/// The fewest places for texts that are remembered while a table is made. There are as many as the stores have entries, between
/// this and [`RECENT_TEXTS_MAX`].
pub(crate) const RECENT_TEXTS_MIN: usize = 16;

/// The most places for texts that are remembered while a table is made. The names of 4,096 probes and 1,024 processes mostly have
/// places of their own then.
pub(crate) const RECENT_TEXTS_MAX: usize = 65_536;
