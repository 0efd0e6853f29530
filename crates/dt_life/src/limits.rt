//! The crate's limits, by name. The definitions have their own in `specs/Limits.antt`; the law `limits_agree` says that both are the same.

/// The most lines of one session.
pub const LINES_MAX: u32 = 1024;

/// How many bytes a principal buffer has where no option says otherwise. The most are dt_buffer's `SIZE_MAX`.
pub const BUFFER_SIZE: usize = 65_536;

/// The fewest bytes that `bufsize` may ask for.
pub const BUFFER_SIZE_MIN: usize = 1;

/// How many bytes the entries of aggregations may cost on each processor where no option says otherwise. The most are
/// dt_aggstore's `AGGSIZE_MAX`.
pub const AGGSIZE: usize = 65_536;

/// The fewest bytes that `aggsize` may ask for.
pub const AGGSIZE_MIN: usize = 8;

/// After how many seen firings tracing ends, where no option says otherwise.
pub const HISTORY: u32 = 4_096;

/// The fewest firings that `histsize` may ask for.
pub const HISTORY_MIN: u32 = 1;

/// The most firings that `histsize` may ask for.
pub const HISTORY_MAX: u32 = 1_048_576;

/// How many bytes the thread-local variables that aren't 0 may cost, where no option says otherwise. The fewest and the most are
/// dt_locals's `DYNVARSIZE_MIN` and `DYNVARSIZE_MAX`.
pub const DYNVARSIZE: usize = 65_536;

/// How many speculations there may be where no option says otherwise. The most are dt_speculation's `NSPEC_MAX`.
pub const NSPEC: usize = 1;

/// The fewest speculations that `nspec` may ask for.
pub const NSPEC_MIN: usize = 1;

/// How many bytes a speculation has on each processor where no option says otherwise. The fewest and the most are
/// dt_speculation's `SPECSIZE_MIN` and `SPECSIZE_MAX`.
pub const SPECSIZE: usize = 4_096;

/// The identifier of the probe that fires as tracing begins.
pub const BEGIN: u32 = 1;

/// The identifier of the probe that fires as tracing ends.
pub const END: u32 = 2;
