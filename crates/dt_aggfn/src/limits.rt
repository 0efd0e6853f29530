//! The limits of cells and bags.

/// The most levels of an `lquantize`.
pub const LEVELS_MAX: u64 = 512;

/// The most words of a cell: an `lquantize` has a row below its levels and a row from its upper bound on.
pub const CELL_WORDS_MAX: usize = 514;

/// The greatest power of two that names a row of `quantize`: 2^62.
pub const GREATEST_POWER: u32 = 62;

/// The rows of `quantize`: 0, and the powers of two and their opposites.
pub const QUANTIZE_ROWS: usize = 127;

/// A bag to which a value is added, or that is merged, has fewer values than this, so that no count wraps. This is
/// 2^62.
pub const BAG_LIMIT: u64 = 4_611_686_018_427_387_904;
