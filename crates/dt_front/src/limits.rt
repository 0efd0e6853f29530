//! The widths of what is printed, by name. The definitions have their own in `specs/Limits.antt`; the law `limits_agree` says that both are the same.

/// How many columns the longest bar has at most.
pub(crate) const BAR_MAX: usize = 40;

/// How many columns the longest bar has at least: those of the word above it.
pub(crate) const BAR_MIN: usize = 14;

/// How many columns a line has beside its bar, where its count has seven digits.
pub(crate) const BESIDE_BAR: usize = 26;

/// How many columns the rows' names have in a picture.
pub(crate) const LABEL_WIDTH: usize = 16;

/// How many columns the names of probes have at most in the rows of records.
pub(crate) const NAMES_MAX: usize = 32;

/// How many columns the names of probes have at least in the rows of records.
pub(crate) const NAMES_MIN: usize = 20;

/// How many columns a row leaves to what stands beside the name of its probe, where the page is narrow.
pub(crate) const BESIDE_NAMES: usize = 20;

/// The least width of a page on which each name of a probe has a column in the table of probes.
pub(crate) const TABLE_WIDTH: usize = 80;
