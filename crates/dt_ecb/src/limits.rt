//! How much one consumer may enable.

/// The most ECBs of one consumer.
pub const ECBS_MAX: usize = 1024;

/// The most aggregations of one consumer.
pub const AGGREGATIONS_MAX: usize = 64;
