//! How much one clause leaves at most.

use dt_cred::FRAMES;
use dt_program::{KEYS_MAX, STATEMENTS_MAX};

/// How many bytes an EPID takes in a record.
pub const EPID_SIZE: usize = 4;

/// The most bytes of a record, 516: its EPID, and what each statement records, all frames of a stack at most.
pub const RECORD_MAX: usize = EPID_SIZE + 8 * FRAMES * STATEMENTS_MAX;

/// The most values that one clause gives to aggregations, 40: the keys and a number for each statement.
pub const VALUES_MAX: usize = (KEYS_MAX + 1) * STATEMENTS_MAX;
