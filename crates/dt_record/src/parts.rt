//! What a clause leaves.

use crate::limits::{RECORD_MAX, VALUES_MAX};
use arrayvec::ArrayVec;
use dt_expr::Value;
use dt_program::STATEMENTS_MAX;

/// How a speculation ends, with its identifier. Where that isn't in use, nothing happens.
#[derive(Clone, Copy, Debug, PartialEq, Eq)]
pub enum SpecEnd {
    /// Its records go to the principal buffers.
    Commit(u64),
    /// Its records are thrown away.
    Discard(u64),
}

impl Default for SpecEnd {
    /// The end of none.
    fn default() -> Self {
        SpecEnd::Discard(0)
    }
}

/// What a clause that was taken leaves.
#[derive(Drop)]
pub struct Taken {
    /// The bytes of its record, where it leaves one: the EPID in four bytes, and then what its statements record, in order.
    pub bytes: Option<ArrayVec<u8, RECORD_MAX>>,
    /// To which identifier's speculation the record goes, where it goes to one.
    pub spec: Option<u64>,
    /// For each aggregating statement, in order: the values of its keys, and then the number that it gives (0 of `count`).
    pub values: ArrayVec<Value, VALUES_MAX>,
    /// The speculations that it ends, in order.
    pub ends: ArrayVec<SpecEnd, STATEMENTS_MAX>,
    /// The status of the first `exit`.
    pub exit: Option<i64>,
}
