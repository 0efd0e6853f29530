//! Rows of tables.
use crate::key::KeyPart;
use crate::limits::KEYS_MAX;
use arrayvec::ArrayVec;
use dt_aggfn::CellAnswer;

/// The key of a row. Numbers lie in the row itself, since a table may have millions of those; a key with a text has its parts
/// apart.
#[derive(Drop)]
pub enum RowKey {
    /// All parts are numbers, or there is none.
    Numbers(ArrayVec<i64, KEYS_MAX>),
    /// Parts of any kinds.
    Parts(Vec<KeyPart>),
}

/// A row of a table: a key, and what the aggregation's function makes of all its values.
#[derive(Drop)]
pub struct Row {
    pub key: RowKey,
    pub value: CellAnswer,
}
