//! What a cell answers.

/// What a cell answers: a number, or the rows that count something, by rising row.
#[derive(Drop)]
pub enum CellAnswer {
    Number(i64),
    Rows(Vec<CountedRow>),
}

/// A row with how many values it counts, which are some.
#[derive(Clone, Copy, Debug, PartialEq, Eq)]
pub struct CountedRow {
    /// The row's name: for `quantize` 0, 2^n or -2^n; for `lquantize` the least value of the level, `None` for the
    /// row below all levels, and the upper bound for the row from there on.
    pub least: Option<i64>,
    pub count: u64,
}
