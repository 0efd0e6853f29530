//! What is said of a record.
/// What became of a record.
#[derive(Clone, Copy, Debug, PartialEq, Eq)]
pub enum SpecPut {
    /// The part keeps it.
    Kept,
    /// It doesn't fit after those that the part keeps, and was dropped. It isn't counted.
    Dropped,
    /// The identifier isn't in use: the record went nowhere.
    Unknown,
}
