//! Records with their values.

use dt_names::PADDED_SIZE;

/// A value of a record.
#[derive(Drop)]
pub enum Recorded {
    /// A number.
    Number(i64),
    /// A text with the zeros after it.
    Text([u8; PADDED_SIZE]),
    /// The frames of a stack, as many as the layout says.
    Frames(Vec<u64>),
}

/// A record, read back from its bytes.
#[derive(Drop)]
pub struct Record {
    /// The number of the enabling that left it.
    pub epid: u32,
    /// What its clause recorded, in order.
    pub values: Vec<Recorded>,
}
