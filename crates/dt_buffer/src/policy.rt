//! How a buffer keeps records, and what it says of one.
/// How a buffer keeps records. (illumos Dynamic Tracing Guide, "Buffers and Buffering".)
#[derive(Clone, Copy, Debug, PartialEq, Eq)]
pub enum Policy {
    /// A record is kept if it fits after those kept since the last swap; else it is dropped and counted.
    Switch,
    /// Records are kept until one doesn't fit; from then on the buffer is filled and keeps nothing more.
    Fill,
    /// The newest records are kept, as many as fit; older ones are overwritten.
    Ring,
}

/// What became of a record.
#[derive(Clone, Copy, Debug, PartialEq, Eq)]
pub enum Put {
    /// The buffer keeps it.
    Kept,
    /// It was dropped and counted.
    Dropped,
    /// It wasn't kept. The buffer's policy is fill, and such a record isn't counted.
    Filled,
}
