//! How a session's service ends.

/// How a session's service ends. In every case the session is closed.
#[derive(Clone, Copy, Debug, PartialEq, Eq)]
pub enum Ended {
    /// A `close` was accepted, and its reply was written.
    Closed,
    /// A line was over the quota; its refusal was written.
    Quota,
    /// The client's bytes came to their end, and each whole line of them was answered.
    EndOfInput,
    /// A read failed. Each whole line that was read was answered.
    ReadFault,
    /// A write failed. A beginning of the replies was written.
    WriteFault,
    /// There was no memory for the line buffer. Nothing was read or written.
    Memory,
}
