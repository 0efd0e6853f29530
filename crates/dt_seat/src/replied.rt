//! What a line came to, where there was memory.

use crate::after_line::AfterLine;

/// What a line is answered, and whether the session goes on after it.
#[derive(Debug, Drop)]
pub struct Replied {
    /// The text of the reply, with its newline.
    pub text: Vec<u8>,
    /// Whether the session goes on.
    pub ending: AfterLine,
}
