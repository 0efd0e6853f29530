//! Why a text is no pattern.

use thiserror::Error;

/// The first fault, from the left, of a text that is no pattern.
#[derive(Clone, Copy, Debug, PartialEq, Eq, Error)]
pub enum GlobFault {
    /// A set, begun by a `[`, has no `]`: found at the text's end.
    #[error("a set has no `]`")]
    Unclosed,
    /// A set has no element, as in `[]` and `[!]`: found at its `]`.
    #[error("a set has no element")]
    EmptySet,
    /// Nothing stands after a `\`: found at that `\`, the last byte of the text, inside a set or outside.
    #[error("a `\\` has no byte after it")]
    LoneEscape,
}
