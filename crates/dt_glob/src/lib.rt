//! Patterns over short texts of bytes, as a tracing request uses them to name many probes at once.
//!
//! A text of at most 63 bytes is a pattern or has one fault, never both, and reading it takes no memory
//! (`Pattern::parse`). A pattern matches a text exactly when the text can be cut into pieces that the pattern's items
//! match in order (`Pattern::matches`). A pattern that is made ready once (`Matcher`) tells so of each text in a few steps for
//! a byte of the text.
//! The relation of pattern and text has a test beside it, by which definitions of other crates can filter lists, and
//! the two always agree (`tests_agree`).
//! Where the definitions stand: `specs/Sign.antt` for the bytes of a pattern's text, `specs/PatternItem.antt` for items,
//! `specs/Spells.antt` for what a text spells, `specs/Fault.antt` for its first fault, `specs/Matches.antt`, and
//! `specs/Test.antt` for the test.
#![tactic(auto)]

mod element;
mod fault;
mod limit_laws;
mod matcher;
mod pattern;
mod place;
mod sign;
mod token;

pub use fault::GlobFault;
pub use limit_laws::limits_agree;
pub use matcher::Matcher;
pub use pattern::{PATTERN_MAX, Pattern, one_answer, tests_agree};
