//! How the program ends where not all went well: its line on standard error, and its status.

use std::alloc::{AllocError, AllocFailed};
use thiserror::Error;

/// Why the program ends with another status than 0. Its text is what standard error is told at last: a line, or nothing where all is told already.
#[derive(Clone, Copy, Debug, PartialEq, Eq, Error)]
pub(crate) enum Trouble {
    /// The words are none of the program's forms: status 2. Which of them is wrong is told already.
    #[error("dtr: `dtr --help` shows the forms of its words\n")]
    Words,
    /// All is told already.
    #[error("")]
    Told,
    /// What was refused is told already.
    #[error("dtr: nothing was traced\n")]
    Refused,
    /// What was refused while it traced is told already.
    #[error("dtr: tracing ended by this\n")]
    Cut,
    /// The service ended the connection, or the connection failed.
    #[error("dtr: the service went away\n")]
    Gone,
    /// The service ended the connection when it had no memory for a line: it had none for a session.
    #[error("dtr: no session: the service has no memory for one now; try again\n")]
    Unserved,
    /// A reply is none that this program knows.
    #[error("dtr: the service answered what dtr doesn't understand; are both of one version?\n")]
    Strange,
    /// The output can't be written.
    #[error("dtr: the output was closed, or can't be written\n")]
    Output,
    /// The clock can't be read.
    #[error("dtr: the clock can't be read\n")]
    Clock,
    /// Memory ran out.
    #[error("dtr: memory ran out\n")]
    Memory,
}

impl From<AllocError> for Trouble {
    fn from(_refused: AllocError) -> Trouble {
        Trouble::Memory
    }
}

impl<T: Drop> From<AllocFailed<T>> for Trouble {
    fn from(_refused: AllocFailed<T>) -> Trouble {
        Trouble::Memory
    }
}

impl Trouble {
    /// The same, where it traces already.
    pub(crate) fn in_tracing(self) -> Trouble {
        match self {
            Trouble::Refused => Trouble::Cut,
            other => other,
        }
    }

    /// The status that the program ends with.
    pub(crate) fn status(self) -> u8 {
        match self {
            Trouble::Words => 2,
            _ => 1,
        }
    }
}
