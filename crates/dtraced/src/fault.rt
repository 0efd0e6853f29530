//! How the program ends where not all is in good order: its line on standard error, and its status.
ghost use Rattle.std.specs.Prelude.{◌≡◌};
ghost use Rattle.dtraced.specs.Status.{status_found};

use dt_alone::{CheckFault, Verdict};
use dt_machine::MachineFault;
use dt_world::ReplayFault;
use std::io;
use thiserror::Error;

/// Why the program ends with another status than 0. Its text is the line on standard error.
#[derive(Clone, Copy, Debug, PartialEq, Eq, Error)]
pub enum Fault {
    /// The words are none of the program's forms: status 2.
    #[error("usage")]
    Usage,
    /// A file or a stream failed, or memory ran out: status 1.
    #[error("fault")]
    Device,
    /// The machine file or the input is refused, a stream failed, or memory ran out: status 1.
    #[error("{0}")]
    Replay(ReplayFault),
    /// The machine file of a check is refused: status 1.
    #[error("{0}")]
    Machine(MachineFault),
    /// The trail text is refused, or memory ran out: status 1.
    #[error("{0}")]
    Check(CheckFault),
}

impl Fault {
    ghost use Rattle.std.specs.IoError.{error_kind};
    ghost use Rattle.dtraced.specs.Status.{fault_of_words, status_of};

    /// The status that the program ends with.
    pub fn status(self) -> u8
        ensures { result ≡ status_of self }
    {
        match self {
            Fault::Usage => 2,
            Fault::Device | Fault::Replay(_) | Fault::Machine(_) | Fault::Check(_) => 1,
        }
    }

    /// The fault where the words can't be had: words that aren't UTF-8 are words of no form, any other fault is that of a
    /// device.
    pub fn of_words(error: &io::Error) -> Self
        ensures { result ≡ fault_of_words (error_kind error.now) }
    {
        match error.kind() {
            io::ErrorKind::InvalidData => Fault::Usage,
            _ => Fault::Device,
        }
    }
}

/// The status that the program ends with after a check that found this: 0 where the trail agrees.
pub fn status_found(verdict: Verdict) -> u8
    ensures { result ≡ status_found verdict }
{
    match verdict {
        Verdict::Agree(_) => 0,
        Verdict::Differs(_) | Verdict::Illegal(_) => 1,
    }
}
