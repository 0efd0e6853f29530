//! Why a machine file is refused.
ghost use Rattle.std.specs.Prelude.{◌≡◌, None, Some};

use crate::found::Found;
use std::alloc::{AllocError, AllocFailed};
use std::fmt;
use thiserror::Error;

/// What a machine file is refused for. The causes are tested in this order, each over the whole file.
#[derive(Clone, Copy, Debug, PartialEq, Eq)]
pub enum FaultNumber {
    /// The text is no JSON, or no UTF-8.
    Json = 1,
    /// It is no object, a key is missing, or a value is of the wrong kind.
    Shape = 2,
    /// There is no processor, or there are more than [`CPUS_MAX`](crate::CPUS_MAX).
    Cpus = 3,
    /// An account that is not right, or one more than [`ACCOUNTS_MAX`](crate::ACCOUNTS_MAX).
    Account = 4,
    /// A process that is not right, or one more than [`PROCESSES_MAX`](crate::PROCESSES_MAX).
    Process = 5,
    /// A probe that is not right, or one more than [`PROBES_MAX`](crate::PROBES_MAX).
    Probe = 6,
    /// There is not one script for each processor, or one has more firings than [`SCRIPT_MAX`](crate::SCRIPT_MAX).
    Script = 7,
    /// A firing that is not right by itself.
    Firing = 8,
    /// A firing of a `pid` provider's probe in another process.
    Foreign = 9,
    /// Memory ran out.
    Memory = 10,
}

impl fmt::Display for FaultNumber {
    ghost use Rattle.std.specs.Prelude.{Some};
    ghost use Rattle.std.specs.Fmt.{decimal};
    ghost use Rattle.dt_machine.specs.Reading.{rank_of};

    ghost output = { λ number. Some (decimal (rank_of number)) };

    fn fmt<W: fmt::Write>(&self, f: &mut fmt::Formatter<W>) -> fmt::Result {
        let number = *self as u8;
        write!(f, "{number}")
    }
}

/// Why a machine file was refused, and where.
#[derive(Clone, Copy, Debug, PartialEq, Eq, Error)]
#[error("machine refused {number} at {cpu} {row}")]
pub struct MachineFault {
    /// What it is refused for.
    pub number: FaultNumber,
    /// The processor of the script, from 0 on, and 0 where none is meant.
    pub cpu: u32,
    /// The row of the section or the script, from 0 on, and 0 where none is meant.
    pub row: u32,
    /// The first key that is wrong there. `None` where no key is at fault: the text is no JSON, the file is no object, or
    /// memory ran out.
    pub found: Option<Found>,
}

impl From<AllocError> for MachineFault {
    ghost use Rattle.std.specs.Prelude.{◌≡◌, None};
    ghost use Rattle.dt_machine.specs.declared.fault.FaultNumber.TheVariants.{Memory};

    ghost from_gives = { λ _ fault. fault ≡ record { number = Memory; cpu = 0; row = 0; found = None } };

    fn from(_refused: AllocError) -> MachineFault {
        FaultNumber::Memory.nowhere()
    }
}

impl<T: Drop> From<AllocFailed<T>> for MachineFault {
    ghost use Rattle.std.specs.Prelude.{◌≡◌, None};
    ghost use Rattle.dt_machine.specs.declared.fault.FaultNumber.TheVariants.{Memory};

    ghost from_gives = { λ _ fault. fault ≡ record { number = Memory; cpu = 0; row = 0; found = None } };

    fn from(_refused: AllocFailed<T>) -> MachineFault {
        FaultNumber::Memory.nowhere()
    }
}

impl FaultNumber {
    ghost use Rattle.dt_machine.specs.declared.fault.MachineFault.{MachineFault};

    /// The fault of this number where no processor, no row and no key is meant.
    pub(crate) fn nowhere(self) -> MachineFault
        ensures { result ≡ record { number = self; cpu = 0; row = 0; found = None } }
    {
        MachineFault {
            number: self,
            cpu: 0,
            row: 0,
            found: None,
        }
    }

    /// The fault of this number at a row of a section.
    pub(crate) fn at_row(self, row: u32, found: Found) -> MachineFault
        ensures { result ≡ record { number = self; cpu = 0; row = row; found = Some found } }
    {
        MachineFault {
            number: self,
            cpu: 0,
            row,
            found: Some(found),
        }
    }
}
