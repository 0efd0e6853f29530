//! Why no session is opened.

use std::alloc::AllocError;
use thiserror::Error;

/// Why no session is opened. Nothing has changed.
#[derive(Clone, Copy, Debug, Error, PartialEq, Eq)]
pub enum OpenFault {
    /// There is no account of this name, or it has no dtrace privilege.
    #[error("the account may not trace")]
    NoPrivilege,
    /// No seat is free.
    #[error("no seat is free")]
    Full,
    /// Out of memory.
    #[error("out of memory")]
    Memory,
}

impl From<AllocError> for OpenFault {
    ghost use Rattle.std.specs.Prelude.{◌≡◌};
    ghost use Rattle.dt_hub.specs.declared.fault.OpenFault.TheVariants.{Memory as OutOfMemory};

    ghost from_gives = { λ _ fault. fault ≡ OutOfMemory };

    fn from(_error: AllocError) -> Self {
        OpenFault::Memory
    }
}
