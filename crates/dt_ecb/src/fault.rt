//! Why a program is not enabled.
ghost use Rattle.std.specs.Prelude.{◌≡◌};
ghost use Rattle.dt_ecb.specs.Fault.{action_word};
ghost use Rattle.dt_ecb.specs.declared.fault.EnableFault.TheVariants.{Memory};

use dt_names::ShortText;
use std::alloc::{AllocError, AllocFailed};
use std::fmt;
use thiserror::Error;

/// An action that wants a privilege of its own.
#[derive(Clone, Copy, Debug, PartialEq, Eq)]
pub enum RestrictedAction {
    /// `stack` shows the kernel, and wants dtrace_kernel. (illumos Dynamic Tracing Guide, "Security".)
    Stack,
}

impl RestrictedAction {
    /// The action's name in programs, as replies carry it.
    pub fn word(self) -> &'static str
        ensures { result.now ≡ action_word self }
    {
        match self {
            RestrictedAction::Stack => "stack",
        }
    }
}

impl fmt::Display for RestrictedAction {
    ghost use Rattle.std.specs.Prelude.{Some};
    ghost use Rattle.dt_ecb.specs.Fault.{action_word};

    ghost output = { λ action. Some (action_word action) };

    fn fmt<W: fmt::Write>(&self, f: &mut fmt::Formatter<W>) -> fmt::Result {
        f.write_str(self.word())
    }
}

/// Why a program was not enabled: the first of these that holds, in this order, and memory at any point.
#[derive(Clone, Copy, PartialEq, Eq, Error)]
pub enum EnableFault {
    /// A clause has an action that the account has no right to: the first such clause, counted from 1.
    #[error("clause {clause}: no privilege for {what}")]
    Privilege { clause: u32, what: RestrictedAction },
    /// An aggregation is used in two ways: the name of the first use that differs from an earlier one.
    #[error("an aggregation is used in two ways")]
    AggClash { what: ShortText },
    /// A clause takes effect on no probe: the first such clause, counted from 1.
    #[error("clause {clause} matches no probe")]
    NoMatch { clause: u32 },
    /// The consumer would have more than [`ECBS_MAX`](crate::ECBS_MAX) ECBs or
    /// [`AGGREGATIONS_MAX`](crate::AGGREGATIONS_MAX) aggregations.
    #[error("more than one consumer may have")]
    Limit,
    /// Memory ran out.
    #[error("out of memory")]
    Memory,
}

impl fmt::Debug for EnableFault {
    fn fmt<W: fmt::Write>(&self, f: &mut fmt::Formatter<W>) -> fmt::Result {
        write!(f, "{self}")
    }
}

impl From<AllocError> for EnableFault {
    ghost from_gives = { λ _ e. e ≡ Memory };

    fn from(_failed: AllocError) -> Self {
        EnableFault::Memory
    }
}

impl<T: Drop> From<AllocFailed<T>> for EnableFault {
    ghost from_gives = { λ _ e. e ≡ Memory };

    fn from(_failed: AllocFailed<T>) -> Self {
        EnableFault::Memory
    }
}
