//! One line, lent or owned.
ghost use Rattle.std.specs.Prelude.{◌≡◌, IfOk};
ghost use Rattle.dt_proto.specs.Asked.{form_lent, form_asked};

use std::alloc::{AllocError, Global};

/// What was asked by one line.
#[derive(Debug, PartialEq, Eq, Drop)]
pub enum Asked {
    /// The line's bytes, without its newline.
    Line(Vec<u8>),
    /// The line had more than [`LINE_MAX`](crate::LINE_MAX) bytes, whatever they were.
    Long,
}

impl Asked {
    /// The line, lent, to be read by [`read_line`](crate::read_line).
    pub fn lent(&self) -> WholeLine<'_>
        ensures { form_lent result ≡ form_asked self.now }
    {
        match self {
            Asked::Line(bytes) => WholeLine::Bytes(bytes),
            Asked::Long => WholeLine::Long,
        }
    }
}

/// A whole line, lent by the [`Lines`](crate::Lines) that hold it.
#[derive(Clone, Copy, Debug, PartialEq, Eq)]
pub enum WholeLine<'a> {
    /// The line's bytes, without its newline.
    Bytes(&'a [u8]),
    /// The line had more than [`LINE_MAX`](crate::LINE_MAX) bytes, whatever they were.
    Long,
}

impl WholeLine<'_> {
    /// The line with bytes of its own, so that it outlives the next [`feed`](crate::Lines::feed). `Err`: there was no
    /// memory for them.
    pub fn to_asked(self, alloc: Global) -> Result<Asked, AllocError>
        ensures { IfOk result (λ asked. form_asked asked ≡ form_lent self.entry) }
    {
        match self {
            WholeLine::Bytes(bytes) => Ok(Asked::Line(bytes.to_vec(alloc)?)),
            WholeLine::Long => Ok(Asked::Long),
        }
    }
}
