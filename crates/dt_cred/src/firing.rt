//! One firing.
use crate::rights::Mode;
use std::mem::size_of;

/// The arguments of a firing.
pub const ARGS: usize = 10;

/// The frames of each of a firing's stacks.
pub const FRAMES: usize = 8;

/// One firing of a probe, as a processor's script has it.
#[derive(Clone, Copy, Debug, PartialEq, Eq)]
pub struct Firing {
    /// The processor in whose script it stands, from 0 on.
    pub cpu: u32,
    /// Its place in that script, from 0 on.
    pub place: u32,
    /// The identifier of its probe.
    pub probe: u32,
    /// The process in which the probe fired.
    pub pid: u32,
    /// The thread of that process.
    pub tid: u32,
    /// Whether it fired in the process itself, or in the kernel.
    pub mode: Mode,
    /// From 0 to 9,223,372,036,854,775,807.
    pub timestamp: i64,
    /// The probe's arguments, and zeros.
    pub args: [i64; ARGS],
    /// The frames in the kernel, and zeros.
    pub kstack: [u64; FRAMES],
    /// The frames in the process, and zeros.
    pub ustack: [u64; FRAMES],
}

/// A firing is plain data without a gap but for the mode's, and a script is an array of them.
const _: () = prove!(size_of::<Firing>() == 240);
