//! What a program adds to a consumer, and why it adds nothing.
ghost use Rattle.std.specs.Prelude.{◌≤◌};
ghost use Rattle.dt_machine.specs.declared.limits.TheConstants.{PROBE_ID_MAX};

/// An enabling control block: a probe that a clause takes effect on, with its number in the consumer. (illumos Dynamic
/// Tracing Guide, "Buffers and Buffering": enabled probe IDs.)
#[derive(Clone, Copy, Debug, PartialEq, Eq)]
pub struct Ecb {
    /// Its number: EPIDs count from 1 in each consumer.
    pub epid: u32,
    /// The probe's identifier, which is one that a machine can have.
    pub probe: u32,
    /// The place of its clause in the program, from 0 on.
    pub clause: usize,
    pub ghost known: { probe ≤ PROBE_ID_MAX },
}
