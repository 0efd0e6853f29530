//! The thread-local variables and the speculations of a runner.
ghost use Rattle.std.specs.Prelude.{◌≡◌, ◌≤◌};
ghost use Rattle.dt_speculation.specs.IsAt.{cpus_of};

use dt_life::Options;
use dt_locals::Locals;
use dt_speculation::Specs;
use std::alloc::{AllocError, Global};

/// The variables and the speculations from `go` on, until tracing ends, and how many processors there are.
#[derive(Drop)]
pub(crate) struct KeptState {
    pub(crate) locals: Locals,
    pub(crate) specs: Specs,
    pub(crate) cpus: u32,
    ghost some: { 1 ≤ cpus },
    ghost parts: { cpus_of specs ≡ cpus },
}

impl KeptState {
    ghost use Rattle.std.specs.Prelude.{[], IfOk};
    ghost use Rattle.dt_alone.specs.Kept.{DropsAtMost, IsKeptAt};
    ghost use Rattle.dt_life.specs.Forms.{form_of_options};
    ghost use Rattle.dt_speculation.specs.declared.limits.TheConstants.{CPUS_MAX};

    /// Those to which nothing came.
    pub(crate) fn new(alloc: Global, options: Options, cpus: u32) -> Result<Self, AllocError>
        requires some { 1 ≤ cpus }
        requires few { cpus ≤ CPUS_MAX }
        ensures stands { IfOk result (IsKeptAt (form_of_options options) []) }
        ensures counts { IfOk result (DropsAtMost 0) }
        ensures cpus { IfOk result (λ kept. kept.cpus ≡ cpus) }
    {
        Ok(KeptState {
            locals: Locals::new(alloc, options.dynvarsize)?,
            specs: Specs::new(alloc, options.nspec, options.specsize, cpus as usize)?,
            cpus,
        })
    }
}
