//! Room for all that is enabled after an `enable`.
ghost use Rattle.std.specs.Prelude.{◌≡◌, []};

use crate::outline::Outline;
use dt_ecb::Ecb;
use dt_lang::Clause;
use std::alloc::{AllocError, Global};

/// Room for clauses, for what is known of them, and for their ECBs.
#[derive(Drop)]
pub(crate) struct Room {
    pub(crate) clauses: Vec<Clause>,
    pub(crate) outlines: Vec<Outline>,
    pub(crate) ecbs: Vec<Ecb>,
    ghost no_clauses: { clauses.items ≡ [] },
    ghost no_outlines: { outlines.items ≡ [] },
    ghost no_ecbs: { ecbs.items ≡ [] },
}

impl Room {
    ghost use Rattle.std.specs.Prelude.{IfOk};
    ghost use Rattle.dt_consumer.specs.Placing.{HasRoomFor};

    /// Room for as many.
    pub(crate) fn new(alloc: Global, clauses: usize, ecbs: usize) -> Result<Self, AllocError>
        ensures { IfOk result (λ room. HasRoomFor room clauses ecbs) }
    {
        Ok(Room {
            clauses: Vec::with_capacity(alloc, clauses)?,
            outlines: Vec::with_capacity(alloc, clauses)?,
            ecbs: Vec::with_capacity(alloc, ecbs)?,
        })
    }
}
