//! The clauses that a consumer enabled, as its takings are lent them.
ghost use Rattle.std.specs.Prelude.{◌≡◌, length};
ghost use Rattle.dt_consumer.specs.Recording.{outlines_of};

use crate::outline::Outline;
use crate::uses::Uses;
use dt_lang::Clause;

/// All enabled clauses, and of each, by its place, what is known before it is taken, and what it gives to aggregations.
#[derive(Clone, Copy)]
pub(crate) struct Enabled<'a> {
    pub(crate) clauses: &'a [Clause],
    pub(crate) outlines: &'a [Outline],
    pub(crate) uses: &'a [Uses],
    ghost known: { outlines.now ≡ outlines_of clauses.now },
    ghost each: { length uses.now ≡ length clauses.now },
}
