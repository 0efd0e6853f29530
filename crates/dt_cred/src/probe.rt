//! Probes of a machine: their numbers, names and classes.
ghost use Rattle.std.specs.Prelude.{◌≡◌};
ghost use Rattle.dt_cred.specs.Class.{IsClassOf};

use crate::class::Class;
use dt_names::ProbeTuple;

/// A probe of the machine: where it can fire, and how it is numbered.
#[derive(Clone, Copy, Debug, PartialEq, Eq)]
pub struct Probe {
    /// 1 for `BEGIN`, 2 for `END`, from 3 on in the order of the machine file.
    pub id: u32,
    pub tuple: ProbeTuple,
    /// The class that its provider's name stands for.
    pub class: Class,
    ghost classed: { ∥ IsClassOf tuple.provider class ∥₁ },
}

impl Probe {
    /// The probe of this number and these names, with its class.
    pub fn new(id: u32, tuple: ProbeTuple) -> Self
        ensures id { result.id ≡ id }
        ensures tuple { result.tuple ≡ tuple }
        ensures class { IsClassOf tuple.provider result.class }
    {
        let class = Class::of(&tuple.provider);
        Probe { id, tuple, class }
    }
}
