//! The ECBs by their probes, so that a firing finds its own without a look at others.
ghost use Rattle.std.specs.Prelude.{◌≡◌, ◌≤◌, vec_len};
ghost use Rattle.dt_ecb.specs.declared.limits.TheConstants.{ECBS_MAX};

use crate::traced_ecb::TracedEcb;
use dt_ecb::{ECBS_MAX, Ecb};
use dt_lang::Clause;
use std::alloc::{AllocError, Global};

/// The ECBs of one probe, in order of EPID.
#[derive(Drop)]
pub(crate) struct EcbList {
    /// Of a probe's one ECB what a firing takes it by, if its clause is one `trace` of a number's variable, without a predicate. It comes first: of the list such a
    /// firing asks else only whether it is empty.
    pub(crate) traced: Option<TracedEcb>,
    pub(crate) ecbs: Vec<Ecb>,
    ghost few: { vec_len ecbs ≤ ECBS_MAX },
}

impl EcbList {
    ghost use Rattle.std.specs.Prelude.{◌==◌, ◌<◌, ◌+◌, ◌++◌, ℕ, All, None, [], ◌∷◌, filter, length, map, slice_get, IfOk, IfSome, OnErr, OnOk};
    ghost use Rattle.dt_consumer.specs.Placing.{IsPlaced};
    ghost use Rattle.dt_consumer.specs.TracedEcbs.{traced_among};
    ghost use Rattle.dt_lang.specs.Program.{form_of_clause};

    /// As many empty lists.
    fn none(alloc: Global, count: u32) -> Result<Vec<Self>, AllocError>
        ensures empty { IfOk result (λ lists. (probe : ℕ) → IfSome (slice_get lists.items probe)
            (λ list. (list.ecbs.items ≡ []) × (list.traced ≡ None))) }
        ensures len { IfOk result (λ lists. vec_len lists ≡ count) }
    {
        let mut lists = Vec::with_capacity(alloc, count as usize)?;
        for _probe in 0..count {
            lists.push(EcbList {
                traced: None,
                ecbs: Vec::new(alloc),
            })?;
        }
        Ok(lists)
    }

    /// Adds an ECB, whose clause lies among these.
    ///
    /// `Err`: there was no memory, and nothing is changed.
    fn add(&mut self, ecb: Ecb, clauses: &[Clause]) -> Result<(), AllocError>
        requires few { vec_len self.old.ecbs + 1 ≤ ECBS_MAX }
        requires placed { ecb.clause < length clauses.now }
        ensures ecbs { OnOk result (self.new.ecbs.items ≡ self.old.ecbs.items ++ ecb ∷ []) }
        ensures traced { OnOk result (self.new.traced ≡ traced_among (map form_of_clause clauses.now) self.new.ecbs.items) }
        ensures same { OnErr result ((self.new.ecbs.items ≡ self.old.ecbs.items) × (self.new.traced ≡ self.old.traced)) }
    {
        let alone = self.ecbs.is_empty();
        self.ecbs.push(ecb)?;
        self.traced = if alone {
            TracedEcb::of(ecb, clauses)
        } else {
            None
        };
        Ok(())
    }

    /// The lists of as many probes as are asked for, from identifier 0 on. Each ECB is looked at once, and has the place of one of these clauses.
    pub(crate) fn for_each(
        alloc: Global,
        ecbs: &[Ecb],
        clauses: &[Clause],
        count: u32,
    ) -> Result<Vec<Self>, AllocError>
        requires few { length ecbs.now ≤ ECBS_MAX }
        requires placed { All (IsPlaced (length clauses.now)) ecbs.now }
        ensures lists { IfOk result (λ lists. (probe : ℕ) → IfSome (slice_get lists.items probe)
            (λ list. list.ecbs.items ≡ filter (λ ecb. ecb.probe == probe) ecbs.now)) }
        ensures traced { IfOk result (λ lists. (probe : ℕ) → IfSome (slice_get lists.items probe)
            (λ list. list.traced ≡ traced_among (map form_of_clause clauses.now) list.ecbs.items)) }
        ensures len { IfOk result (λ lists. vec_len lists ≡ count) }
    {
        let mut lists = EcbList::none(alloc, count)?;
        for ecb in ecbs {
            let probe = ecb.probe as usize;
            // Always so where the ECBs are those of a consumer on the machine that has as many probes (`AreEcbs`); an `Ecb` by
            // itself says nothing of a machine.
            if probe < lists.len() {
                lists[probe].add(*ecb, clauses)?;
            }
        }
        Ok(lists)
    }
}
