//! What the accepted programs come to, and what is taken where a probe fires.
ghost use Rattle.std.specs.Prelude.{◌≡◌, ℕ, ◌+◌, ◌-◌, ◌*◌, ◌≤◌, ◌<◌, ◌++◌, ◌==◌, ◌∷◌, List, [], All, None, IfOk, false, filter, is_some, length, map, vec_len, if◌then◌else◌};
ghost use Rattle.std.specs.List.{list_any};
ghost use Rattle.dt_lang.specs.Program.{form_of_clause};
ghost use Rattle.dt_ecb.specs.Forms.{form_of_ecb, shapes_of};
ghost use Rattle.dt_ecb.specs.declared.limits.TheConstants.{ECBS_MAX};
ghost use Rattle.dt_life.specs.Placed.{placed_after as at_place};

use crate::happened::{Contribution, Happened, Left};
use crate::kept::KeptState;
use crate::listing::{end_all, list_draws, list_variables, put_directed};
use dt_ecb::{ECBS_MAX, Ecb, Shapes};
use dt_expr::EvalFault;
use dt_lang::Clause;
use dt_life::{placed_after, scene_at};
use dt_machine::Context;
use dt_record::{Taken, taken};
use std::alloc::{AllocError, Global};

/// The clauses of the accepted programs, their ECBs, and the aggregations that they use. An ECB has the place of its
/// clause among all of them.
#[derive(Drop)]
pub(crate) struct Programs {
    pub(crate) clauses: Vec<Clause>,
    pub(crate) ecbs: Vec<Ecb>,
    pub(crate) shapes: Shapes,
    ghost few: { vec_len ecbs ≤ ECBS_MAX },
    ghost placed: { All (λ ecb. ecb.clause < vec_len clauses) ecbs.items },
}

impl Programs {
    ghost use Rattle.dt_alone.specs.Happened.{Brings, given_as, left_count};
    ghost use Rattle.dt_alone.specs.Kept.{DropsAtMost, IsKeptAt};
    ghost use Rattle.std.specs.Option.{option_map};
    ghost use Rattle.dt_life.specs.Aggregations.{split_by, uses_by};
    ghost use Rattle.dt_machine.specs.Context.{form_of_context};
    ghost use Rattle.dt_life.specs.Following.{taking_by};
    ghost use Rattle.dt_life.specs.Options.{OptionsForm};
    ghost use Rattle.dt_life.specs.Takings.{exit_of, first_exit};
    ghost use Rattle.dt_life.specs.TracingSteps.{TracingStep, steps_and, taken_at, takes};
    ghost use Rattle.dt_program.specs.declared.clause.TheConstants.{STATEMENTS_MAX};
    ghost use Rattle.dt_locals.specs.declared.limits.TheConstants.{LOCAL_DROPS_LIMIT};

    /// None yet.
    pub(crate) fn new(alloc: Global) -> Self
        ensures clauses { result.clauses.items ≡ [] }
        ensures ecbs { result.ecbs.items ≡ [] }
        ensures shapes { shapes_of result.shapes ≡ [] }
    {
        Programs {
            clauses: Vec::new(alloc),
            ecbs: Vec::new(alloc),
            shapes: Shapes::new(alloc),
        }
    }

    /// Whether an ECB names the probe.
    pub(crate) fn has(&self, probe: u32) -> bool
        ensures { result ≡ list_any (λ ecb. ecb.probe == probe) self.now.ecbs.items }
    {
        self.ecbs.iter().any(|ecb| ecb.probe == probe)
    }

    /// Adds the clauses of a program and its ECBs, which name places among its own clauses. The aggregations are all
    /// that are used then.
    pub(crate) fn extend(
        &mut self,
        alloc: Global,
        mut clauses: Vec<Clause>,
        ecbs: &[Ecb],
        shapes: Shapes,
    ) -> Result<(), AllocError>
        requires few { vec_len self.old.ecbs + length ecbs.now ≤ ECBS_MAX }
        requires placed { All (λ ecb. ecb.clause < length clauses.items) ecbs.now }
        ensures clauses { IfOk result (λ _. self.new.clauses.items ≡ self.old.clauses.items ++ clauses.items) }
        ensures ecbs { IfOk result (λ _. self.new.ecbs.items
            ≡ self.old.ecbs.items ++ map (at_place (length self.old.clauses.items)) ecbs.now) }
        ensures shapes { IfOk result (λ _. self.new.shapes ≡ shapes) }
    {
        let mut placed = placed_after(alloc, self.clauses.len(), ecbs)?;
        self.clauses.append(&mut clauses)?;
        self.ecbs.append(&mut placed)?;
        self.shapes = shapes;
        Ok(())
    }

    /// The ECBs of a probe, in order of EPID.
    fn row(&self, alloc: Global, probe: u32) -> Result<Vec<Ecb>, AllocError>
        ensures all { IfOk result (λ row. row.items ≡ filter (λ ecb. ecb.probe == probe) self.now.ecbs.items) }
        ensures few { IfOk result (λ row. vec_len row ≤ ECBS_MAX) }
        ensures placed { IfOk result (λ row. All (λ ecb. ecb.clause < vec_len self.now.clauses) row.items) }
    {
        let mut row = Vec::new(alloc);
        for ecb in &self.ecbs {
            if ecb.probe == probe {
                row.push(*ecb)?;
            }
        }
        Ok(row)
    }

    /// Takes the ECBs of the probe that fires, in order of EPID, and lists what happens. After an exit the later ones
    /// aren't taken, and its status is answered; in END an exit is passed over.
    pub(crate) fn take(
        &self,
        alloc: Global,
        happened: &mut Vec<Happened>,
        kept: &mut KeptState,
        context: &Context,
        in_end: bool,
    ) -> Result<Option<i64>, AllocError>
        requires there { context.now.firing.now.cpu < kept.old.cpus }
        requires counts { DropsAtMost (LOCAL_DROPS_LIMIT - ECBS_MAX * STATEMENTS_MAX) kept.old }
        // for all steps that what was listed before brings: it brings now the steps and what is taken there, up to the first exit, in END all
        ensures taken { IfOk result (λ _. (options : OptionsForm) (steps : List TracingStep) → IsKeptAt options steps kept.old
            → Brings kept.old.cpus (shapes_of self.now.shapes) options happened.old.items steps
            → IsKeptAt options (steps_and steps (taken_at options steps in_end (form_of_context context.now)
            (map (form_of_ecb (map form_of_clause self.now.clauses.items)) self.now.ecbs.items))) kept.new
            × Brings kept.old.cpus (shapes_of self.now.shapes) options happened.new.items
            (steps_and steps (taken_at options steps in_end (form_of_context context.now)
            (map (form_of_ecb (map form_of_clause self.now.clauses.items)) self.now.ecbs.items)))) }
        ensures exit { in_end ≡ false
            → IfOk result (λ exit. (options : OptionsForm) (steps : List TracingStep) → IsKeptAt options steps kept.old
            → Brings kept.old.cpus (shapes_of self.now.shapes) options happened.old.items steps
            → exit ≡ first_exit (taken_at options steps in_end (form_of_context context.now)
            (map (form_of_ecb (map form_of_clause self.now.clauses.items)) self.now.ecbs.items))) }
        ensures few { left_count happened.new.items ≤ left_count happened.old.items + ECBS_MAX }
        ensures counts { (n : ℕ) → DropsAtMost n kept.old → DropsAtMost (n + ECBS_MAX * STATEMENTS_MAX) kept.new }
        ensures cpus { kept.new.cpus ≡ kept.old.cpus }
    {
        let row = self.row(alloc, context.firing.probe)?;
        for ecb in &row {
            let exit = self.take_one(alloc, happened, kept, *ecb, context, in_end)?;
            if exit.is_some() && !in_end {
                return Ok(exit);
            }
        }
        Ok(None)
    }

    /// Takes one ECB, and answers the status that it exits with, if it exits. What it leaves, drops and commits is listed.
    fn take_one(
        &self,
        alloc: Global,
        happened: &mut Vec<Happened>,
        kept: &mut KeptState,
        ecb: Ecb,
        context: &Context,
        in_end: bool,
    ) -> Result<Option<i64>, AllocError>
        requires placed { ecb.clause < length self.now.clauses.items }
        requires there { context.now.firing.now.cpu < kept.old.cpus }
        requires counts { DropsAtMost (LOCAL_DROPS_LIMIT - STATEMENTS_MAX) kept.old }
        ensures taken { IfOk result (λ _. (options : OptionsForm) (steps : List TracingStep) → IsKeptAt options steps kept.old
            → Brings kept.old.cpus (shapes_of self.now.shapes) options happened.old.items steps
            → IsKeptAt options (steps ++ takes (taking_by in_end options steps (form_of_context context.now)
            (map form_of_clause self.now.clauses.items) ecb) ∷ []) kept.new
            × Brings kept.old.cpus (shapes_of self.now.shapes) options happened.new.items (steps ++ takes
            (taking_by in_end options steps (form_of_context context.now) (map form_of_clause self.now.clauses.items) ecb) ∷ [])) }
        ensures exit { IfOk result (λ exit. (options : OptionsForm) (steps : List TracingStep) → IsKeptAt options steps kept.old
            → exit ≡ exit_of (taking_by in_end options steps (form_of_context context.now)
            (map form_of_clause self.now.clauses.items) ecb)) }
        ensures few { left_count happened.new.items ≤ left_count happened.old.items + 1 }
        ensures counts { (n : ℕ) → DropsAtMost n kept.old → DropsAtMost (n + STATEMENTS_MAX) kept.new }
        ensures cpus { kept.new.cpus ≡ kept.old.cpus }
    {
        let cpu = context.firing.cpu;
        let clause = &self.clauses[ecb.clause];
        let scene = scene_at(context, ecb.epid);
        let dropped = kept.locals.drops();
        let failed = kept.specs.fails();
        let left = taken(ecb.epid, clause, &scene, &mut kept.locals, &mut kept.specs);
        list_variables(happened, cpu, kept.locals.drops().saturating_sub(dropped))?;
        list_draws(happened, kept.specs.fails().saturating_sub(failed))?;
        match left {
            Ok(Some(taken)) => {
                let left = self.left(alloc, clause, &taken)?;
                happened.push(Happened::Left { cpu, in_end, left })?;
                put_directed(happened, &mut kept.specs, cpu, &taken)?;
                end_all(
                    alloc,
                    happened,
                    &mut kept.specs,
                    kept.cpus,
                    &taken.ends,
                    in_end,
                )?;
                Ok(taken.exit)
            }
            Ok(None) => Ok(None),
            Err(EvalFault::DivZero) => {
                happened.push(Happened::Failed { cpu })?;
                Ok(None)
            }
        }
    }

    /// What a clause left, to be listed. A record that is directed to a speculation isn't attempted.
    fn left(&self, alloc: Global, clause: &Clause, taken: &Taken) -> Result<Left, AllocError>
        ensures bytes { IfOk result (λ left. option_map (λ bytes. bytes.items) left.bytes
            ≡ (if is_some taken.now.spec then None else option_map (λ bytes. bytes.items) taken.now.bytes)) }
        ensures given { IfOk result (λ left. map given_as left.given.items
            ≡ split_by (uses_by (shapes_of self.now.shapes) (form_of_clause clause.now).statements)
            taken.now.values.items) }
    {
        let given = Contribution::all(alloc, &self.shapes, &clause.statements, &taken.values)?;
        if taken.spec.is_some() {
            return Ok(Left { bytes: None, given });
        }
        let bytes = match &taken.bytes {
            Some(bytes) => Some(Vec::from_slice(alloc, bytes)?),
            None => None,
        };
        Ok(Left { bytes, given })
    }
}
