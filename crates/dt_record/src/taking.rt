//! What a clause leaves where it is taken.
ghost use Rattle.std.specs.Prelude.{◌≡◌, ◌+◌, ◌<◌, ◌≤◌, Some, None, MatchResult, [], if◌then◌else◌, length, map};
ghost use Rattle.std.specs.Option.{option_map};
ghost use Rattle.dt_expr.specs.Form.{form_of};
ghost use Rattle.dt_expr.specs.Operators.{holds};
ghost use Rattle.dt_expr.specs.Scene.{scene_of};
ghost use Rattle.dt_locals.specs.History.{LocalsPast};
ghost use Rattle.dt_locals.specs.LocalsAreAt.{LocalsAreAt, local_drops_of};
ghost use Rattle.dt_locals.specs.declared.limits.TheConstants.{LOCAL_DROPS_LIMIT};
ghost use Rattle.dt_program.specs.Clause.{form_of_clause, form_of_statement};
ghost use Rattle.dt_program.specs.declared.clause.TheConstants.{STATEMENTS_MAX};
ghost use Rattle.dt_speculation.specs.IsAt.{cpus_of, fails_of};
ghost use Rattle.dt_speculation.specs.declared.limits.TheConstants.{FAILS_LIMIT};
ghost use Rattle.dt_record.specs.Forms.{form_of_taken, outcome_of};
ghost use Rattle.dt_record.specs.Pasts.{TracingPast};
ghost use Rattle.dt_record.specs.Taking.{abandoned, leaves, passed_over, past_with, perform, predicate_value, taken_of, taking};
ghost use Rattle.dt_record.specs.Taking as spec;
ghost use Rattle.dt_record.specs.TracingAt.{TracingAt};

use crate::parts::Taken;
use crate::recording::leaves_record;
use arrayvec::ArrayVec;
use dt_expr::{EvalFault, Expr, Scene, eval};
use dt_locals::Locals;
use dt_program::{Clause, Statement};
use dt_speculation::Specs;

/// What a clause leaves of a scene, with its enabling's number: nothing where the predicate is 0, else what its
/// statements leave, of which all expressions are evaluated, in order. What they assign and draw is done at once, and later
/// expressions see it.
///
/// [`EvalFault::DivZero`] abandons the clause, where a division or a remainder by zero is evaluated in the
/// predicate or in a statement: it leaves nothing but what was assigned and drawn before. It takes no memory. (illumos Dynamic
/// Tracing Guide, "Program Structure".)
///
/// It fills the whole room of a [`Taken`], over two thousand bytes. Where many clauses are taken, keep a `Taken`
/// and use [`Taken::take`].
pub fn taken(
    epid: u32,
    clause: &Clause,
    scene: &Scene,
    locals: &mut Locals,
    specs: &mut Specs,
) -> Result<Option<Taken>, EvalFault>
    requires assigns { local_drops_of locals.old + STATEMENTS_MAX ≤ LOCAL_DROPS_LIMIT }
    requires draws { fails_of specs.old + STATEMENTS_MAX ≤ FAILS_LIMIT }
    // for every past at whose end the variables and the speculations are: what comes of the clause after it
    ensures left { (past : TracingPast) → TracingAt past locals.old specs.old → MatchResult result
        (λ left. (taking epid (scene_of scene.now) past (form_of_clause clause.now)).outcome ≡ outcome_of left)
        (λ _. (taking epid (scene_of scene.now) past (form_of_clause clause.now)).outcome ≡ abandoned) }
    // they are then, also after a fault, at the end of the past and of what was assigned and drawn
    ensures stands { (past : TracingPast) → TracingAt past locals.old specs.old
        → TracingAt (past_with past (taking epid (scene_of scene.now) past (form_of_clause clause.now)).effects)
        locals.new specs.new }
    ensures dropped { local_drops_of locals.new ≤ local_drops_of locals.old + length (form_of_clause clause.now).statements }
    ensures failed { fails_of specs.new ≤ fails_of specs.old + length (form_of_clause clause.now).statements }
    ensures cpus { cpus_of specs.new ≡ cpus_of specs.old }
{
    let mut left = Taken::new();
    if left.take(epid, clause, scene, locals, specs)? {
        Ok(Some(left))
    } else {
        Ok(None)
    }
}

impl Taken {
    /// Nothing left yet, and the room for what one clause leaves.
    pub fn new() -> Self
        ensures { form_of_taken result ≡ record { record_bytes = None; spec = None; values = []; ends = []; exit = None } }
    {
        Taken {
            bytes: None,
            spec: None,
            values: ArrayVec::new(),
            ends: ArrayVec::new(),
            exit: None,
        }
    }

    /// Takes a clause with its enabling's number, as [`taken`] does, in place of what was left before, and says
    /// whether its predicate held. Only what the clause leaves is written: the room serves again, clause after
    /// clause.
    ///
    /// `Ok(true)`: what the clause leaves is here. `Ok(false)`: the predicate is 0, and the clause leaves nothing.
    /// After that, and after [`EvalFault::DivZero`], which abandons the clause, what is here says nothing. It takes
    /// no memory.
    pub fn take(
        &mut self,
        epid: u32,
        clause: &Clause,
        scene: &Scene,
        locals: &mut Locals,
        specs: &mut Specs,
    ) -> Result<bool, EvalFault>
        requires assigns { local_drops_of locals.old + STATEMENTS_MAX ≤ LOCAL_DROPS_LIMIT }
        requires draws { fails_of specs.old + STATEMENTS_MAX ≤ FAILS_LIMIT }
        // for every past at whose end the variables and the speculations are: what comes of the clause after it
        ensures left { (past : TracingPast) → TracingAt past locals.old specs.old → MatchResult result
            (λ held. (taking epid (scene_of scene.now) past (form_of_clause clause.now)).outcome
            ≡ (if held then leaves (form_of_taken self.new) else passed_over))
            (λ _. (taking epid (scene_of scene.now) past (form_of_clause clause.now)).outcome ≡ abandoned) }
        // they are then, also after a fault, at the end of the past and of what was assigned and drawn
        ensures stands { (past : TracingPast) → TracingAt past locals.old specs.old
            → TracingAt (past_with past (taking epid (scene_of scene.now) past (form_of_clause clause.now)).effects)
            locals.new specs.new }
        ensures dropped { local_drops_of locals.new ≤ local_drops_of locals.old + length (form_of_clause clause.now).statements }
        ensures failed { fails_of specs.new ≤ fails_of specs.old + length (form_of_clause clause.now).statements }
        ensures cpus { cpus_of specs.new ≡ cpus_of specs.old }
    {
        self.take_known(epid, clause, leaves_record(clause), scene, locals, specs)
    }

    /// The same for a clause of which it is known whether it leaves a record: who takes a clause again and again asks
    /// [`leaves_record`] once.
    pub fn take_known(
        &mut self,
        epid: u32,
        clause: &Clause,
        records: bool,
        scene: &Scene,
        locals: &mut Locals,
        specs: &mut Specs,
    ) -> Result<bool, EvalFault>
        requires known { records ≡ spec.leaves_record (form_of_clause clause.now).statements }
        requires assigns { local_drops_of locals.old + STATEMENTS_MAX ≤ LOCAL_DROPS_LIMIT }
        requires draws { fails_of specs.old + STATEMENTS_MAX ≤ FAILS_LIMIT }
        // for every past at whose end the variables and the speculations are: what comes of the clause after it
        ensures left { (past : TracingPast) → TracingAt past locals.old specs.old → MatchResult result
            (λ held. (taking epid (scene_of scene.now) past (form_of_clause clause.now)).outcome
            ≡ (if held then leaves (form_of_taken self.new) else passed_over))
            (λ _. (taking epid (scene_of scene.now) past (form_of_clause clause.now)).outcome ≡ abandoned) }
        // they are then, also after a fault, at the end of the past and of what was assigned and drawn
        ensures stands { (past : TracingPast) → TracingAt past locals.old specs.old
            → TracingAt (past_with past (taking epid (scene_of scene.now) past (form_of_clause clause.now)).effects)
            locals.new specs.new }
        ensures dropped { local_drops_of locals.new ≤ local_drops_of locals.old + length (form_of_clause clause.now).statements }
        ensures failed { fails_of specs.new ≤ fails_of specs.old + length (form_of_clause clause.now).statements }
        ensures cpus { cpus_of specs.new ≡ cpus_of specs.old }
    {
        // where the predicate is 0 the clause does nothing: no expression of its statements is evaluated
        if !predicate_holds(&clause.predicate, scene, locals)? {
            return Ok(false);
        }
        self.take_statements(epid, records, &clause.statements, scene, locals, specs)?;
        Ok(true)
    }

    /// Takes the statements of a clause, one after another. Whether they leave a record is known.
    fn take_statements(
        &mut self,
        epid: u32,
        records: bool,
        statements: &[Statement],
        scene: &Scene,
        locals: &mut Locals,
        specs: &mut Specs,
    ) -> Result<(), EvalFault>
        requires few { length statements.now ≤ STATEMENTS_MAX }
        requires known { records ≡ spec.leaves_record (map form_of_statement statements.now) }
        requires assigns { local_drops_of locals.old + STATEMENTS_MAX ≤ LOCAL_DROPS_LIMIT }
        requires draws { fails_of specs.old + STATEMENTS_MAX ≤ FAILS_LIMIT }
        // what is left comes of all statements' effects; a fault exactly where one of them has no effect
        ensures left { (past : TracingPast) → TracingAt past locals.old specs.old → MatchResult result
            (λ _. (length (perform (scene_of scene.now) past (map form_of_statement statements.now)) ≡ length statements.now)
            × (form_of_taken self.new ≡ taken_of epid (map form_of_statement statements.now)
            (perform (scene_of scene.now) past (map form_of_statement statements.now))))
            (λ _. length (perform (scene_of scene.now) past (map form_of_statement statements.now)) < length statements.now) }
        ensures stands { (past : TracingPast) → TracingAt past locals.old specs.old
            → TracingAt (past_with past (perform (scene_of scene.now) past (map form_of_statement statements.now)))
            locals.new specs.new }
        ensures dropped { local_drops_of locals.new ≤ local_drops_of locals.old + length statements.now }
        ensures failed { fails_of specs.new ≤ fails_of specs.old + length statements.now }
        ensures cpus { cpus_of specs.new ≡ cpus_of specs.old }
    {
        self.begin(epid, records);
        for statement in statements {
            self.add(statement, scene, locals, specs)?;
        }
        Ok(())
    }
}

/// Whether a predicate isn't 0. Where there is none, it holds.
#[inline(always)]
pub(crate) fn predicate_holds(
    predicate: &Option<Expr>,
    scene: &Scene,
    locals: &Locals,
) -> Result<bool, EvalFault>
    ensures { (past : LocalsPast) → LocalsAreAt past locals.now → MatchResult result
        (λ held. option_map holds (predicate_value (scene_of scene.now) past (option_map form_of predicate.now)) ≡ Some held)
        (λ _. predicate_value (scene_of scene.now) past (option_map form_of predicate.now) ≡ None) }
{
    match predicate {
        Some(predicate) => Ok(eval(predicate, scene, locals)? != 0),
        None => Ok(true),
    }
}
