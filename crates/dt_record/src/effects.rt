//! What a clause's statements do, one after another.
ghost use Rattle.std.specs.Prelude.{◌≡◌, ◌+◌, ◌*◌, ◌<◌, ◌≤◌, Some, None, OnOk, OnErr, ◌∷◌, [], ◌++◌, if◌then◌else◌};
ghost use Rattle.dt_record.specs.declared.parts.SpecEnd.TheVariants as SpecEnd;
ghost use Rattle.arrayvec.specs.ArrayVec.{array_vec_len};
ghost use Rattle.dt_cred.specs.declared.firing.TheConstants.{FRAMES};
ghost use Rattle.dt_expr.specs.Scene.{scene_of};
ghost use Rattle.dt_locals.specs.LocalsAreAt.{local_drops_of};
ghost use Rattle.dt_locals.specs.declared.limits.TheConstants.{LOCAL_DROPS_LIMIT};
ghost use Rattle.dt_program.specs.Clause.{form_of_statement};
ghost use Rattle.dt_program.specs.declared.clause.TheConstants.{KEYS_MAX, STATEMENTS_MAX};
ghost use Rattle.dt_speculation.specs.IsAt.{cpus_of, fails_of};
ghost use Rattle.dt_speculation.specs.declared.limits.TheConstants.{FAILS_LIMIT};
ghost use Rattle.dt_record.specs.Forms.{form_of_taken};
ghost use Rattle.dt_record.specs.Left.{record_len, left_with};
ghost use Rattle.dt_record.specs.Pasts.{TracingPast};
ghost use Rattle.dt_record.specs.Taking as spec;
ghost use Rattle.dt_record.specs.Taking.{Effect, draw_effect, effect, epid_bytes, past_with};
ghost use Rattle.dt_record.specs.TracingAt.{TracingAt};
ghost use Rattle.dt_record.specs.declared.limits.TheConstants.{RECORD_MAX, VALUES_MAX};

use crate::building::{begin, put_argument, put_stack};
use crate::parts::{SpecEnd, Taken};
use crate::values::{given, put_keys};
use arrayvec::ArrayVec;
use dt_expr::{EvalFault, Scene, Value, eval};
use dt_locals::Locals;
use dt_names::Name;
use dt_program::{STATEMENTS_MAX, Statement};
use dt_speculation::{Specs, one_answer};

/// The speculations that a clause ends, in order.
type Ends = ArrayVec<SpecEnd, STATEMENTS_MAX>;

impl Taken {
    /// Leaves nothing but the EPID, in a record if the clause leaves one.
    pub(crate) fn begin(&mut self, epid: u32, leaves_record: bool)
        ensures { form_of_taken self.new ≡ record {
          record_bytes = if leaves_record then Some (epid_bytes epid) else None;
          spec = None;
          values = [];
          ends = [];
          exit = None;
        } }
    {
        self.spec = None;
        self.values.clear();
        self.ends.clear();
        self.exit = None;
        begin(&mut self.bytes, epid, leaves_record);
    }

    /// Adds what a statement does in a scene, and makes its assignment and its draw.
    pub(crate) fn add(
        &mut self,
        statement: &Statement,
        scene: &Scene,
        locals: &mut Locals,
        specs: &mut Specs,
    ) -> Result<(), EvalFault>
        requires record_room { record_len self.old.bytes + 8 * FRAMES ≤ RECORD_MAX }
        requires values_room { array_vec_len self.old.values + KEYS_MAX + 1 ≤ VALUES_MAX }
        requires ends_room { array_vec_len self.old.ends < STATEMENTS_MAX }
        requires assigns { local_drops_of locals.old < LOCAL_DROPS_LIMIT }
        requires draws { fails_of specs.old < FAILS_LIMIT }
        // without a fault: what its effect adds is left, and the past is its effect longer
        ensures done { OnOk result ((past : TracingPast) → TracingAt past locals.old specs.old → (done : Effect)
            × (effect (scene_of scene.now) past (form_of_statement statement.now) ≡ Some done)
            × (form_of_taken self.new ≡ left_with (form_of_taken self.old) done)
            × TracingAt (past_with past (done ∷ [])) locals.new specs.new) }
        // a fault: nothing was assigned or drawn
        ensures fault { OnErr result ((past : TracingPast) → TracingAt past locals.old specs.old
            → (effect (scene_of scene.now) past (form_of_statement statement.now) ≡ None)
            × TracingAt past locals.new specs.new) }
        ensures record_grows { OnOk result (record_len self.new.bytes ≤ record_len self.old.bytes + 8 * FRAMES) }
        ensures values_grow { OnOk result (array_vec_len self.new.values ≤ array_vec_len self.old.values + KEYS_MAX + 1) }
        ensures ends_grow { OnOk result (array_vec_len self.new.ends ≤ array_vec_len self.old.ends + 1) }
        ensures dropped { local_drops_of locals.new ≤ local_drops_of locals.old + 1 }
        ensures failed { fails_of specs.new ≤ fails_of specs.old + 1 }
        ensures cpus { cpus_of specs.new ≡ cpus_of specs.old }
    {
        match statement {
            Statement::Trace(argument) => put_argument(&mut self.bytes, argument, scene, locals)?,
            Statement::Stack(frames) => {
                put_stack(&mut self.bytes, &scene.firing.kstack, *frames);
            }
            Statement::Ustack(frames) => {
                put_stack(&mut self.bytes, &scene.firing.ustack, *frames);
            }
            Statement::Exit(expr) => {
                let status = eval(expr, scene, locals)?;
                self.exit = self.exit.or(Some(status));
            }
            Statement::Aggregate(aggregation) => {
                put_keys(&mut self.values, &aggregation.keys, scene, locals)?;
                let number = given(&aggregation.call, scene, locals)?;
                self.values.push(Value::Number(number));
            }
            Statement::Assign(name, expr) => {
                let value = eval(expr, scene, locals)?;
                locals.set(scene.firing.pid, scene.firing.tid, name, value);
            }
            Statement::Draw(name) => draw(name, scene, locals, specs),
            Statement::Speculate(expr) => {
                let id = identifier(eval(expr, scene, locals)?);
                self.spec = self.spec.or(Some(id));
            }
            Statement::Commit(expr) => {
                let id = identifier(eval(expr, scene, locals)?);
                commit(&mut self.ends, id);
            }
            Statement::Discard(expr) => {
                let id = identifier(eval(expr, scene, locals)?);
                discard(&mut self.ends, id);
            }
        }
        Ok(())
    }
}

/// A number as an identifier: a negative one names none, as 0 does.
fn identifier(number: i64) -> u64
    ensures { result ≡ spec.identifier number }
{
    u64::try_from(number).unwrap_or(0)
}

/// Adds that a speculation is committed. Few statements do: apart from the others, it costs them no room.
#[inline(never)]
fn commit(ends: &mut Ends, id: u64)
    requires { array_vec_len ends.old < STATEMENTS_MAX }
    ensures items { ends.new.items ≡ ends.old.items ++ SpecEnd.Commit id ∷ [] }
{
    ends.push(SpecEnd::Commit(id));
}

/// Adds that a speculation is discarded.
#[inline(never)]
fn discard(ends: &mut Ends, id: u64)
    requires { array_vec_len ends.old < STATEMENTS_MAX }
    ensures items { ends.new.items ≡ ends.old.items ++ SpecEnd.Discard id ∷ [] }
{
    ends.push(SpecEnd::Discard(id));
}

/// Draws an identifier, and assigns it to a variable of the thread in which the probe fired.
#[inline(never)]
fn draw(name: &Name, scene: &Scene, locals: &mut Locals, specs: &mut Specs)
    requires assigns { local_drops_of locals.old < LOCAL_DROPS_LIMIT }
    requires draws { fails_of specs.old < FAILS_LIMIT }
    ensures done { (past : TracingPast) → TracingAt past locals.old specs.old
        → TracingAt (past_with past (draw_effect (scene_of scene.now) past name.now ∷ [])) locals.new specs.new }
    ensures dropped { local_drops_of locals.new ≤ local_drops_of locals.old + 1 }
    ensures failed { fails_of specs.new ≤ fails_of specs.old + 1 }
    ensures cpus { cpus_of specs.new ≡ cpus_of specs.old }
{
    one_answer();
    let id = specs.draw();
    locals.set(scene.firing.pid, scene.firing.tid, name, id as i64);
}
