//! Clauses that do nothing but record.
ghost use Rattle.std.specs.Prelude.{◌≡◌, ◌+◌, ◌*◌, ◌<◌, ◌≤◌, ◌++◌, Some, None, MatchResult, OnOk, OnErr, if◌then◌else◌, length, map, true, List, ℕ};
ghost use Rattle.std.specs.List.{flat_map};
ghost use Rattle.arrayvec.specs.ArrayVec.{array_vec_len};
ghost use Rattle.dt_cred.specs.declared.firing.TheConstants.{FRAMES};
ghost use Rattle.dt_expr.specs.Scene.{scene_of};
ghost use Rattle.dt_locals.specs.History.{LocalsPast};
ghost use Rattle.dt_locals.specs.LocalsAreAt.{LocalsAreAt};
ghost use Rattle.dt_program.specs.Clause.{form_of_argument, form_of_clause, form_of_statement};
ghost use Rattle.dt_program.specs.declared.clause.TheConstants.{STATEMENTS_MAX};
ghost use Rattle.dt_expr.specs.declared.text.Value.{Value as ShownValue};
ghost use Rattle.dt_names.specs.declared.short_text.TheConstants.{PADDED_SIZE};
ghost use Rattle.dt_record.specs.Pasts.{TracingPast};
ghost use Rattle.dt_record.specs.Taking.{abandoned, argument_value, effect, epid_bytes, leaves, number_bytes, passed_over, perform, recorded, records, taking, value_bytes};
ghost use Rattle.dt_record.specs.Taking as spec;
ghost use Rattle.dt_record.specs.declared.limits.TheConstants.{RECORD_MAX};

use crate::building::{Bytes, add_bytes, add_number, put_frames, shorten};
use crate::limits::{EPID_SIZE, RECORD_MAX};
use crate::taking::predicate_holds;
use crate::values::shown;
use arrayvec::ArrayVec;
use byteorder::{BigEndian, ByteOrder};
use dt_expr::{EvalFault, Scene, eval};
use dt_locals::Locals;
use dt_program::{Argument, Clause, Statement};

/// Takes a clause that does nothing but record ([`only_records`](crate::only_records)): its record takes the place of what these bytes
/// were. It answers whether the clause's predicate held. The room serves again, clause after clause. It is what [`taken`](crate::taken) leaves of such
/// a clause, which neither assigns nor draws, without room for all else.
///
/// `Ok(true)`: the record is here. `Ok(false)`: the predicate is 0, and the clause leaves nothing. [`EvalFault::DivZero`] abandons the clause.
/// After either, what is here says nothing. It takes no memory.
#[inline(always)]
pub fn record_only(
    record: &mut ArrayVec<u8, RECORD_MAX>,
    epid: u32,
    clause: &Clause,
    scene: &Scene,
    locals: &Locals,
) -> Result<bool, EvalFault>
    requires bare { spec.only_records (form_of_clause clause.now).statements ≡ true }
    ensures left { (past : TracingPast) → LocalsAreAt past.locals locals.now → MatchResult result
        (λ held. (taking epid (scene_of scene.now) past (form_of_clause clause.now)).outcome
        ≡ (if held then leaves (spec.bare_record record.new.items) else passed_over))
        (λ _. (taking epid (scene_of scene.now) past (form_of_clause clause.now)).outcome ≡ abandoned) }
{
    if !predicate_holds(&clause.predicate, scene, locals)? {
        return Ok(false);
    }
    record_statements(record, epid, &clause.statements, scene, locals)?;
    Ok(true)
}

/// Makes the record of statements that do nothing but record, one after another.
#[inline(always)]
fn record_statements(
    record: &mut Bytes,
    epid: u32,
    statements: &[Statement],
    scene: &Scene,
    locals: &Locals,
) -> Result<(), EvalFault>
    requires few { length statements.now ≤ STATEMENTS_MAX }
    requires bare { spec.only_records (map form_of_statement statements.now) ≡ true }
    // a fault exactly where one of them has no effect
    ensures left { (past : TracingPast) → LocalsAreAt past.locals locals.now → MatchResult result
        (λ _. (length (perform (scene_of scene.now) past (map form_of_statement statements.now)) ≡ length statements.now)
        × (record.new.items ≡ epid_bytes epid ++ flat_map recorded
        (perform (scene_of scene.now) past (map form_of_statement statements.now))))
        (λ _. length (perform (scene_of scene.now) past (map form_of_statement statements.now)) < length statements.now) }
{
    begin_record(record, epid);
    for statement in statements {
        add_recorded(record, statement, scene, locals)?;
    }
    Ok(())
}

/// Begins a record with its EPID, in the room of the one before it.
#[inline(always)]
fn begin_record(record: &mut Bytes, epid: u32)
    ensures { record.new.items ≡ epid_bytes epid }
{
    let mut bytes = [0; EPID_SIZE];
    BigEndian::write_u32(&mut bytes, epid);
    if EPID_SIZE <= record.len() {
        // written over, so that of a record that was an EPID alone nothing is blanked
        shorten(record);
        record.as_mut_slice().copy_from_slice(&bytes);
    } else {
        record.clear();
        add_bytes(record, &bytes);
    }
}

/// Adds what a statement records.
#[inline(always)]
fn add_recorded(
    record: &mut Bytes,
    statement: &Statement,
    scene: &Scene,
    locals: &Locals,
) -> Result<(), EvalFault>
    requires records { spec.is_recording (form_of_statement statement.now) ≡ true }
    requires room { array_vec_len record.old + 8 * FRAMES ≤ RECORD_MAX }
    ensures done { OnOk result ((past : TracingPast) → LocalsAreAt past.locals locals.now → (bytes : List ℕ)
        × (effect (scene_of scene.now) past (form_of_statement statement.now) ≡ Some (records bytes))
        × (record.new.items ≡ record.old.items ++ bytes)) }
    ensures grows { OnOk result (array_vec_len record.new ≤ array_vec_len record.old + 8 * FRAMES) }
    ensures fault { OnErr result ((past : TracingPast) → LocalsAreAt past.locals locals.now
        → effect (scene_of scene.now) past (form_of_statement statement.now) ≡ None) }
{
    match statement {
        Statement::Trace(argument) => add_argument(record, argument, scene, locals)?,
        Statement::Stack(frames) => put_frames(record, &scene.firing.kstack, *frames),
        Statement::Ustack(frames) => put_frames(record, &scene.firing.ustack, *frames),
        _ => unreachable!(),
    }
    Ok(())
}

/// Adds the value of an argument: a number in eight bytes, the highest first, or a text with its zeros.
#[inline(always)]
fn add_argument(
    record: &mut Bytes,
    argument: &Argument,
    scene: &Scene,
    locals: &Locals,
) -> Result<(), EvalFault>
    requires { array_vec_len record.old + PADDED_SIZE ≤ RECORD_MAX }
    ensures written { OnOk result ((past : LocalsPast) → LocalsAreAt past locals.now → (value : ShownValue)
        × (argument_value (scene_of scene.now) past (form_of_argument argument.now) ≡ Some value)
        × (record.new.items ≡ record.old.items ++ value_bytes value)) }
    ensures grows { OnOk result (array_vec_len record.new ≤ array_vec_len record.old + PADDED_SIZE) }
    ensures fault { OnErr result ((past : LocalsPast) → LocalsAreAt past locals.now
        → argument_value (scene_of scene.now) past (form_of_argument argument.now) ≡ None) }
{
    match argument {
        Argument::Number(expr) => {
            let number = eval(expr, scene, locals)?;
            add_number(record, number);
        }
        Argument::Text(text) => add_bytes(record, shown(text, scene)),
    }
    Ok(())
}
