//! Clauses that do nothing but give to aggregations.
ghost use Rattle.std.specs.Prelude.{◌≡◌, ◌+◌, ◌<◌, ◌≤◌, ◌++◌, Some, None, MatchResult, OnOk, OnErr, if◌then◌else◌, length, map, true, List, ℕ};
ghost use Rattle.std.specs.List.{flat_map, list_all};
ghost use Rattle.arrayvec.specs.ArrayVec.{array_vec_len};
ghost use Rattle.dt_expr.specs.Scene.{scene_of};
ghost use Rattle.dt_expr.specs.declared.text.Value.{Value as ShownValue};
ghost use Rattle.dt_locals.specs.LocalsAreAt.{LocalsAreAt};
ghost use Rattle.dt_program.specs.Clause.{form_of_clause, form_of_statement};
ghost use Rattle.dt_program.specs.declared.clause.TheConstants.{KEYS_MAX, STATEMENTS_MAX};
ghost use Rattle.dt_record.specs.Pasts.{TracingPast};
ghost use Rattle.dt_record.specs.Taking.{abandoned, contributed, effect, gives, leaves, passed_over, perform, taking};
ghost use Rattle.dt_record.specs.Taking as spec;
ghost use Rattle.dt_record.specs.declared.limits.TheConstants.{VALUES_MAX};

use crate::limits::VALUES_MAX;
use crate::taking::predicate_holds;
use crate::values::{given, put_keys};
use arrayvec::ArrayVec;
use dt_expr::{EvalFault, Scene, Value};
use dt_locals::Locals;
use dt_program::{Clause, Statement};

/// Takes a clause that does nothing but give to aggregations ([`only_gives`](crate::only_gives)): its values take the place of what
/// these were, for each statement in order those of its keys, and then the number that it gives (0 of `count`). It answers whether the
/// clause's predicate held. The room serves again, clause after clause. It is what [`taken`](crate::taken) leaves of such a clause,
/// which neither records, assigns nor draws, without room for all else.
///
/// `Ok(true)`: the values are here. `Ok(false)`: the predicate is 0, and the clause leaves nothing. [`EvalFault::DivZero`] abandons the
/// clause. After either, what is here says nothing. It takes no memory.
#[inline(always)]
pub fn give_only(
    values: &mut ArrayVec<Value, VALUES_MAX>,
    clause: &Clause,
    scene: &Scene,
    locals: &Locals,
) -> Result<bool, EvalFault>
    requires bare { spec.only_gives (form_of_clause clause.now).statements ≡ true }
    // whatever its EPID is
    ensures left { (epid : ℕ) (past : TracingPast) → LocalsAreAt past.locals locals.now → MatchResult result
        (λ held. (taking epid (scene_of scene.now) past (form_of_clause clause.now)).outcome
        ≡ (if held then leaves (spec.bare_values values.new.items) else passed_over))
        (λ _. (taking epid (scene_of scene.now) past (form_of_clause clause.now)).outcome ≡ abandoned) }
{
    if !predicate_holds(&clause.predicate, scene, locals)? {
        return Ok(false);
    }
    give_statements(values, &clause.statements, scene, locals)?;
    Ok(true)
}

/// Makes the values of statements that do nothing but give, one after another.
#[inline(always)]
fn give_statements(
    values: &mut ArrayVec<Value, VALUES_MAX>,
    statements: &[Statement],
    scene: &Scene,
    locals: &Locals,
) -> Result<(), EvalFault>
    requires few { length statements.now ≤ STATEMENTS_MAX }
    requires bare { list_all spec.is_giving (map form_of_statement statements.now) ≡ true }
    // a fault exactly where one of them has no effect
    ensures left { (past : TracingPast) → LocalsAreAt past.locals locals.now → MatchResult result
        (λ _. (length (perform (scene_of scene.now) past (map form_of_statement statements.now)) ≡ length statements.now)
        × (values.new.items ≡ flat_map contributed (perform (scene_of scene.now) past (map form_of_statement statements.now))))
        (λ _. length (perform (scene_of scene.now) past (map form_of_statement statements.now)) < length statements.now) }
{
    values.clear();
    for statement in statements {
        add_given(values, statement, scene, locals)?;
    }
    Ok(())
}

/// Adds what a statement gives: the values of its keys, and the number.
#[inline(always)]
fn add_given(
    values: &mut ArrayVec<Value, VALUES_MAX>,
    statement: &Statement,
    scene: &Scene,
    locals: &Locals,
) -> Result<(), EvalFault>
    requires gives { spec.is_giving (form_of_statement statement.now) ≡ true }
    requires room { array_vec_len values.old + KEYS_MAX + 1 ≤ VALUES_MAX }
    ensures done { OnOk result ((past : TracingPast) → LocalsAreAt past.locals locals.now → (more : List ShownValue)
        × (effect (scene_of scene.now) past (form_of_statement statement.now) ≡ Some (gives more))
        × (values.new.items ≡ values.old.items ++ more)) }
    ensures grows { OnOk result (array_vec_len values.new ≤ array_vec_len values.old + KEYS_MAX + 1) }
    ensures fault { OnErr result ((past : TracingPast) → LocalsAreAt past.locals locals.now
        → effect (scene_of scene.now) past (form_of_statement statement.now) ≡ None) }
{
    match statement {
        Statement::Aggregate(aggregation) => {
            put_keys(values, &aggregation.keys, scene, locals)?;
            let number = given(&aggregation.call, scene, locals)?;
            values.push(Value::Number(number));
        }
        _ => unreachable!(),
    }
    Ok(())
}
