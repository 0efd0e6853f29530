//! What a clause's arguments, keys and aggregating statements are worth.
ghost use Rattle.std.specs.Prelude.{◌≡◌, ◌+◌, ◌<◌, ◌≤◌, ◌++◌, ◌∷◌, [], List, Some, None, MatchResult, OnOk, OnErr, length, map};
ghost use Rattle.arrayvec.specs.ArrayVec.{array_vec_len};
ghost use Rattle.dt_expr.specs.Scene.{scene_of, padded, text_bytes};
ghost use Rattle.dt_expr.specs.declared.text.Value.{Value as ShownValue};
ghost use Rattle.dt_expr.specs.declared.text.Value.TheVariants as shown_value;
ghost use Rattle.dt_locals.specs.History.{LocalsPast};
ghost use Rattle.dt_locals.specs.LocalsAreAt.{LocalsAreAt};
ghost use Rattle.dt_program.specs.Clause.{form_of_argument, form_of_call};
ghost use Rattle.dt_record.specs.Taking as spec;
ghost use Rattle.dt_record.specs.Taking.{each};
ghost use Rattle.dt_record.specs.declared.limits.TheConstants.{VALUES_MAX};

use crate::limits::VALUES_MAX;
use arrayvec::ArrayVec;
use dt_expr::{EvalFault, Scene, Text, TextVariable, Value, eval};
use dt_locals::Locals;
use dt_names::PADDED_SIZE;
use dt_program::{Argument, Call};

/// A text as a record shows it: its bytes, and zeros up to 32 bytes in all.
pub(crate) fn shown<'a>(text: &'a Text, scene: &Scene<'a>) -> &'a [u8; PADDED_SIZE]
    ensures { result.now ≡ padded (text_bytes (scene_of scene.now) text.now) }
{
    match text {
        Text::Literal(text) => text.padded(),
        Text::Variable(TextVariable::Execname) => scene.process.execname.padded(),
        Text::Variable(TextVariable::Probeprov) => scene.probe.tuple.provider.padded(),
        Text::Variable(TextVariable::Probemod) => scene.probe.tuple.module.padded(),
        Text::Variable(TextVariable::Probefunc) => scene.probe.tuple.function.padded(),
        Text::Variable(TextVariable::Probename) => scene.probe.tuple.name.padded(),
    }
}

/// The number that an aggregation is given, which is 0 by `count()`.
pub(crate) fn given(call: &Call, scene: &Scene, locals: &Locals) -> Result<i64, EvalFault>
    ensures { (past : LocalsPast) → LocalsAreAt past locals.now → MatchResult result
        (λ number. spec.given (scene_of scene.now) past (form_of_call call.now) ≡ Some (shown_value.Number number))
        (λ _. spec.given (scene_of scene.now) past (form_of_call call.now) ≡ None) }
{
    match call {
        Call::Count => Ok(0),
        Call::Sum(expr)
        | Call::Avg(expr)
        | Call::Min(expr)
        | Call::Max(expr)
        | Call::Quantize(expr)
        | Call::Lquantize(expr, _) => Ok(eval(expr, scene, locals)?),
    }
}

/// Adds the value of a key.
fn put_key(
    values: &mut ArrayVec<Value, VALUES_MAX>,
    key: &Argument,
    scene: &Scene,
    locals: &Locals,
) -> Result<(), EvalFault>
    requires { array_vec_len values.old < VALUES_MAX }
    ensures long { OnOk result (array_vec_len values.new ≡ array_vec_len values.old + 1) }
    ensures given { OnOk result ((past : LocalsPast) → LocalsAreAt past locals.now → (value : ShownValue)
        × (spec.argument_value (scene_of scene.now) past (form_of_argument key.now) ≡ Some value)
        × (values.new.items ≡ values.old.items ++ value ∷ [])) }
    ensures fault { OnErr result ((past : LocalsPast) → LocalsAreAt past locals.now
        → spec.argument_value (scene_of scene.now) past (form_of_argument key.now) ≡ None) }
{
    match key {
        Argument::Number(expr) => {
            let number = eval(expr, scene, locals)?;
            values.push(Value::Number(number));
        }
        Argument::Text(text) => values.push(text.value(scene)),
    }
    Ok(())
}

/// Adds the values of an aggregation's keys.
pub(crate) fn put_keys(
    values: &mut ArrayVec<Value, VALUES_MAX>,
    keys: &[Argument],
    scene: &Scene,
    locals: &Locals,
) -> Result<(), EvalFault>
    requires { array_vec_len values.old + length keys.now ≤ VALUES_MAX }
    ensures long { OnOk result (array_vec_len values.new ≡ array_vec_len values.old + length keys.now) }
    ensures given { OnOk result ((past : LocalsPast) → LocalsAreAt past locals.now → (given : List ShownValue)
        × (each (spec.argument_value (scene_of scene.now) past) (map form_of_argument keys.now) ≡ Some given)
        × (values.new.items ≡ values.old.items ++ given)) }
    ensures fault { OnErr result ((past : LocalsPast) → LocalsAreAt past locals.now
        → each (spec.argument_value (scene_of scene.now) past) (map form_of_argument keys.now) ≡ None) }
{
    for key in keys {
        put_key(values, key, scene, locals)?;
    }
    Ok(())
}
