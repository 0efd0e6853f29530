//! The evaluation of an expression.
ghost use Rattle.std.specs.Prelude.{◌≡◌, Some, None, IfSome, MatchResult};
ghost use Rattle.dt_expr.specs.Form.{form_of};
ghost use Rattle.dt_expr.specs.Scene.{scene_of};
ghost use Rattle.dt_expr.specs.Found.{IsFound};
ghost use Rattle.dt_expr.specs.Value.{local_named, value};
ghost use Rattle.dt_locals.specs.History.{LocalsPast};
ghost use Rattle.dt_locals.specs.LocalsAreAt.{LocalsAreAt};

use crate::expr::Expr;
use crate::scene::Scene;
use dt_locals::Locals;
use dt_names::Name;
use thiserror::Error;

/// Why an expression has no value.
#[derive(Clone, Copy, Debug, PartialEq, Eq, Error)]
pub enum EvalFault {
    /// A division or a remainder by zero was evaluated.
    #[error("division by zero")]
    DivZero,
}

/// The value of an expression in a scene, where thread-local variables are as they are lent.
///
/// Numbers are signed and of 64 bits, and wrap. [`EvalFault::DivZero`] comes exactly where a division or a remainder by
/// zero is evaluated, which one on the right of `&&` or `||` is only where the left side does not decide. It takes no
/// memory but the stack, which grows with the depth of the tree.
///
/// Inlined: what most clauses evaluate is a number or a variable of the scene, which then takes no call.
#[inline(always)]
pub fn eval(expr: &Expr, scene: &Scene, locals: &Locals) -> Result<i64, EvalFault>
    ensures { (past : LocalsPast) → LocalsAreAt past locals.now
        → MatchResult result (λ number. value (scene_of scene.now) past (form_of expr.now) ≡ Some number)
        (λ _. value (scene_of scene.now) past (form_of expr.now) ≡ None) }
{
    if let Some(number) = leaf(expr, scene) {
        return Ok(number);
    }
    let mut divided_by_zero = false;
    let number = number_of(expr, &EvalPlace { scene, locals }, &mut divided_by_zero);
    if divided_by_zero {
        return Err(EvalFault::DivZero);
    }
    Ok(number)
}

/// Where an expression is evaluated: in a scene, where thread-local variables are as they are lent. One word for each step of
/// an evaluation to hand on.
#[derive(Clone, Copy)]
struct EvalPlace<'a> {
    scene: &'a Scene<'a>,
    locals: &'a Locals,
}

/// The number of an expression. Where a division by zero is evaluated the mark is set, and the number means nothing.
///
/// A mark, and no fault at each step: there is nothing to look at between two operators, and a number stays in its register.
fn number_of(expr: &Expr, place: &EvalPlace, divided_by_zero: &mut bool) -> i64
    ensures { (past : LocalsPast) → LocalsAreAt past place.now.locals.now
        → IsFound (value (scene_of place.now.scene.now) past (form_of expr.now)) result divided_by_zero.old divided_by_zero.new }
{
    match expr {
        Expr::Number(number) => *number,
        Expr::Variable(variable) => place.scene.number(*variable),
        Expr::Local(name) => local(name, &*place),
        Expr::Unary(op, operand) => op.apply(number_of(operand, &*place, divided_by_zero)),
        Expr::Binary(op, left, right) => {
            // most operands are numbers and variables, which take no call
            let left = match leaf(left, place.scene) {
                Some(number) => number,
                None => number_of(left, &*place, divided_by_zero),
            };
            // the left side decides: the right one isn't evaluated, and a division by zero in it is no fault
            if let Some(number) = op.decided(left) {
                return number;
            }
            let right = match leaf(right, place.scene) {
                Some(number) => number,
                None => number_of(right, &*place, divided_by_zero),
            };
            op.apply(left, right, divided_by_zero)
        }
        Expr::Compare(op, left, right) => {
            op.apply(left.bytes(place.scene), right.bytes(place.scene))
        }
    }
}

/// The value of a thread-local variable of the thread in which the probe fired.
///
/// Never inlined: what the lookup keeps on the stack would be made room for at each step of every evaluation.
#[inline(never)]
fn local(name: &Name, place: &EvalPlace) -> i64
    ensures { (past : LocalsPast) → LocalsAreAt past place.now.locals.now
        → result ≡ local_named (scene_of place.now.scene.now) past name.now }
{
    let firing = place.scene.firing;
    place.locals.get(firing.pid, firing.tid, name)
}

/// The number of an expression that has no operands: a number or a variable of the scene.
fn leaf(expr: &Expr, scene: &Scene) -> Option<i64>
    ensures { IfSome result (λ number. (past : LocalsPast) → value (scene_of scene.now) past (form_of expr.now) ≡ Some number) }
{
    match expr {
        Expr::Number(number) => Some(*number),
        Expr::Variable(variable) => Some(scene.number(*variable)),
        _ => None,
    }
}
