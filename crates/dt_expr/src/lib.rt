//! The expressions of a clause, and their values where a probe has fired.
//!
//! `eval` gives the number that the definition `value` in `specs/Value.antt` gives an expression, and the fault exactly
//! where it gives none: where a division or remainder by zero is evaluated. `Text::value` gives a text's 32 bytes. What
//! the operators do to whole numbers stands in `specs/Operators.antt`, and the laws `representatives`, `divisions`, `bits`
//! and `decisions` say it in plain facts.
//! No call takes memory, and a `Scene` is lent.
#![tactic(auto)]

mod evaluator;
mod expr;
mod laws;
mod operators;
mod scene;
mod text;

pub use evaluator::{EvalFault, eval};
pub use expr::Expr;
pub use laws::{bits, decisions, divisions, places, representatives};
pub use operators::{BinaryOp, TextOp, UnaryOp};
pub use scene::{NumberVariable, Scene, TextVariable};
pub use text::{Text, Value};
