//! Expressions as trees.

use crate::operators::{BinaryOp, TextOp, UnaryOp};
use crate::scene::NumberVariable;
use crate::text::Text;
use dt_names::Name;

/// An expression of the clause language, whose value is a signed number of 64 bits.
///
/// Contracts see it as a `Form`, which is the same tree without where its parts lie in memory. (illumos Dynamic Tracing
/// Guide, "Types, Operators and Expressions".)
#[derive(Drop)]
pub enum Expr {
    /// A number as it is written.
    Number(i64),
    /// A variable that names a number of the scene.
    Variable(NumberVariable),
    /// `self->x`: the variable of this name of the thread in which the probe fired.
    Local(Name),
    /// An operator before its operand.
    Unary(UnaryOp, Box<Expr>),
    /// An operator between its operands: the left one, then the right one.
    Binary(BinaryOp, Box<Expr>, Box<Expr>),
    /// A comparison of two texts.
    Compare(TextOp, Text, Text),
}
