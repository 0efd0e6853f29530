//! A program: clauses, one at least.
ghost use Rattle.std.specs.Prelude.{◌≤◌, vec_len};
ghost use Rattle.dt_program.specs.declared.program.TheConstants.{CLAUSES_MAX};

use crate::clause::Clause;

/// The most clauses of a program.
pub const CLAUSES_MAX: usize = 64;

/// The most tokens of a predicate, an argument, a key or a value.
pub const TOKENS_MAX: usize = 64;

/// A program: its clauses, in order.
#[derive(Drop)]
pub struct Program {
    /// One at least, and at most [`CLAUSES_MAX`].
    pub clauses: Vec<Clause>,
    pub ghost some: { 1 ≤ vec_len clauses },
    pub ghost few: { vec_len clauses ≤ CLAUSES_MAX },
}
