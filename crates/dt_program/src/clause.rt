//! What a program is made of: clauses with their descriptions, predicate and statements.
ghost use Rattle.std.specs.Prelude.{◌≡◌, ◌≤◌, ℕ, IfErr, IfNone, IfOk, IfSome, None, OnOk, Some, pos, vec_len};
ghost use Rattle.dt_program.specs.Bounds.{bounds_fault};
ghost use Rattle.dt_program.specs.declared.clause.TheConstants.{DESCRIPTIONS_MAX, STATEMENTS_MAX, KEYS_MAX, FRAMES_MAX};

use crate::description::Description;
use dt_aggfn::Bounds;
use dt_expr::{Expr, Text};
use dt_names::{Name, ShortText};
use thiserror::Error;

/// The most descriptions of a clause.
pub const DESCRIPTIONS_MAX: usize = 16;

/// The most statements of a clause.
pub const STATEMENTS_MAX: usize = 8;

/// The most keys of an aggregation.
pub const KEYS_MAX: usize = 4;

/// The most frames of a stack.
pub const FRAMES_MAX: u8 = 8;

/// What a record or a key is given: a number or a text.
#[derive(Drop)]
pub enum Argument {
    Number(Expr),
    Text(Text),
}

/// How many frames of a stack are recorded: 1 to [`FRAMES_MAX`].
#[derive(Clone, Copy, Debug, PartialEq, Eq)]
pub struct Frames {
    pub count: u8,
    pub ghost some: { 1 ≤ count },
    pub ghost few: { count ≤ FRAMES_MAX },
}

/// Why numbers are no bounds of levels: the first rule that they break.
#[derive(Clone, Copy, Debug, PartialEq, Eq, Error)]
pub enum BoundsFault {
    /// The lower bound isn't below the upper one.
    #[error("the lower bound is not below the upper one")]
    NotRising,
    /// The step is 0 or negative.
    #[error("the step is not above 0")]
    NoStep,
    /// The last level would not end at the upper bound.
    #[error("the step does not divide the range")]
    Uneven,
    /// There would be more than [`dt_aggfn::LEVELS_MAX`] levels.
    #[error("more than 512 levels")]
    TooMany,
}

/// The levels with these bounds, where there are some and not too many; else the first rule that the numbers break.
pub fn checked_bounds(lower: i64, upper: i64, step: i64) -> Result<Bounds, BoundsFault>
    ensures found { IfOk result (λ bounds. (bounds.lower ≡ lower) × (bounds.upper ≡ upper)
        × (bounds.step ≡ step)) }
    ensures right { OnOk result (bounds_fault lower upper step ≡ None) }
    ensures fault { IfErr result (λ fault. bounds_fault lower upper step ≡ Some fault) }
{
    if lower >= upper {
        return Err(BoundsFault::NotRising);
    }
    if step <= 0 {
        return Err(BoundsFault::NoStep);
    }
    let width = i128::from(upper) - i128::from(lower);
    let each = i128::from(step);
    // the levels must end exactly at the upper bound
    if width % each != 0 {
        return Err(BoundsFault::Uneven);
    }
    // whatever else breaks none of these rules has too many levels
    match Bounds::new(lower, upper, step) {
        Some(bounds) => Ok(bounds),
        None => Err(BoundsFault::TooMany),
    }
}

impl Frames {
    /// So many frames, where a stack may have so many.
    pub fn new(count: i64) -> Option<Self>
        ensures found { IfSome result (λ frames. count ≡ pos frames.count) }
        ensures none { IfNone result ((n : ℕ) → count ≡ pos n → 1 ≤ n → n ≤ FRAMES_MAX → ⊥) }
    {
        let count = u8::try_from(count).ok()?;
        // a stack is recorded with one frame at least, and a firing has no more than eight
        if count == 0 || count > FRAMES_MAX {
            return None;
        }
        Some(Frames { count })
    }
}

/// What an aggregation is given, and by which function it is kept.
#[derive(Drop)]
pub enum Call {
    Count,
    Sum(Expr),
    Avg(Expr),
    Min(Expr),
    Max(Expr),
    Quantize(Expr),
    Lquantize(Expr, Bounds),
}

/// A use of an aggregation: `@name[keys] = function(value)`. (illumos Dynamic Tracing Guide, "Aggregations".)
#[derive(Drop)]
pub struct AggregationUse {
    pub name: ShortText,
    /// At most [`KEYS_MAX`].
    pub keys: Vec<Argument>,
    pub call: Call,
    pub ghost few: { vec_len keys ≤ KEYS_MAX },
}

/// What a clause does when it is taken.
#[derive(Drop)]
pub enum Statement {
    /// `trace(e)`: the record gets the value.
    Trace(Argument),
    /// `stack(n)`: the record gets the first frames of the kernel's stack.
    Stack(Frames),
    /// `ustack(n)`: the record gets the first frames of the process's stack.
    Ustack(Frames),
    /// `exit(e)`: tracing stops with this status.
    Exit(Expr),
    /// The value is given to an aggregation.
    Aggregate(AggregationUse),
    /// `self->x = e`: the variable of this name of the thread in which the probe fired gets the value.
    Assign(Name, Expr),
    /// `self->x = speculation()`: the variable gets the identifier that is drawn, 0 where none is free.
    Draw(Name),
    /// `speculate(e)`: the record goes to the speculation of this identifier.
    Speculate(Expr),
    /// `commit(e)`: the records of this identifier's speculation go to the principal buffers.
    Commit(Expr),
    /// `discard(e)`: the records of this identifier's speculation are thrown away.
    Discard(Expr),
}

/// What is to be done at the probes that some descriptions ask for, where the predicate, if there is one, isn't 0.
/// (illumos Dynamic Tracing Guide, "Program Structure".)
#[derive(Drop)]
pub struct Clause {
    /// At most [`STATEMENTS_MAX`].
    pub statements: Vec<Statement>,
    pub predicate: Option<Expr>,
    /// One at least, and at most [`DESCRIPTIONS_MAX`].
    pub descriptions: Vec<Description>,
    pub ghost described: { 1 ≤ vec_len descriptions },
    pub ghost few_descriptions: { vec_len descriptions ≤ DESCRIPTIONS_MAX },
    pub ghost few: { vec_len statements ≤ STATEMENTS_MAX },
}
