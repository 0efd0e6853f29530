//! Where in a program the last token that was read stands, and what of a statement was read up to there.
ghost use Rattle.std.specs.Prelude.{◌≡◌, ◌≤◌, option_map, vec_len};
ghost use Rattle.dt_expr.specs.Form.{form_of};
ghost use Rattle.dt_lang.specs.machine.Cause.{keys_full, limit_within};
ghost use Rattle.dt_lang.specs.Grammar.{call_of, statement_of};
ghost use Rattle.dt_lang.specs.machine.ClauseState.{draws};
ghost use Rattle.dt_lang.specs.machine.PlaceView.{key_forms, slot_form};
ghost use Rattle.dt_program.specs.Clause.{aggregate, form_of_argument, form_of_call, form_of_statement};
ghost use Rattle.dt_lang.specs.Stand.{divides_in};

use crate::fault::Limit;
use crate::token::Token;
use crate::word::{Action, Function};
use dt_expr::Expr;
use dt_names::{Name, ShortText};
use dt_program::{AggregationUse, Argument, Call, KEYS_MAX, Statement, TOKENS_MAX};

/// An aggregation's name and keys.
#[derive(Drop)]
pub(crate) struct Target {
    pub(crate) name: ShortText,
    pub(crate) keys: Vec<Argument>,
}

impl Target {
    /// The statement that gives a value to this aggregation.
    pub(crate) fn aggregate(self, call: Call) -> Statement
        requires { vec_len self.keys ≤ KEYS_MAX }
        ensures { form_of_statement result ≡ aggregate self.name (key_forms self) (form_of_call call) }
    {
        Statement::Aggregate(AggregationUse {
            name: self.name,
            keys: self.keys,
            call,
        })
    }
}

/// What an expression or a text is read for.
#[derive(Drop)]
pub(crate) enum Slot {
    /// A predicate.
    Predicate,
    /// What an action is given.
    Given(Action),
    /// A key, after those before it.
    Key(Target),
    /// What an aggregating function is given.
    Value(Target, Function),
    /// What the thread-local variable of this name is given.
    Assignment(Name),
}

impl Slot {
    /// Whether `/` is an operator there, outside parentheses.
    pub(crate) fn divides(&self) -> bool
        ensures { result ≡ divides_in (slot_form self.now) }
    {
        !matches!(self, Slot::Predicate)
    }

    /// The limit that a further token would pass: it is one too many, or the first of one key too many.
    pub(crate) fn limit_within(&self, count: usize) -> Option<Limit>
        ensures { result ≡ limit_within (slot_form self.now) count }
    {
        if count >= TOKENS_MAX {
            Some(Limit::Tokens)
        } else if count == 0 && self.keys_are_full() {
            Some(Limit::Keys)
        } else {
            None
        }
    }

    /// Whether a token is `speculation`, right after the `=` of a variable.
    pub(crate) fn draws(&self, count: usize, token: &Token) -> bool
        ensures { result ≡ draws (slot_form self.now) count token.now }
    {
        matches!(self, Slot::Assignment(_)) && count == 0 && token.is_speculation()
    }

    /// Whether a further key would be one too many.
    fn keys_are_full(&self) -> bool
        ensures { result ≡ keys_full (slot_form self.now) }
    {
        match self {
            Slot::Key(target) => target.keys.len() >= KEYS_MAX,
            _ => false,
        }
    }
}

/// A bound of an `lquantize`, with those before it.
#[derive(Clone, Copy)]
pub(crate) enum Bound {
    Lower,
    Upper { lower: i64 },
    Step { lower: i64, upper: i64 },
}

/// An `lquantize` up to a bound.
#[derive(Drop)]
pub(crate) struct Levels {
    pub(crate) target: Target,
    pub(crate) value: Expr,
    pub(crate) bound: Bound,
}

/// Where in a statement the last token was, and so what stands next.
#[derive(Drop)]
pub(crate) enum StatementPlace {
    /// An action's name.
    Called(Action),
    /// The `(` of `stack`, or of `ustack`, which records frames of the process.
    StackOpened { process: bool },
    /// All of a statement but its `)`.
    Closing(Statement),
    /// An aggregation's name.
    Named(ShortText),
    /// The `]` after the keys.
    Keyed(Target),
    /// The `=` of an aggregation.
    Assigned(Target),
    /// An aggregating function's name.
    Applied(Target, Function),
    /// The `,` in front of a bound.
    Bounding(Levels),
    /// The `-` of a bound.
    Negating(Levels),
    /// A bound.
    Bounded(Levels, i64),
    /// `self`.
    ThreadLocal,
    /// The `->` after it.
    Arrow,
    /// A thread-local variable.
    Variable(Name),
    /// The `speculation` that a variable is given.
    Drawing(Name),
}

/// What the last token was, and so what stands next.
#[derive(Drop)]
pub(crate) enum ReaderPlace {
    /// Nothing, or the end of a clause: a clause may begin.
    Outside,
    /// A description of a head.
    Described,
    /// The `,` after a description.
    Listed,
    /// The `/` that ends the predicate.
    Guarded,
    /// The `{` or a `;`: a statement may begin.
    BeforeStatement,
    /// The end of a statement.
    AfterStatement,
    /// In a statement.
    Inside(StatementPlace),
    /// So many tokens of what is read for a slot.
    Within { slot: Slot, count: usize },
}

/// What an action does with a number or a text, where it is given one.
pub(crate) fn statement_of(action: Action, argument: Argument) -> Option<Statement>
    ensures { option_map form_of_statement result ≡ statement_of action (form_of_argument argument) }
{
    match (action, argument) {
        (Action::Trace, argument) => Some(Statement::Trace(argument)),
        (Action::Exit, Argument::Number(status)) => Some(Statement::Exit(status)),
        (Action::Speculate, Argument::Number(identifier)) => Some(Statement::Speculate(identifier)),
        (Action::Commit, Argument::Number(identifier)) => Some(Statement::Commit(identifier)),
        (Action::Discard, Argument::Number(identifier)) => Some(Statement::Discard(identifier)),
        // a stack's frames are no expression, and a text is only traced
        _ => None,
    }
}

/// What a function of one value is given, where it is one.
pub(crate) fn call_of(function: Function, value: Expr) -> Option<Call>
    ensures { option_map form_of_call result ≡ call_of function (form_of value) }
{
    match function {
        Function::Sum => Some(Call::Sum(value)),
        Function::Avg => Some(Call::Avg(value)),
        Function::Min => Some(Call::Min(value)),
        Function::Max => Some(Call::Max(value)),
        Function::Quantize => Some(Call::Quantize(value)),
        Function::Count | Function::Lquantize => None,
    }
}
