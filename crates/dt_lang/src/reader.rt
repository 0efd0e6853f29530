//! The reader of programs: a token at a time.
ghost use Rattle.std.specs.Prelude.{◌≡◌, ◌≤◌, ◌<◌, IfOk, None, Some, false, if◌then◌else◌, option_map, [], ◌∷◌, ◌++◌, vec_len};
ghost use Rattle.dt_expr.specs.Form.{form_of};
ghost use Rattle.dt_lang.specs.machine.ClauseState.{from_self, from_arrow, from_variable, from_drawing, shut_assignment, begin_draw, program_step, inside_step_from, inside, bounded, bounding, from_bounded, ended, entered, finished, from_applied, from_assigned, from_before_statement, from_bounding, from_called, from_closing, from_described, from_after_statement, from_stack_opened, from_guarded, from_keyed, from_listed, from_named, from_negating, from_outside, headed, outside, shut, shut_key, shut_predicate, shut_value, program_at, program_start, from_within, shut_given};
ghost use Rattle.dt_lang.specs.machine.Cause.{out_of_range_at};
ghost use Rattle.dt_lang.specs.machine.ShownCause.{AnswersToken, ShownOutcome};
ghost use Rattle.dt_lang.specs.machine.Fits.{Fits, FitsClause, FitsInside, FitsStatement, FitsWithin, SlotHasRoom};
ghost use Rattle.dt_lang.specs.machine.ExpressionView.{state_of};
ghost use Rattle.dt_lang.specs.machine.PlaceView.{bound_of, inside_form, key_forms, place_form, slot_form};
ghost use Rattle.dt_program.specs.Clause.{aggregate, form_of_argument, lquantize, form_of_statement, number};
ghost use Rattle.dt_program.specs.Program.{form_of_program};
ghost use Rattle.dt_lang.specs.machine.ReaderView.{Leads, clause_of, clauses_of, program_state_of};
ghost use Rattle.dt_program.specs.Bounds.{bounds_fault};
ghost use Rattle.dt_program.specs.declared.clause.TheConstants.{DESCRIPTIONS_MAX, KEYS_MAX, STATEMENTS_MAX};

mod refusing;

use crate::expression::ExpressionReader;
use crate::fault::{Flaw, TokenRefusal};
use crate::place::{
    Bound, Levels, ReaderPlace, Slot, StatementPlace, Target, call_of, statement_of,
};
use crate::token::{Sign, Token};
use crate::word::{Action, Function, Keyword, Word};
use dt_expr::Expr;
use dt_names::{Name, ShortText};
use dt_program::{Argument, Call, Clause, Description, Frames, Program, Statement, checked_bounds};
use std::alloc::{AllocError, Global};
use std::mem;

/// Reads a program token by token. (illumos Dynamic Tracing Guide, "Program Structure".)
///
/// It has no recursion, and holds no more than what it has read.
#[derive(Drop)]
pub(crate) struct ProgramReader {
    clauses: Vec<Clause>,
    descriptions: Vec<Description>,
    predicate: Option<Expr>,
    statements: Vec<Statement>,
    expression: ExpressionReader,
    place: ReaderPlace,
}

impl ProgramReader {
    /// A reader that has read nothing.
    pub(crate) fn new(alloc: Global) -> Self
        ensures { program_state_of result ≡ program_start }
    {
        ProgramReader {
            clauses: Vec::new(alloc),
            descriptions: Vec::new(alloc),
            predicate: None,
            statements: Vec::new(alloc),
            expression: ExpressionReader::new(alloc),
            place: ReaderPlace::Outside,
        }
    }

    /// Reads a token, or says why it is refused.
    pub(crate) fn push(
        &mut self,
        alloc: Global,
        token: Token,
    ) -> Result<Option<TokenRefusal>, AllocError>
        requires { Fits (program_state_of self.old) }
        ensures { IfOk result (λ refused. AnswersToken (program_state_of self.old) token refused
            (program_state_of self.new)) }
    {
        // of the causes of one token TooLong goes before all others
        if let Some(limit) = self.exceeds(alloc, &token)? {
            return Ok(Some(TokenRefusal::Flaw(Flaw::TooLong(limit))));
        }
        // next come the causes that the token shows at its place: they go before Range and Syntax
        if let Some(refusal) = self.shown(&token) {
            return Ok(Some(refusal));
        }
        match self.step(alloc, token)? {
            Some(flaw) => Ok(Some(TokenRefusal::Flaw(flaw))),
            None => Ok(None),
        }
    }

    /// The program that was read, where it is whole.
    #[tactic(auto, unfolding(crate::specs::machine::ClauseState::finished))]
    pub(crate) fn finish(&mut self, alloc: Global) -> Option<Program>
        requires { Fits (program_state_of self.old) }
        ensures { option_map form_of_program result ≡ finished (program_state_of self.old) }
    {
        match self.place {
            ReaderPlace::Outside if !self.clauses.is_empty() => Some(Program {
                clauses: mem::replace(&mut self.clauses, Vec::new(alloc)),
            }),
            _ => None,
        }
    }

    /// Stands at a place. All that moves on goes through it, since what stood there before has to be let go of: once here, and not in each caller.
    fn go_to(&mut self, place: ReaderPlace)
        ensures { program_state_of self.new ≡ program_at (clauses_of self.old) (clause_of self.old)
            (place_form (state_of self.old.expression) place) }
    {
        self.place = place;
    }

    /// Begins what is read for a slot.
    fn enter(&mut self, slot: Slot)
        ensures { program_state_of self.new ≡ entered (clauses_of self.old) (clause_of self.old) (slot_form slot) }
    {
        self.expression.begin(slot.divides());
        self.go_to(ReaderPlace::Within { slot, count: 0 });
    }

    /// Ends a statement.
    fn end_statement(&mut self, statement: Statement) -> Result<(), AllocError>
        ensures { IfOk result (λ _. program_state_of self.new
            ≡ ended (clauses_of self.old) (clause_of self.old) (form_of_statement statement)) }
    {
        self.statements.push(statement)?;
        self.go_to(ReaderPlace::AfterStatement);
        Ok(())
    }

    /// Ends a clause.
    fn end_clause(&mut self, alloc: Global) -> Result<(), AllocError>
        requires { FitsClause (clauses_of self.old) (clause_of self.old) }
        ensures { IfOk result (λ _. program_state_of self.new
            ≡ program_at (clauses_of self.old ++ (clause_of self.old ∷ [])) (headed []) outside) }
    {
        let clause = Clause {
            descriptions: mem::replace(&mut self.descriptions, Vec::new(alloc)),
            predicate: mem::replace(&mut self.predicate, None),
            statements: mem::replace(&mut self.statements, Vec::new(alloc)),
        };
        self.clauses.push(clause)?;
        self.go_to(ReaderPlace::Outside);
        Ok(())
    }

    /// Reads a token where a clause may begin.
    fn from_outside(&mut self, alloc: Global, token: Token) -> Result<bool, AllocError>
        ensures { IfOk result (λ on. Leads (from_outside (clauses_of self.old) token) on (program_state_of self.new)) }
    {
        match token {
            Token::Description(Ok(description)) => {
                let mut descriptions = Vec::new(alloc);
                descriptions.push(description)?;
                self.descriptions = descriptions;
                self.predicate = None;
                self.statements = Vec::new(alloc);
                self.go_to(ReaderPlace::Described);
                Ok(true)
            }
            _ => Ok(false),
        }
    }

    /// Reads a token after a description.
    fn from_described(&mut self, token: &Token) -> bool
        ensures { Leads (from_described (clauses_of self.old) (clause_of self.old) token.now) result
            (program_state_of self.new) }
    {
        match token {
            Token::Sign(Sign::Comma) => {
                self.go_to(ReaderPlace::Listed);
                true
            }
            Token::Sign(Sign::Slash) => {
                self.enter(Slot::Predicate);
                true
            }
            Token::Sign(Sign::OpenBrace) => {
                self.go_to(ReaderPlace::BeforeStatement);
                true
            }
            _ => false,
        }
    }

    /// Reads a token after the `,` of a head.
    fn from_listed(&mut self, token: Token) -> Result<bool, AllocError>
        ensures { IfOk result (λ on. Leads (from_listed (clauses_of self.old) (clause_of self.old) token) on
            (program_state_of self.new)) }
    {
        match token {
            Token::Description(Ok(description)) => {
                self.descriptions.push(description)?;
                self.go_to(ReaderPlace::Described);
                Ok(true)
            }
            _ => Ok(false),
        }
    }

    /// Reads a token after a predicate.
    fn from_guarded(&mut self, token: &Token) -> bool
        ensures { Leads (from_guarded (clauses_of self.old) (clause_of self.old) token.now) result
            (program_state_of self.new) }
    {
        match token {
            Token::Sign(Sign::OpenBrace) => {
                self.go_to(ReaderPlace::BeforeStatement);
                true
            }
            _ => false,
        }
    }

    /// Reads a token where a statement may begin.
    fn from_before_statement(&mut self, alloc: Global, token: &Token) -> Result<bool, AllocError>
        requires { FitsClause (clauses_of self.old) (clause_of self.old) }
        ensures { IfOk result (λ on. Leads (from_before_statement (clauses_of self.old) (clause_of self.old) token.now) on
            (program_state_of self.new)) }
    {
        match token {
            Token::Sign(Sign::Semicolon) => self.go_to(ReaderPlace::BeforeStatement),
            Token::Sign(Sign::CloseBrace) => self.end_clause(alloc)?,
            Token::Word(Word::Action(action)) => self.go_to(ReaderPlace::Inside(
                StatementPlace::Called(*action),
            )),
            Token::Aggregation(name) => self.go_to(ReaderPlace::Inside(StatementPlace::Named(
                *name,
            ))),
            Token::Word(Word::Keyword(Keyword::ThreadLocal)) => self.go_to(ReaderPlace::Inside(
                StatementPlace::ThreadLocal,
            )),
            // nothing else begins a statement or ends the clause
            _ => return Ok(false),
        }
        Ok(true)
    }

    /// Reads a token after a statement.
    fn from_after_statement(&mut self, alloc: Global, token: &Token) -> Result<bool, AllocError>
        requires { FitsClause (clauses_of self.old) (clause_of self.old) }
        ensures { IfOk result (λ on. Leads (from_after_statement (clauses_of self.old) (clause_of self.old) token.now) on
            (program_state_of self.new)) }
    {
        match token {
            Token::Sign(Sign::Semicolon) => self.go_to(ReaderPlace::BeforeStatement),
            Token::Sign(Sign::CloseBrace) => self.end_clause(alloc)?,
            // after a statement stands a `;` or the clause's end
            _ => return Ok(false),
        }
        Ok(true)
    }

    /// Reads a token after an action's name.
    fn from_called(&mut self, action: Action, token: &Token) -> bool
        ensures { Leads (from_called (clauses_of self.old) (clause_of self.old) action token.now) result
            (program_state_of self.new) }
    {
        match token {
            Token::Sign(Sign::OpenParen) => {
                match action {
                    Action::Stack => self.go_to(ReaderPlace::Inside(StatementPlace::StackOpened {
                        process: false,
                    })),
                    Action::Ustack => self.go_to(ReaderPlace::Inside(StatementPlace::StackOpened {
                        process: true,
                    })),
                    _ => self.enter(Slot::Given(action)),
                }
                true
            }
            _ => false,
        }
    }

    /// Reads a token after the `(` of an action that records frames of a stack.
    fn from_stack_opened(&mut self, process: bool, token: &Token) -> bool
        ensures { Leads (from_stack_opened (clauses_of self.old) (clause_of self.old) process token.now) result
            (program_state_of self.new) }
    {
        // how many frames is written as a number, and is no expression
        let Token::Number(count) = token else {
            return false;
        };
        // a stack of no frames or of more than eight is refused for its syntax, at the number
        let Some(frames) = Frames::new(*count) else {
            return false;
        };
        let statement = if process {
            Statement::Ustack(frames)
        } else {
            Statement::Stack(frames)
        };
        self.go_to(ReaderPlace::Inside(StatementPlace::Closing(statement)));
        true
    }

    /// Reads the token that ends a statement.
    fn from_closing(&mut self, statement: Statement, token: &Token) -> Result<bool, AllocError>
        ensures { IfOk result (λ on. Leads
            (from_closing (clauses_of self.old) (clause_of self.old) (form_of_statement statement) token.now) on
            (program_state_of self.new)) }
    {
        match token {
            Token::Sign(Sign::CloseParen) => {
                self.end_statement(statement)?;
                Ok(true)
            }
            _ => Ok(false),
        }
    }

    /// Reads a token after an aggregation's name.
    fn from_named(&mut self, alloc: Global, name: ShortText, token: &Token) -> bool
        ensures { Leads (from_named (clauses_of self.old) (clause_of self.old) name token.now) result
            (program_state_of self.new) }
    {
        let target = Target {
            name,
            keys: Vec::new(alloc),
        };
        match token {
            Token::Sign(Sign::OpenBracket) => {
                self.enter(Slot::Key(target));
                true
            }
            Token::Sign(Sign::Equal) => {
                self.go_to(ReaderPlace::Inside(StatementPlace::Assigned(target)));
                true
            }
            _ => false,
        }
    }

    /// Reads a token after an aggregation's keys.
    fn from_keyed(&mut self, target: Target, token: &Token) -> bool
        ensures { Leads (from_keyed (clauses_of self.old) (clause_of self.old) target.name (key_forms target) token.now)
            result (program_state_of self.new) }
    {
        match token {
            Token::Sign(Sign::Equal) => {
                self.go_to(ReaderPlace::Inside(StatementPlace::Assigned(target)));
                true
            }
            _ => false,
        }
    }

    /// Reads a token after the `=` of an aggregation.
    fn from_assigned(&mut self, target: Target, token: &Token) -> bool
        ensures { Leads
            (from_assigned (clauses_of self.old) (clause_of self.old) target.name (key_forms target) token.now) result
            (program_state_of self.new) }
    {
        match token {
            Token::Word(Word::Function(function)) => {
                self.go_to(ReaderPlace::Inside(StatementPlace::Applied(target, *function)));
                true
            }
            _ => false,
        }
    }

    /// Reads a token after an aggregating function's name.
    fn from_applied(&mut self, target: Target, function: Function, token: &Token) -> bool
        requires { vec_len target.keys ≤ KEYS_MAX }
        ensures { Leads
            (from_applied (clauses_of self.old) (clause_of self.old) target.name (key_forms target) function token.now)
            result (program_state_of self.new) }
    {
        match token {
            Token::Sign(Sign::OpenParen) => {
                match function {
                    Function::Count => self.go_to(ReaderPlace::Inside(StatementPlace::Closing(
                        target.aggregate(Call::Count),
                    ))),
                    _ => self.enter(Slot::Value(target, function)),
                }
                true
            }
            _ => false,
        }
    }

    /// Reads a token of what is read for a slot, or the token that ends it.
    fn from_within(
        &mut self,
        alloc: Global,
        slot: Slot,
        count: usize,
        token: &Token,
    ) -> Result<bool, AllocError>
        requires { FitsWithin (clauses_of self.old) (clause_of self.old) (slot_form slot) count
            (state_of self.old.expression) }
        ensures { IfOk result (λ on. Leads
            (from_within (clauses_of self.old) (clause_of self.old) (slot_form slot) count
            (state_of self.old.expression) token.now) on (program_state_of self.new)) }
    {
        // the longest expression is read: the slot ends at the first token that doesn't go on with it
        if self.expression.push(alloc, token)? {
            self.go_to(ReaderPlace::Within {
                slot,
                count: count + 1,
            });
            return Ok(true);
        }
        match self.expression.finish(alloc)? {
            Some(argument) => self.shut(alloc, slot, argument, token),
            None => Ok(self.begin_draw(slot, count, token)),
        }
    }

    /// Reads `speculation` where a variable's value begins.
    fn begin_draw(&mut self, slot: Slot, count: usize, token: &Token) -> bool
        ensures { Leads (begin_draw (clauses_of self.old) (clause_of self.old) (slot_form slot) count token.now) result
            (program_state_of self.new) }
    {
        match slot {
            Slot::Assignment(name) if count == 0 && token.is_speculation() => {
                self.go_to(ReaderPlace::Inside(StatementPlace::Drawing(name)));
                true
            }
            _ => false,
        }
    }

    /// Ends what was read for a slot.
    fn shut(
        &mut self,
        alloc: Global,
        slot: Slot,
        argument: Argument,
        token: &Token,
    ) -> Result<bool, AllocError>
        requires { SlotHasRoom (clauses_of self.old) (clause_of self.old) (slot_form slot) }
        ensures { IfOk result (λ on. Leads
            (shut (clauses_of self.old) (clause_of self.old) (slot_form slot) token.now (form_of_argument argument)) on
            (program_state_of self.new)) }
    {
        match slot {
            Slot::Predicate => match argument {
                Argument::Number(value) => Ok(self.shut_predicate(value, token)),
                Argument::Text(_) => Ok(false),
            },
            Slot::Given(action) => self.shut_given(action, argument, token),
            Slot::Key(target) => self.shut_key(target, argument, token),
            Slot::Value(target, function) => match argument {
                Argument::Number(value) => self.shut_value(target, function, value, token),
                Argument::Text(_) => Ok(false),
            },
            Slot::Assignment(name) => match argument {
                Argument::Number(value) => self.shut_assignment(alloc, name, value, token),
                Argument::Text(_) => Ok(false),
            },
        }
    }

    /// Ends a predicate.
    fn shut_predicate(&mut self, value: Expr, token: &Token) -> bool
        ensures { Leads (shut_predicate (clauses_of self.old) (clause_of self.old) (number (form_of value)) token.now)
            result (program_state_of self.new) }
    {
        match token {
            Token::Sign(Sign::Slash) => {
                self.predicate = Some(value);
                self.go_to(ReaderPlace::Guarded);
                true
            }
            _ => false,
        }
    }

    /// Ends what an action is given.
    fn shut_given(
        &mut self,
        action: Action,
        argument: Argument,
        token: &Token,
    ) -> Result<bool, AllocError>
        ensures { IfOk result (λ on. Leads
            (shut_given (clauses_of self.old) (clause_of self.old) action (form_of_argument argument) token.now) on
            (program_state_of self.new)) }
    {
        match token {
            Token::Sign(Sign::CloseParen) => match statement_of(action, argument) {
                Some(statement) => {
                    self.end_statement(statement)?;
                    Ok(true)
                }
                None => Ok(false),
            },
            _ => Ok(false),
        }
    }

    /// Ends a key.
    fn shut_key(
        &mut self,
        target: Target,
        argument: Argument,
        token: &Token,
    ) -> Result<bool, AllocError>
        ensures { IfOk result (λ on. Leads
            (shut_key (clauses_of self.old) (clause_of self.old) target.name (key_forms target)
            (form_of_argument argument) token.now) on (program_state_of self.new)) }
    {
        let mut target = target;
        target.keys.push(argument)?;
        match token {
            Token::Sign(Sign::Comma) => self.enter(Slot::Key(target)),
            Token::Sign(Sign::CloseBracket) => self.go_to(ReaderPlace::Inside(StatementPlace::Keyed(
                target,
            ))),
            // after a key stands a further one or the keys' end
            _ => return Ok(false),
        }
        Ok(true)
    }

    /// Ends what an aggregating function is given.
    fn shut_value(
        &mut self,
        target: Target,
        function: Function,
        value: Expr,
        token: &Token,
    ) -> Result<bool, AllocError>
        requires { vec_len target.keys ≤ KEYS_MAX }
        ensures { IfOk result (λ on. Leads
            (shut_value (clauses_of self.old) (clause_of self.old) target.name (key_forms target) function
            (number (form_of value)) token.now) on (program_state_of self.new)) }
    {
        match token {
            Token::Sign(Sign::CloseParen) => match call_of(function, value) {
                Some(call) => {
                    self.end_statement(target.aggregate(call))?;
                    Ok(true)
                }
                None => Ok(false),
            },
            Token::Sign(Sign::Comma) if function == Function::Lquantize => {
                self.go_to(ReaderPlace::Inside(StatementPlace::Bounding(Levels {
                    target,
                    value,
                    bound: Bound::Lower,
                })));
                Ok(true)
            }
            _ => Ok(false),
        }
    }

    /// Ends a variable's value, and with it the statement.
    fn shut_assignment(
        &mut self,
        alloc: Global,
        name: Name,
        value: Expr,
        token: &Token,
    ) -> Result<bool, AllocError>
        requires { FitsStatement (clauses_of self.old) (clause_of self.old) }
        ensures { IfOk result (λ on. Leads
            (shut_assignment (clauses_of self.old) (clause_of self.old) name (number (form_of value)) token.now) on
            (program_state_of self.new)) }
    {
        self.statements.push(Statement::Assign(name, value))?;
        self.from_after_statement(alloc, token)
    }

    /// Reads a token after `self`.
    fn from_self(&mut self, token: &Token) -> bool
        ensures { Leads (from_self (clauses_of self.old) (clause_of self.old) token.now) result
            (program_state_of self.new) }
    {
        match token {
            Token::Sign(Sign::Arrow) => {
                self.go_to(ReaderPlace::Inside(StatementPlace::Arrow));
                true
            }
            _ => false,
        }
    }

    /// Reads a token after `self` and `->`: any identifier names a variable.
    fn from_arrow(&mut self, token: &Token) -> bool
        ensures { Leads (from_arrow (clauses_of self.old) (clause_of self.old) token.now) result
            (program_state_of self.new) }
    {
        match token.name() {
            Some(name) => {
                self.go_to(ReaderPlace::Inside(StatementPlace::Variable(name)));
                true
            }
            None => false,
        }
    }

    /// Reads a token after a thread-local variable.
    fn from_variable(&mut self, name: Name, token: &Token) -> bool
        ensures { Leads (from_variable (clauses_of self.old) (clause_of self.old) name token.now) result
            (program_state_of self.new) }
    {
        match token {
            Token::Sign(Sign::Equal) => {
                self.enter(Slot::Assignment(name));
                true
            }
            _ => false,
        }
    }

    /// Reads a token after the `speculation` that a variable is given.
    fn from_drawing(&mut self, name: Name, token: &Token) -> bool
        ensures { Leads (from_drawing (clauses_of self.old) (clause_of self.old) name token.now) result
            (program_state_of self.new) }
    {
        match token {
            Token::Sign(Sign::OpenParen) => {
                self.go_to(ReaderPlace::Inside(StatementPlace::Closing(Statement::Draw(name))));
                true
            }
            _ => false,
        }
    }

    /// Reads a token where a bound stands.
    fn from_bounding(&mut self, levels: Levels, token: &Token) -> bool
        ensures { Leads
            (from_bounding (clauses_of self.old) (clause_of self.old) levels.target.name (key_forms levels.target)
            (form_of levels.value) (bound_of levels.bound) token.now) result (program_state_of self.new) }
    {
        match token {
            Token::Number(number) if *number >= 0 => {
                self.go_to(ReaderPlace::Inside(StatementPlace::Bounded(levels, *number)));
                true
            }
            Token::Sign(Sign::Minus) => {
                self.go_to(ReaderPlace::Inside(StatementPlace::Negating(levels)));
                true
            }
            _ => false,
        }
    }

    /// Reads a token after the `-` of a bound.
    fn from_negating(&mut self, levels: Levels, token: &Token) -> bool
        ensures { Leads
            (from_negating (clauses_of self.old) (clause_of self.old) levels.target.name (key_forms levels.target)
            (form_of levels.value) (bound_of levels.bound) token.now) result (program_state_of self.new) }
    {
        match token {
            Token::Number(number) if *number >= 0 => {
                self.go_to(ReaderPlace::Inside(StatementPlace::Bounded(levels, -*number)));
                true
            }
            _ => false,
        }
    }

    /// Reads a token after a bound.
    fn from_bounded(
        &mut self,
        levels: Levels,
        last: i64,
        token: &Token,
    ) -> Result<Option<Flaw>, AllocError>
        requires { vec_len levels.target.keys ≤ KEYS_MAX }
        // goes on, or is refused: for Range where bounds of an `lquantize` make no levels, else Syntax
        ensures { IfOk result (λ flaw. ShownOutcome
            (from_bounded (clauses_of self.old) (clause_of self.old) levels.target.name (key_forms levels.target)
            (form_of levels.value) (bound_of levels.bound) last token.now)
            (out_of_range_at (inside (bounded levels.target.name (key_forms levels.target) (form_of levels.value)
            (bound_of levels.bound) last)) token.now) flaw (program_state_of self.new)) }
    {
        let Levels {
            target,
            value,
            bound,
        } = levels;
        match (bound, token) {
            (Bound::Lower, Token::Sign(Sign::Comma)) => {
                self.begin_bound(target, value, Bound::Upper { lower: last });
                Ok(None)
            }
            (Bound::Upper { lower }, Token::Sign(Sign::Comma)) => {
                self.begin_bound(target, value, Bound::Step { lower, upper: last });
                Ok(None)
            }
            (Bound::Upper { lower }, Token::Sign(Sign::CloseParen)) => {
                self.end_levels(target, value, lower, last, 1)
            }
            (Bound::Step { lower, upper }, Token::Sign(Sign::CloseParen)) => {
                self.end_levels(target, value, lower, upper, last)
            }
            _ => Ok(Some(Flaw::Syntax)),
        }
    }

    /// Begins a bound.
    fn begin_bound(&mut self, target: Target, value: Expr, bound: Bound)
        ensures { program_state_of self.new ≡ program_at (clauses_of self.old) (clause_of self.old)
            (inside (bounding target.name (key_forms target) (form_of value) (bound_of bound))) }
    {
        self.go_to(ReaderPlace::Inside(StatementPlace::Bounding(Levels {
            target,
            value,
            bound,
        })));
    }

    /// Ends an `lquantize` with these bounds, or says that they are out of range.
    fn end_levels(
        &mut self,
        target: Target,
        value: Expr,
        lower: i64,
        upper: i64,
        step: i64,
    ) -> Result<Option<Flaw>, AllocError>
        requires { vec_len target.keys ≤ KEYS_MAX }
        ensures { IfOk result (λ flaw. ShownOutcome
            (Some (ended (clauses_of self.old) (clause_of self.old)
            (aggregate target.name (key_forms target) (lquantize (form_of value) lower upper step))))
            (bounds_fault lower upper step) flaw (program_state_of self.new)) }
    {
        match checked_bounds(lower, upper, step) {
            Ok(bounds) => {
                self.end_statement(target.aggregate(Call::Lquantize(value, bounds)))?;
                Ok(None)
            }
            Err(fault) => Ok(Some(Flaw::Range(fault))),
        }
    }

    /// Reads a token that is not one too many and shows no cause at its place; or says why it is refused.
    #[tactic(auto, unfolding(crate::specs::machine::ClauseState::program_step))]
    fn step(&mut self, alloc: Global, token: Token) -> Result<Option<Flaw>, AllocError>
        requires { Fits (program_state_of self.old) }
        ensures { IfOk result (λ flaw. ShownOutcome (program_step (program_state_of self.old) token)
            (out_of_range_at (place_form (state_of self.old.expression) self.old.place) token) flaw
            (program_state_of self.new)) }
    {
        match mem::replace(&mut self.place, ReaderPlace::Outside) {
            ReaderPlace::Outside => Ok(stuck_unless(self.from_outside(alloc, token)?)),
            ReaderPlace::Described => Ok(stuck_unless(self.from_described(&token))),
            ReaderPlace::Listed => Ok(stuck_unless(self.from_listed(token)?)),
            ReaderPlace::Guarded => Ok(stuck_unless(self.from_guarded(&token))),
            ReaderPlace::BeforeStatement => Ok(stuck_unless(self.from_before_statement(
                alloc, &token,
            )?)),
            ReaderPlace::AfterStatement => Ok(stuck_unless(self.from_after_statement(
                alloc, &token,
            )?)),
            ReaderPlace::Inside(place) => self.step_inside(alloc, place, &token),
            ReaderPlace::Within { slot, count } => Ok(stuck_unless(self.from_within(
                alloc, slot, count, &token,
            )?)),
        }
    }

    /// Reads a token in a statement; or says why it is refused.
    fn step_inside(
        &mut self,
        alloc: Global,
        place: StatementPlace,
        token: &Token,
    ) -> Result<Option<Flaw>, AllocError>
        requires { FitsInside (clauses_of self.old) (clause_of self.old) (inside_form place) }
        ensures { IfOk result (λ flaw. ShownOutcome
            (inside_step_from (clauses_of self.old) (clause_of self.old) (inside_form place) token.now)
            (out_of_range_at (inside (inside_form place)) token.now) flaw (program_state_of self.new)) }
    {
        match place {
            StatementPlace::Called(action) => Ok(stuck_unless(self.from_called(action, token))),
            StatementPlace::StackOpened { process } => Ok(stuck_unless(self.from_stack_opened(
                process, token,
            ))),
            StatementPlace::Closing(statement) => Ok(stuck_unless(self.from_closing(
                statement, token,
            )?)),
            StatementPlace::Named(name) => Ok(stuck_unless(self.from_named(alloc, name, token))),
            StatementPlace::Keyed(target) => Ok(stuck_unless(self.from_keyed(target, token))),
            StatementPlace::Assigned(target) => Ok(stuck_unless(self.from_assigned(target, token))),
            StatementPlace::Applied(target, function) => {
                Ok(stuck_unless(self.from_applied(target, function, token)))
            }
            StatementPlace::Bounding(levels) => Ok(stuck_unless(self.from_bounding(levels, token))),
            StatementPlace::Negating(levels) => Ok(stuck_unless(self.from_negating(levels, token))),
            StatementPlace::Bounded(levels, last) => self.from_bounded(levels, last, token),
            StatementPlace::ThreadLocal => Ok(stuck_unless(self.from_self(token))),
            StatementPlace::Arrow => Ok(stuck_unless(self.from_arrow(token))),
            StatementPlace::Variable(name) => Ok(stuck_unless(self.from_variable(name, token))),
            StatementPlace::Drawing(name) => Ok(stuck_unless(self.from_drawing(name, token))),
        }
    }
}

/// The cause for which a token is refused that doesn't go on.
fn stuck_unless(on: bool) -> Option<Flaw>
    ensures { result ≡ (if on then None else Some Flaw.Syntax) }
{
    if on { None } else { Some(Flaw::Syntax) }
}
