//! Why the reader of programs refuses a token, before it is known whether the token goes on.
ghost use Rattle.std.specs.Prelude.{◌≡◌, IfOk, None, false, option_map};
ghost use Rattle.dt_lang.specs.machine.Cause.{is_one_more, is_excluded, too_long_at};
ghost use Rattle.dt_lang.specs.machine.ExpressionView.{state_of};
ghost use Rattle.dt_lang.specs.machine.PlaceView.{place_form};
ghost use Rattle.dt_lang.specs.machine.ReaderView.{clause_of, clauses_of, program_state_of};
ghost use Rattle.dt_lang.specs.machine.ShownCause.{cause_of_refusal, shown_at, shown_or_excluded, shown_before_statement};
ghost use Rattle.dt_program.specs.declared.clause.TheConstants.{DESCRIPTIONS_MAX, STATEMENTS_MAX};

use super::ProgramReader;
use crate::fault::{Flaw, Limit, TokenRefusal};
use crate::kind::Kind;
use crate::place::{ReaderPlace, StatementPlace};
use crate::shown_cause::{shown_assigned, shown_before_statement, shown_elsewhere, shown_operand};
use crate::token::Token;
use dt_program::{CLAUSES_MAX, DESCRIPTIONS_MAX, STATEMENTS_MAX};
use std::alloc::{AllocError, Global};

impl ProgramReader {
    /// The limit that a token passes, as the first of one thing more than there may be, or as one token too many. If it
    /// passes none, nothing is changed.
    pub(super) fn exceeds(
        &mut self,
        alloc: Global,
        token: &Token,
    ) -> Result<Option<Limit>, AllocError>
        ensures told { IfOk result (λ over.
            too_long_at (clauses_of self.old) (clause_of self.old)
            (place_form (state_of self.old.expression) self.old.place) token.now ≡ over) }
        ensures kept { IfOk result (λ over. over ≡ None
            → program_state_of self.new ≡ program_state_of self.old) }
    {
        match &self.place {
            ReaderPlace::Outside if token.is_description() && self.clauses.len() >= CLAUSES_MAX => {
                Ok(Some(Limit::Clauses))
            }
            ReaderPlace::Listed
                if token.is_description() && self.descriptions.len() >= DESCRIPTIONS_MAX => {
                Ok(Some(Limit::Descriptions))
            }
            ReaderPlace::BeforeStatement
                if self.statements.len() >= STATEMENTS_MAX && token.is_for_statement() => {
                Ok(Some(Limit::Statements))
            }
            ReaderPlace::Inside(StatementPlace::Arrow) if token.is_long_word() => {
                Ok(Some(Limit::LocalBytes))
            }
            ReaderPlace::Within { .. } if self.expression.is_long_name(token) => {
                Ok(Some(Limit::LocalBytes))
            }
            ReaderPlace::Within { slot, count } => match slot.limit_within(*count) {
                Some(limit) => {
                    let over = self.is_one_more(alloc, token)?;
                    Ok(if over { Some(limit) } else { None })
                }
                None => Ok(None),
            },
            _ => Ok(None),
        }
    }

    /// Whether a token is one more of what is read for a slot. If it isn't, nothing is changed.
    fn is_one_more(&mut self, alloc: Global, token: &Token) -> Result<bool, AllocError>
        ensures told { IfOk result (λ on. is_one_more (state_of self.old.expression) token.now ≡ on) }
        ensures kept { IfOk result (λ on. on ≡ false → program_state_of self.new ≡ program_state_of self.old) }
    {
        let wants = self.expression.wants_operand();
        let on = self.expression.push(alloc, token)?;
        Ok(on || (token.is_operand() && wants))
    }

    /// The cause that a token shows at its place, before it is known whether it goes on.
    pub(super) fn shown(&self, token: &Token) -> Option<TokenRefusal>
        ensures { option_map cause_of_refusal result
            ≡ shown_at (clause_of self.now) (place_form (state_of self.now.expression) self.now.place) token.now }
    {
        match &self.place {
            ReaderPlace::BeforeStatement => self.shown_before_statement(token),
            ReaderPlace::Inside(StatementPlace::Assigned(_)) => shown_assigned(token),
            ReaderPlace::Within { slot, count }
                if self.expression.wants_operand() && !slot.draws(*count, token) => {
                shown_operand(token)
            }
            _ => shown_elsewhere(token),
        }
    }

    /// The cause that a token shows where a statement may begin: of its own, or that an earlier statement excludes it.
    fn shown_before_statement(&self, token: &Token) -> Option<TokenRefusal>
        ensures { option_map cause_of_refusal result
            ≡ shown_or_excluded (clause_of self.now) token.now (shown_before_statement token.now) }
    {
        match shown_before_statement(token) {
            None if self.excludes(token) => Some(TokenRefusal::Flaw(Flaw::Spec)),
            shown => shown,
        }
    }

    /// Whether a statement of the clause excludes the one that a token begins.
    fn excludes(&self, token: &Token) -> bool
        ensures { result ≡ is_excluded (clause_of self.now) token.now }
    {
        let later = Kind::begun_by(token);
        self.statements
            .iter()
            .any(|earlier| Kind::of(earlier).excludes(later))
    }
}
