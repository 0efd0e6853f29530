//! The causes that a token shows at its place, before it is known whether it goes on.
ghost use Rattle.std.specs.Prelude.{◌≡◌, option_map};
ghost use Rattle.dt_lang.specs.machine.ShownCause.{cause_of_refusal, shown_assigned, shown_before_statement, shown_elsewhere, shown_operand};

use crate::fault::{Flaw, TokenRefusal};
use crate::token::Token;
use crate::word::{Keyword, Word};

/// Where no name and no operand stands.
pub(crate) fn shown_elsewhere(token: &Token) -> Option<TokenRefusal>
    ensures { option_map cause_of_refusal result ≡ shown_elsewhere token.now }
{
    match token {
        Token::Description(Err(fault)) => Some(TokenRefusal::Flaw(Flaw::Probe(*fault))),
        _ => None,
    }
}

/// Where a statement may begin.
pub(crate) fn shown_before_statement(token: &Token) -> Option<TokenRefusal>
    ensures { option_map cause_of_refusal result ≡ shown_before_statement token.now }
{
    match token {
        Token::Word(Word::Destructive(what)) => Some(TokenRefusal::Destructive(*what)),
        Token::Word(Word::Action(_) | Word::Keyword(Keyword::ThreadLocal)) => None,
        Token::Word(_) => Some(TokenRefusal::Flaw(Flaw::Action)),
        _ => shown_elsewhere(token),
    }
}

/// Where an aggregating function's name stands.
pub(crate) fn shown_assigned(token: &Token) -> Option<TokenRefusal>
    ensures { option_map cause_of_refusal result ≡ shown_assigned token.now }
{
    match token {
        Token::Word(Word::Function(_)) => None,
        Token::Word(_) => Some(TokenRefusal::Flaw(Flaw::Action)),
        _ => shown_elsewhere(token),
    }
}

/// Where an operand stands.
pub(crate) fn shown_operand(token: &Token) -> Option<TokenRefusal>
    ensures { option_map cause_of_refusal result ≡ shown_operand token.now }
{
    match token {
        Token::Word(Word::Number(_) | Word::Text(_) | Word::Keyword(Keyword::ThreadLocal)) => None,
        Token::Word(_) => Some(TokenRefusal::Flaw(Flaw::Variable)),
        _ => shown_elsewhere(token),
    }
}
