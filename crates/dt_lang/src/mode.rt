//! Where in a program a token stands, which says what tokens there are.
ghost use Rattle.std.specs.Prelude.{◌≡◌, ◌+◌, ◌<◌, ◌^◌};
ghost use Rattle.dt_lang.specs.Mode.{depth_of, mode_after};

use crate::token::{Sign, Token};

/// The part of a clause that a token is read in.
#[derive(Clone, Copy)]
pub(crate) enum LexerMode {
    /// Before a predicate or a body.
    Head,
    /// In a predicate, within so many parentheses.
    Predicate { depth: usize },
    /// Between a predicate and the body.
    Tail,
    /// In a body.
    Body,
}

impl LexerMode {
    /// The mode after this token.
    pub(crate) fn after(self, token: &Token) -> LexerMode
        requires { depth_of self + 1 < 2 ^ 64 }
        ensures { result ≡ mode_after self token.now }
    {
        match (self, token) {
            (LexerMode::Head, Token::Sign(Sign::Slash)) => LexerMode::Predicate { depth: 0 },
            (LexerMode::Head | LexerMode::Tail, Token::Sign(Sign::OpenBrace)) => LexerMode::Body,
            (LexerMode::Predicate { depth }, Token::Sign(Sign::OpenParen)) => LexerMode::Predicate {
                depth: depth + 1,
            },
            (LexerMode::Predicate { depth }, Token::Sign(Sign::CloseParen)) =>
                LexerMode::Predicate {
                    depth: depth.saturating_sub(1),
                },
            (LexerMode::Predicate { depth: 0 }, Token::Sign(Sign::Slash)) => LexerMode::Tail,
            (LexerMode::Body, Token::Sign(Sign::CloseBrace)) => LexerMode::Head,
            _ => self,
        }
    }
}
