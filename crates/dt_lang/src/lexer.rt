//! Reads a text token by token.
ghost use Rattle.std.specs.Prelude.{◌≡◌, ℕ, ◌≤◌, List, length};
ghost use Rattle.dt_lang.specs.Lexeme.{Lexes, LiesWithin};
ghost use Rattle.dt_lang.specs.declared.lexer.Lexeme.{Lexeme};
ghost use Rattle.dt_lang.specs.declared.mode.LexerMode.{LexerMode};

use crate::blanks::skip_blanks;
use crate::fault::Limit;
use crate::mode::LexerMode;
use crate::piece::Piece;
use crate::token::Token;

/// What is read next of a text, with its place: the offset of its first byte.
#[derive(Drop)]
pub(crate) enum Lexeme {
    /// A token, and the offset after it.
    Token { at: usize, token: Token, end: usize },
    /// A string or an aggregation's name that is too long, and the offset after it.
    Overlong { at: usize, limit: Limit, end: usize },
    /// Bytes that are no token, or a text or a comment that isn't closed.
    Stray { at: usize },
    /// Nothing but blanks.
    End { at: usize },
}

/// What stands in a text from a byte on, read in this mode. It takes no memory.
pub(crate) fn next(text: &[u8], mode: LexerMode, from: usize) -> Lexeme
    requires { from ≤ length text.now }
    ensures lexes { Lexes text.now mode from result }
    ensures within { LiesWithin from result (length text.now) }
{
    let rest = skip_blanks(&text[from..]);
    let at = text.len() - rest.len();
    match Piece::of(rest, mode) {
        Piece::Token { token, size } => Lexeme::Token {
            at,
            token,
            end: at + size,
        },
        Piece::Overlong { limit, size } => Lexeme::Overlong {
            at,
            limit,
            end: at + size,
        },
        Piece::Stray => Lexeme::Stray { at },
        Piece::End => Lexeme::End { at },
    }
}

/// Law: in each text, mode and place up to its end something stands.
pub(crate) fn some_lexeme()
    ensures { (text : List ℕ) (mode : LexerMode) (from : ℕ) → from ≤ length text →
        (lexeme : Lexeme) × Lexes text mode from lexeme }
{
    dt_program::some_description();
}

/// Law: in each text, mode and place stands one lexeme at most, and it lies within the text.
pub(crate) fn one_lexeme()
    ensures one { (text : List ℕ) (mode : LexerMode) (from : ℕ) (a b : Lexeme) →
        Lexes text mode from a → Lexes text mode from b → a ≡ b }
    ensures within { (text : List ℕ) (mode : LexerMode) (from : ℕ) (lexeme : Lexeme) → from ≤ length text →
        Lexes text mode from lexeme → LiesWithin from lexeme (length text) }
{
    dt_program::one_description();
}
