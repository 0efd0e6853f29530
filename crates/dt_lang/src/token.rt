//! The tokens of the clause language.
ghost use Rattle.std.specs.Prelude.{◌≡◌};
ghost use Rattle.dt_lang.specs.machine.Cause.{is_description, is_for_statement};
ghost use Rattle.dt_lang.specs.machine.ClauseState.{is_speculation};
ghost use Rattle.dt_lang.specs.machine.ExpressionState.{is_operand, is_long_word, name_of_token};

use crate::word::{Keyword, Word};
use dt_names::{Name, ShortText};
use dt_program::{Description, DescriptionFault};

/// A sign of the language. (illumos Dynamic Tracing Guide, "Types, Operators and Expressions" and "Program Structure".)
#[derive(Clone, Copy, Debug, PartialEq, Eq)]
pub enum Sign {
    /// `||`
    OrOr,
    /// `^^`
    CaretCaret,
    /// `&&`
    AndAnd,
    /// `<<`
    LessLess,
    /// `>>`
    GreaterGreater,
    /// `<=`
    LessEqual,
    /// `>=`
    GreaterEqual,
    /// `==`
    EqualEqual,
    /// `!=`
    BangEqual,
    /// `->`
    Arrow,
    /// `|`
    Or,
    /// `^`
    Caret,
    /// `&`
    And,
    /// `<`
    Less,
    /// `>`
    Greater,
    /// `+`
    Plus,
    /// `-`
    Minus,
    /// `*`
    Star,
    /// `/`
    Slash,
    /// `%`
    Percent,
    /// `!`
    Bang,
    /// `~`
    Tilde,
    /// `(`
    OpenParen,
    /// `)`
    CloseParen,
    /// `[`
    OpenBracket,
    /// `]`
    CloseBracket,
    /// `{`
    OpenBrace,
    /// `}`
    CloseBrace,
    /// `,`
    Comma,
    /// `;`
    Semicolon,
    /// `=`
    Equal,
}

/// A token of the language.
#[derive(Drop)]
pub enum Token {
    /// A run of name bytes and colons in a head: the description that it is read as, or why it is none.
    Description(Result<Description, DescriptionFault>),
    /// An identifier.
    Word(Word),
    /// A number: the signed representative of 64 bits of what is written.
    Number(i64),
    /// A string of at most 31 bytes.
    String(ShortText),
    /// `@` and an aggregation's name of at most 31 bytes, which may be empty.
    Aggregation(ShortText),
    /// A sign.
    Sign(Sign),
}

impl Token {
    /// Whether this is a run of name bytes and colons in a head.
    pub(crate) fn is_description(&self) -> bool
        ensures { result ≡ is_description self.now }
    {
        matches!(self, Token::Description(_))
    }

    /// Whether this is an identifier or an aggregation's name: what a statement begins with.
    pub(crate) fn is_for_statement(&self) -> bool
        ensures { result ≡ is_for_statement self.now }
    {
        matches!(self, Token::Word(_) | Token::Aggregation(_))
    }

    /// Whether this is an identifier, a number or a string: what is taken for an operand.
    pub(crate) fn is_operand(&self) -> bool
        ensures { result ≡ is_operand self.now }
    {
        matches!(self, Token::Word(_) | Token::Number(_) | Token::String(_))
    }

    /// Whether this is `speculation`.
    pub(crate) fn is_speculation(&self) -> bool
        ensures { result ≡ is_speculation self.now }
    {
        matches!(self, Token::Word(Word::Keyword(Keyword::Speculation)))
    }

    /// Whether this is an identifier with more bytes than a name holds.
    pub(crate) fn is_long_word(&self) -> bool
        ensures { result ≡ is_long_word self.now }
    {
        matches!(self, Token::Word(Word::Unknown(None)))
    }

    /// The name of a variable that this is after `->`.
    pub(crate) fn name(&self) -> Option<Name>
        ensures { result ≡ name_of_token self.now }
    {
        match self {
            Token::Word(word) => word.bytes(),
            _ => None,
        }
    }
}
