//! How signs are written.
ghost use Rattle.std.specs.Prelude.{◌≡◌, IfSome, IfNone};
ghost use Rattle.std.specs.List.{All, Contains};
ghost use Rattle.dt_lang.specs.machine.Piece.{IsSignAt, BeginsWith};
ghost use Rattle.dt_lang.specs.Spelling.{spelling};
ghost use Rattle.dt_lang.specs.declared.token.Sign.{Sign};

use crate::token::Sign;

/// The signs of two bytes.
const PAIRS: [Sign; 10] = [
    Sign::OrOr,
    Sign::CaretCaret,
    Sign::AndAnd,
    Sign::LessLess,
    Sign::GreaterGreater,
    Sign::LessEqual,
    Sign::GreaterEqual,
    Sign::EqualEqual,
    Sign::BangEqual,
    Sign::Arrow,
];

/// The signs of one byte.
const SINGLES: [Sign; 21] = [
    Sign::Or,
    Sign::Caret,
    Sign::And,
    Sign::Less,
    Sign::Greater,
    Sign::Plus,
    Sign::Minus,
    Sign::Star,
    Sign::Slash,
    Sign::Percent,
    Sign::Bang,
    Sign::Tilde,
    Sign::OpenParen,
    Sign::CloseParen,
    Sign::OpenBracket,
    Sign::CloseBracket,
    Sign::OpenBrace,
    Sign::CloseBrace,
    Sign::Comma,
    Sign::Semicolon,
    Sign::Equal,
];

/// The longest sign at the front of a text.
pub(crate) fn sign_at(text: &[u8]) -> Option<Sign>
    ensures some { IfSome result (IsSignAt text.now) }
    ensures none { IfNone result ((sign : Sign) → BeginsWith text.now (spelling sign) → ⊥) }
{
    match first_of(&PAIRS, text) {
        Some(sign) => Some(sign),
        None => first_of(&SINGLES, text),
    }
}

/// The first of these signs that the text begins with.
fn first_of(signs: &[Sign], text: &[u8]) -> Option<Sign>
    ensures begins { IfSome result (λ sign. BeginsWith text.now (spelling sign)) }
    ensures member { IfSome result (λ sign. Contains signs.now sign) }
    ensures none { IfNone result (All (λ sign. BeginsWith text.now (spelling sign) → ⊥) signs.now) }
{
    for sign in signs {
        // these signs have one length, so no other of them stands here
        if text.starts_with(spelling(*sign)) {
            return Some(*sign);
        }
    }
    None
}

/// How a sign is written.
pub(crate) fn spelling(sign: Sign) -> &'static [u8]
    ensures { result.now ≡ spelling sign }
{
    match sign {
        Sign::OrOr => b"||",
        Sign::CaretCaret => b"^^",
        Sign::AndAnd => b"&&",
        Sign::LessLess => b"<<",
        Sign::GreaterGreater => b">>",
        Sign::LessEqual => b"<=",
        Sign::GreaterEqual => b">=",
        Sign::EqualEqual => b"==",
        Sign::BangEqual => b"!=",
        Sign::Arrow => b"->",
        Sign::Or => b"|",
        Sign::Caret => b"^",
        Sign::And => b"&",
        Sign::Less => b"<",
        Sign::Greater => b">",
        Sign::Plus => b"+",
        Sign::Minus => b"-",
        Sign::Star => b"*",
        Sign::Slash => b"/",
        Sign::Percent => b"%",
        Sign::Bang => b"!",
        Sign::Tilde => b"~",
        Sign::OpenParen => b"(",
        Sign::CloseParen => b")",
        Sign::OpenBracket => b"[",
        Sign::CloseBracket => b"]",
        Sign::OpenBrace => b"{",
        Sign::CloseBrace => b"}",
        Sign::Comma => b",",
        Sign::Semicolon => b";",
        Sign::Equal => b"=",
    }
}
