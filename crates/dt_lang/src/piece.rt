//! What stands at the front of a text at which no blanks stand.
ghost use Rattle.std.specs.Prelude.{◌≡◌, ◌<◌, length};
ghost use Rattle.std.specs.List.{take_while};
ghost use Rattle.dt_lang.specs.Class.{is_string_byte};
ghost use Rattle.dt_lang.specs.Lexeme.{Stands};
ghost use Rattle.dt_lang.specs.machine.Piece.{start_of, identifier_at, FindsWord, NumberOf, string_piece, aggregation_read, FindsSign, FindsInBody, FindsInHead, opens_comment};

use crate::byte_class::ByteClass;
use crate::fault::Limit;
use crate::mode::LexerMode;
use crate::number::value_of;
use crate::sign::{sign_at, spelling};
use crate::token::{Sign, Token};
use crate::word::Word;
use dt_names::ShortText;
use dt_program::Description;

/// What stands at the front of a text.
#[derive(Drop)]
pub(crate) enum Piece {
    /// A token of so many bytes.
    Token { token: Token, size: usize },
    /// A string or an aggregation's name that is too long, of so many bytes.
    Overlong { limit: Limit, size: usize },
    /// Bytes that are no token.
    Stray,
    /// Nothing more.
    End,
}

/// What the first byte of a piece in a predicate or a body says of it.
#[derive(Clone, Copy)]
pub(crate) enum Start {
    Letter,
    Digit,
    Quote,
    At,
    Other,
}

impl Piece {
    /// What stands at the front of a text, read in this mode.
    pub(crate) fn of(text: &[u8], mode: LexerMode) -> Piece
        ensures { Stands mode text.now result }
    {
        // whether the program is whole is for its reader to say
        if text.is_empty() {
            return Piece::End;
        }
        // closed comments are blanks and were skipped: one that still stands here isn't closed
        if opens_comment(text) {
            return Piece::Stray;
        }
        match mode {
            LexerMode::Head | LexerMode::Tail => in_head(text),
            LexerMode::Predicate { .. } | LexerMode::Body => in_body(text),
        }
    }
}

/// Whether a comment begins at the front of a text.
fn opens_comment(text: &[u8]) -> bool
    ensures { result ≡ opens_comment text.now }
{
    text.len() >= 2 && text[0] == b'/' && text[1] == b'*'
}

/// In a head: a description, or else a sign.
fn in_head(text: &[u8]) -> Piece
    requires { 0 < length text.now }
    ensures { FindsInHead text.now result }
{
    let run = ByteClass::Description.run(text);
    // the longest run is the description, also where it is none: a program is then refused as Probe
    if !run.is_empty() {
        return Piece::Token {
            token: Token::Description(Description::parse(run)),
            size: run.len(),
        };
    }
    let sign = match text[0] {
        b',' => Sign::Comma,
        b'/' => Sign::Slash,
        b'{' => Sign::OpenBrace,
        // no other sign stands in a head
        _ => return Piece::Stray,
    };
    Piece::Token {
        token: Token::Sign(sign),
        size: 1,
    }
}

/// In a predicate or a body.
fn in_body(text: &[u8]) -> Piece
    requires { 0 < length text.now }
    ensures { FindsInBody text.now result }
{
    match Start::of(text[0]) {
        Start::Letter => identifier(text),
        Start::Digit => number(ByteClass::Word.run(text)),
        Start::Quote => string(&text[1..]),
        Start::At => aggregation(&text[1..]),
        Start::Other => sign(text),
    }
}

impl Start {
    fn of(byte: u8) -> Start
        ensures { result ≡ start_of byte }
    {
        if byte.is_ascii_digit() {
            Start::Digit
        } else if ByteClass::Word.has(byte) {
            Start::Letter
        } else if byte == b'"' {
            Start::Quote
        } else if byte == b'@' {
            Start::At
        } else {
            Start::Other
        }
    }
}

/// A word.
fn identifier(text: &[u8]) -> Piece
    ensures { FindsWord text.now result }
{
    let name = identifier_at(text);
    Piece::Token {
        token: Token::Word(Word::of(name)),
        size: name.len(),
    }
}

/// A number that takes all of a run, or nothing.
fn number(run: &[u8]) -> Piece
    ensures { NumberOf run.now result }
{
    match value_of(run) {
        Some(value) => Piece::Token {
            token: Token::Number(value.cast_signed()),
            size: run.len(),
        },
        None => Piece::Stray,
    }
}

/// A string, after its opening `"`.
fn string(rest: &[u8]) -> Piece
    ensures { result ≡ string_piece (take_while is_string_byte rest.now) rest.now }
{
    let bytes = ByteClass::String.run(rest);
    match ShortText::new(bytes) {
        None => Piece::Overlong {
            limit: Limit::StringBytes,
            size: bytes.len() + 1,
        },
        Some(text) if rest.get(bytes.len()) == Some(&b'"') => Piece::Token {
            token: Token::String(text),
            size: bytes.len() + 2,
        },
        Some(_) => Piece::Stray,
    }
}

/// An aggregation, after its `@`.
fn aggregation(rest: &[u8]) -> Piece
    ensures { result ≡ aggregation_read (identifier_at rest.now) }
{
    let name = identifier_at(rest);
    match ShortText::new(name) {
        None => Piece::Overlong {
            limit: Limit::NameBytes,
            size: name.len() + 1,
        },
        Some(text) => Piece::Token {
            token: Token::Aggregation(text),
            size: name.len() + 1,
        },
    }
}

/// The longest sign, or nothing.
fn sign(text: &[u8]) -> Piece
    ensures { FindsSign text.now result }
{
    match sign_at(text) {
        Some(sign) => Piece::Token {
            token: Token::Sign(sign),
            size: spelling(sign).len(),
        },
        None => Piece::Stray,
    }
}

/// The identifier at the front of a text, or nothing where none stands there.
fn identifier_at(text: &[u8]) -> &[u8]
    ensures { result.now ≡ identifier_at text.now }
{
    match text {
        [b'0'..=b'9', ..] => &[],
        _ => ByteClass::Word.run(text),
    }
}
