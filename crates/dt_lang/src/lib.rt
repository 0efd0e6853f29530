//! The clause language: a text is read as a program, or refused at the first token for which a cause holds.
//!
//! The definition stands in `specs/Reads.antt`: how a text is read (`Reads`), by its tokens (`specs/Lexeme.antt`), the
//! grammar (`specs/Grammar.antt`, `specs/Expression.antt`) and the causes (`specs/Refused.antt`). Each text has one reading
//! (`some_reading`, `one_reading`), and `Program::parse` gives it.
#![tactic(auto)]

mod blanks;
mod byte_class;
mod expression;
mod expression_laws;
mod fault;
mod kind;
mod lexer;
mod mode;
mod number;
mod parse;
mod pending;
mod piece;
mod place;
mod reader;
mod shown_cause;
mod sign;
mod token;
mod word;

pub use dt_program::{
    AggregationUse, Argument, Bounds, BoundsFault, CLAUSES_MAX, Call, Clause, DESCRIPTIONS_MAX,
    Description, DescriptionFault, FRAMES_MAX, Frames, KEYS_MAX, LEVELS_MAX, Program,
    STATEMENTS_MAX, Statement, TOKENS_MAX, one_description, some_description,
};
pub use expression_laws::{one_argument, one_expression};
pub use fault::{Flaw, LangFault, Limit, Why};
pub use parse::{
    ParseProgram, one_reading, one_refusal, read_is_in_bounds, read_stands_together, some_reading,
};
pub use token::{Sign, Token};
pub use word::{Action, Destructive, Function, Keyword, Word, one_word};
