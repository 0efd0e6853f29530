//! A text is read as a program, or refused with the place and the cause.
ghost use Rattle.std.specs.Prelude.{◌≡◌, ℕ, Err, IfOk, List};
ghost use Rattle.dt_lang.specs.machine.ClauseState.{program_start};
ghost use Rattle.dt_program.specs.Program.{ClauseForm, form_of_program};
ghost use Rattle.dt_program.specs.Written.{IsWrittenProgram};
ghost use Rattle.dt_lang.specs.machine.ReaderView.{AnsweredText, program_state_of};
ghost use Rattle.std.specs.List.{AllByRecursion};
ghost use Rattle.dt_lang.specs.Reads.{IsRefusedProgram, Reading, Reads, program};
ghost use Rattle.dt_lang.specs.Refused.{Cause, because, destroys};
ghost use Rattle.dt_lang.specs.Together.{StandTogether};
ghost use Rattle.dt_lang.specs.declared.fault.Flaw.{Flaw};
ghost use Rattle.dt_lang.specs.declared.word.Destructive.{Destructive};

use crate::fault::{Flaw, LangFault};
use crate::lexer::{Lexeme, next, one_lexeme, some_lexeme};
use crate::mode::LexerMode;
use crate::reader::ProgramReader;
use dt_program::Program;
use std::alloc::Global;

/// What is read of a text as a program: with it in scope, `Program::parse` reads one.
pub trait ParseProgram: Sized {
    /// Reads a program.
    ///
    /// A text that is none is refused at its first token for which a cause holds.
    fn parse(alloc: Global, text: &[u8]) -> Result<Self, LangFault>;
}

impl ParseProgram for Program {
    fn parse(alloc: Global, text: &[u8]) -> Result<Self, LangFault>
        ensures read { IfOk result (λ parsed. Reads text.now (program (form_of_program parsed))) }
        ensures fault { (at end : ℕ) (flaw : Flaw) → result ≡ Err (LangFault.Program at end flaw)
            → IsRefusedProgram text.now at end (because flaw) }
        ensures destructive { (at end : ℕ) (what : Destructive) → result ≡ Err (LangFault.Destructive at end what)
            → IsRefusedProgram text.now at end (destroys what) }
    {
        let mut reader = ProgramReader::new(alloc);
        read(alloc, &mut reader, text)
    }
}

/// Reads a program by a reader that has read nothing.
fn read(alloc: Global, reader: &mut ProgramReader, text: &[u8]) -> Result<Program, LangFault>
    requires { program_state_of reader.old ≡ program_start }
    ensures { AnsweredText text.now result }
{
    let mut mode = LexerMode::Head;
    let mut from = 0;
    'tokens: loop {
        match next(text, mode, from) {
            Lexeme::Token { at, token, end } => {
                let after = mode.after(&token);
                // the first token for which a cause holds decides: nothing after it is read
                if let Some(refusal) = reader.push(alloc, token)? {
                    return Err(refusal.fault(at, end));
                }
                mode = after;
                from = end;
            }
            Lexeme::Overlong { at, limit, end } => {
                // a string or a name that is too long is refused for its length, and not for its syntax
                return Err(LangFault::Program {
                    at,
                    end,
                    flaw: Flaw::TooLong(limit),
                });
            }
            Lexeme::Stray { at } => {
                // no program goes on with bytes that are no token
                return Err(LangFault::Program {
                    at,
                    end: at,
                    flaw: Flaw::Syntax,
                });
            }
            Lexeme::End { at } => {
                // a text that only begins a program is refused at its end
                return reader.finish(alloc).ok_or(LangFault::Program {
                    at,
                    end: at,
                    flaw: Flaw::Syntax,
                });
            }
        }
    }
}

/// Law: a text is refused at one place at most, with one end and for one cause.
pub fn one_refusal()
    ensures { (text : List ℕ) (at end at2 end2 : ℕ) (cause cause2 : Cause) → IsRefusedProgram text at end cause
        → IsRefusedProgram text at2 end2 cause2 → (at ≡ at2) × (end ≡ end2) × (cause ≡ cause2) }
{
    one_lexeme();
    some_lexeme();
}

/// Law: a text has at most one reading.
pub fn one_reading()
    ensures { (text : List ℕ) (a b : Reading) → Reads text a → Reads text b → a ≡ b }
{
    one_lexeme();
    some_lexeme();
}

/// Law: each text has a reading.
pub fn some_reading()
    ensures { (text : List ℕ) → (reading : Reading) × Reads text reading }
{
    one_lexeme();
    some_lexeme();
}

/// Law: what is read as a program lies within its bounds: its lists, its texts and names, its expressions and the numbers
/// that are written in them.
pub fn read_is_in_bounds()
    ensures { (text : List ℕ) (clauses : List ClauseForm) → Reads text (program clauses) → IsWrittenProgram clauses }
{}

/// Law: in a program that is read no statement of a clause excludes a later one.
pub fn read_stands_together()
    ensures { (text : List ℕ) (clauses : List ClauseForm) → Reads text (program clauses)
        → AllByRecursion (λ (clause : ClauseForm). StandTogether clause.statements) clauses }
{}
