//! Why a text is not read as a program.
ghost use Rattle.std.specs.Prelude.{◌≡◌};
ghost use Rattle.dt_lang.specs.Fault.{why_of, why_word};
ghost use Rattle.dt_lang.specs.machine.ShownCause.{fault_at};
ghost use Rattle.dt_lang.specs.declared.fault.LangFault.TheVariants.{Memory};

use crate::word::Destructive;
use dt_program::{BoundsFault, DescriptionFault};
use std::alloc::{AllocError, AllocFailed};
use std::fmt;
use thiserror::Error;

/// For what a text is no program, as replies carry it.
#[derive(Clone, Copy, Debug, PartialEq, Eq)]
pub enum Why {
    /// No program begins with the text up to there.
    Syntax,
    /// The text is no description of probes.
    Probe,
    /// The word is no action, or no aggregating function.
    Action,
    /// The word is no variable.
    Variable,
    /// There is one more of a thing than there may be, or a text or a name has too many bytes.
    TooLong,
    /// The bounds make no levels, or too many.
    Range,
    /// An earlier statement of the clause excludes the one that begins there.
    Spec,
}

impl Why {
    /// The word for the cause, as it is printed and as replies carry it.
    pub fn word(self) -> &'static str
        ensures { result.now ≡ why_word self }
    {
        match self {
            Why::Syntax => "Syntax",
            Why::Probe => "Probe",
            Why::Action => "Action",
            Why::Variable => "Variable",
            Why::TooLong => "TooLong",
            Why::Range => "Range",
            Why::Spec => "Spec",
        }
    }
}

impl fmt::Display for Why {
    ghost use Rattle.std.specs.Prelude.{Some};
    ghost use Rattle.dt_lang.specs.Fault.{why_word};

    ghost output = { λ why. Some (why_word why) };

    fn fmt<W: fmt::Write>(&self, f: &mut fmt::Formatter<W>) -> fmt::Result {
        f.write_str(self.word())
    }
}

/// Of what a text has one more than there may be.
#[derive(Clone, Copy, Debug, PartialEq, Eq, Error)]
pub enum Limit {
    /// Clauses of a program.
    #[error("more than 64 clauses")]
    Clauses,
    /// Descriptions of a clause.
    #[error("more than 16 descriptions in a clause")]
    Descriptions,
    /// Statements of a clause.
    #[error("more than 8 statements in a clause")]
    Statements,
    /// Keys of an aggregation.
    #[error("more than 4 keys")]
    Keys,
    /// Tokens of a predicate, an argument, a key or a value.
    #[error("more than 64 tokens in an expression")]
    Tokens,
    /// Bytes of a string.
    #[error("a string of more than 31 bytes")]
    StringBytes,
    /// Bytes of an aggregation's name.
    #[error("an aggregation's name of more than 31 bytes")]
    NameBytes,
    /// Bytes of a thread-local variable's name.
    #[error("a variable's name of more than 31 bytes")]
    LocalBytes,
}

/// What is wrong with a token, with what was found there.
#[derive(Clone, Copy, Debug, PartialEq, Eq)]
pub enum Flaw {
    /// No program begins with the text up to there.
    Syntax,
    /// It is no description of probes: for its first fault.
    Probe(DescriptionFault),
    /// The word is no action, or no aggregating function.
    Action,
    /// The word is no variable.
    Variable,
    /// It is one more of a thing than there may be, or a string or a name with too many bytes.
    TooLong(Limit),
    /// It ends an `lquantize` whose bounds make no levels, or too many: the first rule that they break.
    Range(BoundsFault),
    /// It begins a statement that an earlier one of its clause excludes.
    Spec,
}

impl Flaw {
    /// The cause, as replies carry it.
    pub fn why(self) -> Why
        ensures { result ≡ why_of self }
    {
        match self {
            Flaw::Syntax => Why::Syntax,
            Flaw::Probe(_) => Why::Probe,
            Flaw::Action => Why::Action,
            Flaw::Variable => Why::Variable,
            Flaw::TooLong(_) => Why::TooLong,
            Flaw::Range(_) => Why::Range,
            Flaw::Spec => Why::Spec,
        }
    }
}

impl fmt::Display for Flaw {
    ghost use Rattle.std.specs.Prelude.{Some};
    ghost use Rattle.dt_lang.specs.Fault.{why_of, why_word};

    ghost output = { λ flaw. Some (why_word (why_of flaw)) };

    fn fmt<W: fmt::Write>(&self, f: &mut fmt::Formatter<W>) -> fmt::Result {
        f.write_str(self.why().word())
    }
}

/// Why a text was not read as a program.
#[derive(Clone, Copy, Debug, PartialEq, Eq, Error)]
pub enum LangFault {
    /// The text is no program: the offset of the byte at which that shows, that after the token which begins there, and
    /// what is wrong with it. Where bytes are no token, or the text ends, `end` is `at`.
    #[error("{flaw} at {at}")]
    Program {
        at: usize,
        end: usize,
        flaw: Flaw,
    },
    /// A statement is a destructive action: the offset of its name, that after it, and which.
    #[error("destructive action {what} at {at}")]
    Destructive {
        at: usize,
        end: usize,
        what: Destructive,
    },
    /// Memory ran out.
    #[error("out of memory")]
    Memory,
}

/// Why a token is refused.
#[derive(Clone, Copy)]
pub(crate) enum TokenRefusal {
    /// For this.
    Flaw(Flaw),
    /// It is this destructive action's name.
    Destructive(Destructive),
}

impl TokenRefusal {
    /// The fault of a token between these offsets.
    pub(crate) fn fault(self, at: usize, end: usize) -> LangFault
        ensures { result ≡ fault_at at end self }
    {
        match self {
            TokenRefusal::Flaw(flaw) => LangFault::Program { at, end, flaw },
            TokenRefusal::Destructive(what) => LangFault::Destructive { at, end, what },
        }
    }
}

impl From<AllocError> for LangFault {
    ghost from_gives = { λ _ e. e ≡ Memory };

    fn from(_failed: AllocError) -> Self {
        LangFault::Memory
    }
}

impl<T: Drop> From<AllocFailed<T>> for LangFault {
    ghost from_gives = { λ _ e. e ≡ Memory };

    fn from(_failed: AllocFailed<T>) -> Self {
        LangFault::Memory
    }
}
