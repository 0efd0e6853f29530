//! What identifiers mean where they may stand.
ghost use Rattle.std.specs.Prelude.{◌≡◌, ◌≢◌, ℕ, ◌<◌, ◌↔◌, List, length, Some, None, IsTrue, IfSome, IfNone};
ghost use Rattle.std.specs.List.{All};
ghost use Rattle.dt_names.specs.Limits.{name_max};
ghost use Rattle.dt_lang.specs.Lexeme.{IsIdentifier};
ghost use Rattle.dt_lang.specs.declared.word.Word.{Word};
ghost use Rattle.dt_lang.specs.machine.KnownWord.{as_word};
ghost use Rattle.dt_lang.specs.Word.{name_of_action, name_of_function, name_of_destructive, name_of_keyword, name_of_number, name_of_text, name_of_word, word_bytes, IsKeptName, IsWord};

use dt_expr::{NumberVariable, TextVariable};
use dt_names::Name;
use std::fmt;

/// A statement's name. (illumos Dynamic Tracing Guide, "Actions and Subroutines".)
#[derive(Clone, Copy, Debug, PartialEq, Eq)]
pub enum Action {
    /// `trace`
    Trace,
    /// `stack`
    Stack,
    /// `ustack`
    Ustack,
    /// `exit`
    Exit,
    /// `speculate`
    Speculate,
    /// `commit`
    Commit,
    /// `discard`
    Discard,
}

/// An aggregating function's name. (illumos Dynamic Tracing Guide, "Aggregations".)
#[derive(Clone, Copy, Debug, PartialEq, Eq)]
pub enum Function {
    /// `count`
    Count,
    /// `sum`
    Sum,
    /// `avg`
    Avg,
    /// `min`
    Min,
    /// `max`
    Max,
    /// `quantize`
    Quantize,
    /// `lquantize`
    Lquantize,
}

/// A destructive action's name: it is refused by this name. (illumos Dynamic Tracing Guide, "Actions and Subroutines",
/// destructive actions.)
#[derive(Clone, Copy, Debug, PartialEq, Eq)]
pub enum Destructive {
    /// `stop`
    Stop,
    /// `raise`
    Raise,
    /// `copyout`
    Copyout,
    /// `copyoutstr`
    Copyoutstr,
    /// `system`
    System,
    /// `breakpoint`
    Breakpoint,
    /// `panic`
    Panic,
    /// `chill`
    Chill,
}

/// A word that is part of a variable or of a statement. (illumos Dynamic Tracing Guide, "Variables" and "Speculative
/// Tracing".)
#[derive(Clone, Copy, Debug, PartialEq, Eq)]
pub enum Keyword {
    /// `self`: a thread-local variable begins with it.
    ThreadLocal,
    /// `speculation`: a variable may be given an identifier that is drawn.
    Speculation,
}

/// What an identifier is a name of.
#[derive(Clone, Copy, PartialEq, Eq)]
pub enum Word {
    /// A statement.
    Action(Action),
    /// An aggregating function.
    Function(Function),
    /// A destructive action.
    Destructive(Destructive),
    /// Part of a variable or of a statement.
    Keyword(Keyword),
    /// A variable that names a number.
    Number(NumberVariable),
    /// A variable that names a text.
    Text(TextVariable),
    /// Nothing that the language knows: the name, where it has no more bytes than a [`Name`] holds.
    Unknown(Option<Name>),
}

/// A word that the language knows.
#[derive(Clone, Copy)]
pub(crate) enum KnownWord {
    Action(Action),
    Function(Function),
    Destructive(Destructive),
    Keyword(Keyword),
    Number(NumberVariable),
    Text(TextVariable),
}

impl Action {
    /// The name, as programs write it.
    pub fn name(self) -> &'static str
        ensures { result.now ≡ name_of_action self }
    {
        match self {
            Action::Trace => "trace",
            Action::Stack => "stack",
            Action::Ustack => "ustack",
            Action::Exit => "exit",
            Action::Speculate => "speculate",
            Action::Commit => "commit",
            Action::Discard => "discard",
        }
    }
}

impl Function {
    /// The name, as programs write it.
    pub fn name(self) -> &'static str
        ensures { result.now ≡ name_of_function self }
    {
        match self {
            Function::Count => "count",
            Function::Sum => "sum",
            Function::Avg => "avg",
            Function::Min => "min",
            Function::Max => "max",
            Function::Quantize => "quantize",
            Function::Lquantize => "lquantize",
        }
    }
}

impl Destructive {
    /// The name, as programs write it.
    pub fn name(self) -> &'static str
        ensures { result.now ≡ name_of_destructive self }
    {
        match self {
            Destructive::Stop => "stop",
            Destructive::Raise => "raise",
            Destructive::Copyout => "copyout",
            Destructive::Copyoutstr => "copyoutstr",
            Destructive::System => "system",
            Destructive::Breakpoint => "breakpoint",
            Destructive::Panic => "panic",
            Destructive::Chill => "chill",
        }
    }
}

impl fmt::Display for Destructive {
    ghost use Rattle.std.specs.Prelude.{Some};
    ghost use Rattle.dt_lang.specs.Word.{name_of_destructive};

    ghost output = { λ destructive. Some (name_of_destructive destructive) };

    fn fmt<W: fmt::Write>(&self, f: &mut fmt::Formatter<W>) -> fmt::Result {
        f.write_str(self.name())
    }
}

impl Keyword {
    /// The word, as programs write it.
    pub fn name(self) -> &'static str
        ensures { result.now ≡ name_of_keyword self }
    {
        match self {
            Keyword::ThreadLocal => "self",
            Keyword::Speculation => "speculation",
        }
    }
}

/// The name of a variable that names a number.
fn name_of_number(variable: NumberVariable) -> &'static str
    ensures { result.now ≡ name_of_number variable }
{
    match variable {
        NumberVariable::Arg0 => "arg0",
        NumberVariable::Arg1 => "arg1",
        NumberVariable::Arg2 => "arg2",
        NumberVariable::Arg3 => "arg3",
        NumberVariable::Arg4 => "arg4",
        NumberVariable::Arg5 => "arg5",
        NumberVariable::Arg6 => "arg6",
        NumberVariable::Arg7 => "arg7",
        NumberVariable::Arg8 => "arg8",
        NumberVariable::Arg9 => "arg9",
        NumberVariable::Cpu => "cpu",
        NumberVariable::Pid => "pid",
        NumberVariable::Tid => "tid",
        NumberVariable::Uid => "uid",
        NumberVariable::Timestamp => "timestamp",
        NumberVariable::Id => "id",
        NumberVariable::Epid => "epid",
    }
}

/// The name of a variable that names a text.
fn name_of_text(variable: TextVariable) -> &'static str
    ensures { result.now ≡ name_of_text variable }
{
    match variable {
        TextVariable::Execname => "execname",
        TextVariable::Probeprov => "probeprov",
        TextVariable::Probemod => "probemod",
        TextVariable::Probefunc => "probefunc",
        TextVariable::Probename => "probename",
    }
}

/// All words that the language knows.
const WORDS: [KnownWord; 46] = [
    KnownWord::Action(Action::Trace),
    KnownWord::Action(Action::Stack),
    KnownWord::Action(Action::Ustack),
    KnownWord::Action(Action::Exit),
    KnownWord::Action(Action::Speculate),
    KnownWord::Action(Action::Commit),
    KnownWord::Action(Action::Discard),
    KnownWord::Function(Function::Count),
    KnownWord::Function(Function::Sum),
    KnownWord::Function(Function::Avg),
    KnownWord::Function(Function::Min),
    KnownWord::Function(Function::Max),
    KnownWord::Function(Function::Quantize),
    KnownWord::Function(Function::Lquantize),
    KnownWord::Destructive(Destructive::Stop),
    KnownWord::Destructive(Destructive::Raise),
    KnownWord::Destructive(Destructive::Copyout),
    KnownWord::Destructive(Destructive::Copyoutstr),
    KnownWord::Destructive(Destructive::System),
    KnownWord::Destructive(Destructive::Breakpoint),
    KnownWord::Destructive(Destructive::Panic),
    KnownWord::Destructive(Destructive::Chill),
    KnownWord::Keyword(Keyword::ThreadLocal),
    KnownWord::Keyword(Keyword::Speculation),
    KnownWord::Number(NumberVariable::Arg0),
    KnownWord::Number(NumberVariable::Arg1),
    KnownWord::Number(NumberVariable::Arg2),
    KnownWord::Number(NumberVariable::Arg3),
    KnownWord::Number(NumberVariable::Arg4),
    KnownWord::Number(NumberVariable::Arg5),
    KnownWord::Number(NumberVariable::Arg6),
    KnownWord::Number(NumberVariable::Arg7),
    KnownWord::Number(NumberVariable::Arg8),
    KnownWord::Number(NumberVariable::Arg9),
    KnownWord::Number(NumberVariable::Cpu),
    KnownWord::Number(NumberVariable::Pid),
    KnownWord::Number(NumberVariable::Tid),
    KnownWord::Number(NumberVariable::Uid),
    KnownWord::Number(NumberVariable::Timestamp),
    KnownWord::Number(NumberVariable::Id),
    KnownWord::Number(NumberVariable::Epid),
    KnownWord::Text(TextVariable::Execname),
    KnownWord::Text(TextVariable::Probeprov),
    KnownWord::Text(TextVariable::Probemod),
    KnownWord::Text(TextVariable::Probefunc),
    KnownWord::Text(TextVariable::Probename),
];

impl Word {
    /// What an identifier is a name of.
    pub fn of(name: &[u8]) -> Word
        ensures { IsWord name.now result }
    {
        match KnownWord::named_in(&WORDS, name) {
            Some(known) => known.as_word(),
            None => Word::Unknown(kept(name)),
        }
    }

    /// The bytes of the identifier, whatever it is a name of, where they are no more than a [`Name`] holds.
    pub(crate) fn bytes(self) -> Option<Name>
        ensures { result ≡ word_bytes self }
    {
        match self {
            Word::Action(action) => Name::new(action.name().as_bytes()),
            Word::Function(function) => Name::new(function.name().as_bytes()),
            Word::Destructive(destructive) => Name::new(destructive.name().as_bytes()),
            Word::Keyword(keyword) => Name::new(keyword.name().as_bytes()),
            Word::Number(variable) => Name::new(name_of_number(variable).as_bytes()),
            Word::Text(variable) => Name::new(name_of_text(variable).as_bytes()),
            Word::Unknown(kept) => kept,
        }
    }
}

impl KnownWord {
    /// The word that it is.
    fn as_word(self) -> Word
        ensures { result ≡ as_word self }
    {
        match self {
            KnownWord::Action(action) => Word::Action(action),
            KnownWord::Function(function) => Word::Function(function),
            KnownWord::Destructive(destructive) => Word::Destructive(destructive),
            KnownWord::Keyword(keyword) => Word::Keyword(keyword),
            KnownWord::Number(variable) => Word::Number(variable),
            KnownWord::Text(variable) => Word::Text(variable),
        }
    }

    /// The first of these words with this name.
    fn named_in(words: &[KnownWord], name: &[u8]) -> Option<KnownWord>
        ensures some { IfSome result (λ word. name_of_word (as_word word) ≡ Some name.now) }
        ensures none { IfNone result (All (λ word. name_of_word (as_word word) ≢ Some name.now) words.now) }
    {
        for word in words {
            // a name is that of one word only, so no later one has it
            if word.is_named(name) {
                return Some(*word);
            }
        }
        None
    }

    /// Whether this is its name.
    fn is_named(self, name: &[u8]) -> bool
        ensures { IsTrue result ↔ (name_of_word (as_word self) ≡ Some name.now) }
    {
        let own = match self {
            KnownWord::Action(action) => action.name(),
            KnownWord::Function(function) => function.name(),
            KnownWord::Destructive(destructive) => destructive.name(),
            KnownWord::Keyword(keyword) => keyword.name(),
            KnownWord::Number(variable) => name_of_number(variable),
            KnownWord::Text(variable) => name_of_text(variable),
        };
        own.as_bytes() == name
    }
}

/// What is kept of a name that the language doesn't know.
fn kept(name: &[u8]) -> Option<Name>
    ensures { IsKeptName name.now result }
{
    Name::new(name)
}

/// Law: each name is that of a word, and of one only. Of an identifier only that isn't kept which has more bytes than a name.
pub fn one_word()
    ensures some { (name : List ℕ) → (word : Word) × IsWord name word }
    ensures one { (name : List ℕ) (a b : Word) → IsWord name a → IsWord name b → a ≡ b }
    ensures long { (name : List ℕ) → IsIdentifier name → IsWord name (Word.Unknown None) → name_max < length name }
{}
