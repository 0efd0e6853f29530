//! Why a line is refused.
ghost use Rattle.std.specs.Prelude.{◌≡◌};
ghost use Rattle.std.specs.Option.{option_and_then};
ghost use Rattle.dt_ecb.specs.Forms.{verdict_of};
ghost use Rattle.dt_life.specs.Refusal.{refusal_number, refusal_name, refused_as};
ghost use Rattle.dt_life.specs.Reply.{refusal_of};

use dt_ecb::{EnableFault, RestrictedAction};
use dt_lang::{Destructive, LangFault, Why};
use dt_names::ShortText;
use std::fmt;

/// Why a line was refused, each with its number on the wire.
#[derive(Clone, Copy, PartialEq, Eq)]
pub enum Refusal {
    /// 1: the line is no JSON.
    Json,
    /// 2: the line is no request: no object, no known command, or a field missing or of another kind.
    Request,
    /// 3: the line has more than 65,536 bytes.
    LineLong,
    /// 4: the text is no program, or in a `list` no description.
    Program { at: usize, why: Why },
    /// 5: a clause matches no probe that the account may enable; clauses count from 1.
    NoMatch { clause: u32 },
    /// 6: a clause wants a right that the account lacks; clauses count from 1.
    Privilege { clause: u32, what: RestrictedAction },
    /// 7: a statement is a destructive action.
    Destructive { at: usize, what: Destructive },
    /// 8: an aggregation is used in two ways.
    AggClash { what: ShortText },
    /// 9: a limit would be passed.
    Limit,
    /// 10: not in this phase.
    Busy,
    /// 11: there is no such option, or the value is of another kind than it takes, or out of its range.
    Option,
    /// 12: the machine has no such processor.
    NoCpu,
    /// 13: no accepted program uses an aggregation of this name.
    NoAgg,
    /// 14: there is no ECB of this number.
    NoEpid,
    /// 15: the session has asked its 1,024 lines.
    Quota,
    /// 16: memory ran out; the line may be asked again.
    Memory,
}

impl fmt::Debug for Refusal {
    fn fmt<W: fmt::Write>(&self, f: &mut fmt::Formatter<W>) -> fmt::Result {
        f.write_str(self.name())
    }
}

impl Refusal {
    /// For what a text with this fault is refused. That memory ran out is no fault of the text.
    pub fn of_text(fault: LangFault) -> Option<Self>
        ensures { result ≡ refused_as fault }
    {
        match fault {
            LangFault::Program { at, flaw, .. } => Some(Refusal::Program {
                at,
                why: flaw.why(),
            }),
            LangFault::Destructive { at, what, .. } => Some(Refusal::Destructive { at, what }),
            LangFault::Memory => None,
        }
    }

    /// For what a program with this fault is refused. That memory ran out is no fault of the program.
    pub fn of_program(fault: EnableFault) -> Option<Self>
        ensures { result ≡ option_and_then refusal_of (verdict_of fault) }
    {
        match fault {
            EnableFault::Privilege { clause, what } => Some(Refusal::Privilege { clause, what }),
            EnableFault::AggClash { what } => Some(Refusal::AggClash { what }),
            EnableFault::NoMatch { clause } => Some(Refusal::NoMatch { clause }),
            EnableFault::Limit => Some(Refusal::Limit),
            EnableFault::Memory => None,
        }
    }

    /// The number of the refusal on the wire, by which programs tell one from another.
    pub fn number(self) -> u32
        ensures { result ≡ refusal_number self }
    {
        match self {
            Refusal::Json => 1,
            Refusal::Request => 2,
            Refusal::LineLong => 3,
            Refusal::Program { .. } => 4,
            Refusal::NoMatch { .. } => 5,
            Refusal::Privilege { .. } => 6,
            Refusal::Destructive { .. } => 7,
            Refusal::AggClash { .. } => 8,
            Refusal::Limit => 9,
            Refusal::Busy => 10,
            Refusal::Option => 11,
            Refusal::NoCpu => 12,
            Refusal::NoAgg => 13,
            Refusal::NoEpid => 14,
            Refusal::Quota => 15,
            Refusal::Memory => 16,
        }
    }

    /// The name of the refusal on the wire, spelled as the variant is.
    pub fn name(self) -> &'static str
        ensures { result.now ≡ refusal_name self }
    {
        match self {
            Refusal::Json => "Json",
            Refusal::Request => "Request",
            Refusal::LineLong => "LineLong",
            Refusal::Program { .. } => "Program",
            Refusal::NoMatch { .. } => "NoMatch",
            Refusal::Privilege { .. } => "Privilege",
            Refusal::Destructive { .. } => "Destructive",
            Refusal::AggClash { .. } => "AggClash",
            Refusal::Limit => "Limit",
            Refusal::Busy => "Busy",
            Refusal::Option => "Option",
            Refusal::NoCpu => "NoCpu",
            Refusal::NoAgg => "NoAgg",
            Refusal::NoEpid => "NoEpid",
            Refusal::Quota => "Quota",
            Refusal::Memory => "Memory",
        }
    }
}
