//! The draft of a line: its reply, and what it will change.
ghost use Rattle.std.specs.Prelude.{◌≡◌, ◌↔◌, List, Result, IsTrue};

use crate::room::Room;
use crate::tracing::Tracing;
use dt_aggstore::Aggregation;
use dt_ecb::{Ecb, Shapes};
use dt_lang::Clause;
use dt_life::{Options, Refusal, Reply};

/// What a line changes.
#[derive(Drop)]
pub(crate) enum Change {
    /// The line is counted, and that is all.
    Counted,
    /// These are the options from now on.
    Set {
        options: Options,
    },
    /// These clauses and their ECBs are enabled too, in room for them and all others, and these are all aggregations.
    Enable {
        clauses: Vec<Clause>,
        ecbs: Vec<Ecb>,
        shapes: Shapes,
        room: Room,
    },
    /// Tracing begins. It has its room for records in itself, so it lies on the heap: a draft is moved for each line.
    Go {
        tracing: Box<Tracing>,
    },
    /// Tracing ends.
    Stop,
    /// The buffer of a processor is read, by a `snap`.
    Snap {
        cpu: usize,
    },
    /// An aggregation is truncated.
    Trunc {
        aggregation: Aggregation,
    },
    /// The session is closed.
    Close,
    /// The line isn't even counted.
    Uncounted,
}

/// What a line will be answered, and all that it will change: the memory for it is taken already. It is made by
/// `Consumer::draft`, and `Consumer::apply` makes its change.
#[derive(Drop)]
pub struct Draft {
    pub(crate) reply: Reply,
    pub(crate) change: Change,
}

impl Draft {
    ghost use Rattle.dt_cred.specs.declared.account.Account.{Account};
    ghost use Rattle.dt_machine.specs.Registry.{Registry};
    ghost use Rattle.dt_life.specs.Ask.{Ask};
    ghost use Rattle.dt_life.specs.Acceptance.{IsAcceptedClose, IsAcceptedGo};
    ghost use Rattle.dt_consumer.specs.Draft.{IsDraftOf};
    ghost use Rattle.dt_life.specs.Answer.{answer_of};
    ghost use Rattle.dt_life.specs.Life.{Item, is_over};
    ghost use Rattle.dt_life.specs.Reply.{Replies};
    ghost use Rattle.dt_life.specs.declared.refusal.Refusal.{Refusal};

    /// A line that is refused, counted, and changes nothing else.
    pub(crate) fn refused(refusal: Refusal) -> Self
        ensures reply { result.reply ≡ Reply.Refused refusal }
        ensures change { result.change ≡ Change.Counted }
    {
        Draft {
            reply: Reply::Refused(refusal),
            change: Change::Counted,
        }
    }

    /// A line over the quota: refused, and not even counted.
    pub(crate) fn over() -> Self
        ensures reply { result.reply ≡ Reply.Refused Refusal.Quota }
        ensures change { result.change ≡ Change.Uncounted }
    {
        Draft {
            reply: Reply::Refused(Refusal::Quota),
            change: Change::Uncounted,
        }
    }

    /// The reply to the line.
    pub fn reply(&self) -> &Reply
        ensures { (account : Account) (registry : Registry) (life : List Item) (line : Result Ask Refusal)
            → IsDraftOf account registry life line self.now
            → Replies account registry life line (answer_of result.now) }
    {
        &self.reply
    }

    /// Whether the line is a `go` that is accepted, so that tracing begins as it is applied. A line over the quota, or
    /// in another phase, or with no room for END's records, is none.
    pub fn publishes(&self) -> bool
        ensures { (account : Account) (registry : Registry) (life : List Item) (line : Result Ask Refusal)
            → IsDraftOf account registry life line self.now
            → (IsTrue result ↔ IsAcceptedGo account registry life line) }
    {
        matches!(&self.change, Change::Go { .. })
    }

    /// Whether the line is a `close` that is accepted, so that the session is to end. A line over the quota is none.
    pub fn closes(&self) -> bool
        ensures { (account : Account) (registry : Registry) (life : List Item) (line : Result Ask Refusal)
            → IsDraftOf account registry life line self.now
            → (IsTrue result ↔ IsAcceptedClose account registry life line) }
    {
        matches!(&self.change, Change::Close)
    }

    /// Whether the line is one over the quota: its reply is that refusal, and it is no part of the life.
    pub fn is_over_quota(&self) -> bool
        ensures { (account : Account) (registry : Registry) (life : List Item) (line : Result Ask Refusal)
            → IsDraftOf account registry life line self.now → (IsTrue result ↔ IsTrue (is_over life)) }
    {
        matches!(&self.change, Change::Uncounted)
    }

    /// The change alone.
    pub(crate) fn into_change(self) -> Change
        ensures { result ≡ self.change }
    {
        let Draft { reply, change } = self;
        drop(reply);
        change
    }
}
