//! What a check finds.
use std::fmt;

/// What a check finds of a trail.
#[derive(Clone, Copy, Debug, PartialEq, Eq)]
pub enum Verdict {
    /// Each item may stand where it does, and so many replies are all as they are due.
    Agree(usize),
    /// This reply, counted from 1, is the first that isn't the one that is due. All before it is in order.
    Differs(usize),
    /// This item, counted from 1, is the first that may not stand where it does: a line over the quota, a firing that
    /// the machine's scripts don't have, one at no higher place than an earlier one of its processor, or one that isn't
    /// seen. All before it is in order.
    Illegal(usize),
}

impl fmt::Display for Verdict {
    ghost use Rattle.std.specs.Prelude.{Some};
    ghost use Rattle.dt_alone.specs.VerdictText.{verdict_text};

    ghost output = { λ verdict. Some (verdict_text verdict) };

    fn fmt<W: fmt::Write>(&self, f: &mut fmt::Formatter<W>) -> fmt::Result {
        match self {
            Verdict::Agree(replies) => write!(f, "agree {replies}"),
            Verdict::Differs(reply) => write!(f, "differs at {reply}"),
            Verdict::Illegal(item) => write!(f, "illegal at {item}"),
        }
    }
}
