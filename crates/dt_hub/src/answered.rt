//! What a session is answered.
ghost use Rattle.std.specs.Prelude.{◌≡◌, MatchResult};
ghost use Rattle.dt_hub.specs.Asking.{answer_text, answered_by};
ghost use Rattle.dt_hub.specs.declared.answered.LineAnswer.TheVariants as answers;

use dt_proto::memory_line;
use dt_seat::{AfterLine, Replied};
use std::alloc::AllocError;

/// What a line is answered.
#[derive(Debug, Drop)]
pub enum LineAnswer {
    /// The reply that is due, with its newline. The session goes on.
    Reply(Vec<u8>),
    /// The reply to a `close` that was accepted: the session is over, and is to be closed by [`Hub::close`](crate::Hub::close).
    Closed(Vec<u8>),
    /// Refusal 15: the quota of lines is used up. The line is no part of the session's life, and no later one will be.
    Quota(Vec<u8>),
    /// There was no memory. The line is no part of the session's life, and may be asked again.
    Memory,
}

impl LineAnswer {
    /// What an asked line came to.
    pub(crate) fn of(asked: Result<Replied, AllocError>) -> LineAnswer
        ensures { MatchResult asked (λ replied. result ≡ answered_by replied.text replied.ending) (λ _. result ≡ answers.Memory) }
    {
        let Ok(Replied { text, ending }) = asked else {
            return LineAnswer::Memory;
        };
        match ending {
            AfterLine::GoesOn => LineAnswer::Reply(text),
            AfterLine::Closes => LineAnswer::Closed(text),
            AfterLine::OverQuota => LineAnswer::Quota(text),
        }
    }

    /// The bytes that are answered, with their newline: where there was no memory a fixed line, which takes none.
    pub fn text(&self) -> &[u8]
        ensures { result.now ≡ answer_text self.now }
    {
        match self {
            LineAnswer::Reply(text) | LineAnswer::Closed(text) | LineAnswer::Quota(text) => {
                text.as_slice()
            }
            LineAnswer::Memory => memory_line(),
        }
    }
}
