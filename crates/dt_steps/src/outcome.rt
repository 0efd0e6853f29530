//! What a step answers.
use crate::session::{Answered, Finished};
use dt_chain::{Seat, SeatMask};

/// What a step answers.
#[derive(Drop)]
pub(crate) enum StepAnswer {
    /// Nothing.
    Quiet,
    /// A reply to the session on a seat, as a line with its newline.
    Replied(Seat, Vec<u8>),
    /// What a look named.
    Looked(SeatMask),
}

impl StepAnswer {
    ghost use Rattle.std.specs.Prelude.{◌≡◌, Some, None};
    ghost use Rattle.std.specs.Option.{option_map_or};
    ghost use Rattle.dt_steps.specs.declared.outcome.StepAnswer.TheVariants as outcome;

    /// A reply at a seat, if there is one.
    pub(crate) fn replied(seat: Seat, reply: Option<Answered>) -> StepAnswer
        ensures { result ≡ option_map_or (λ answered. outcome.Replied seat answered.text) reply outcome.Quiet }
    {
        match reply {
            Some(Answered { text, .. }) => StepAnswer::Replied(seat, text),
            None => StepAnswer::Quiet,
        }
    }

    /// The reply to a `go` at a seat, if one took effect.
    pub(crate) fn finished(seat: Seat, reply: Option<Finished>) -> StepAnswer
        ensures { result ≡ option_map_or (λ finished. outcome.Replied seat finished.text) reply outcome.Quiet }
    {
        match reply {
            Some(Finished { text, .. }) => StepAnswer::Replied(seat, text),
            None => StepAnswer::Quiet,
        }
    }
}
