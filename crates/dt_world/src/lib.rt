//! The world of many consumers, and replays of it: from a machine's bytes and an input's bytes to the bytes of the replies.
//!
//! The world itself, its steps and the isolation theorem are `dt_steps`', and shown here as this crate's own: [`run`] takes
//! steps, and answers each session what its own view is answered alone; [`agree_alike`] says that equal seen views are
//! answered alike, whatever else happened.
//!
//! [`replay`] takes the steps from bytes, and writes the replies; [`replay_trail`] writes the trail of one session. A line
//! is read by [`StepLine::parse`]; what a replay does, line by line, stands in `specs/Replay.antt`.
#![tactic(auto)]

mod limit_laws;
mod limits;
mod output;
mod progress;
mod replay_laws;
mod replays;
mod step_line;
mod words;
mod writing;

pub use dt_steps::{
    Ran, Step, agree_alike, run, seen_alike, told_alone, trail_is_told, trail_is_view,
    worlds_are_sound,
};
pub use limit_laws::limits_agree;
pub use replay_laws::{one_output, one_trail, replays_are_runs};
pub use replays::{ReplayFault, replay, replay_trail};
pub use step_line::{StepLine, one_step_line};
pub use words::two_numbers;
pub use writing::write_whole;
