//! The world of many consumers: what its steps do to each session, and that what a session is answered is what it would
//! be answered alone.
//!
//! Consumers trace one machine together, each in a session of its own, on one of 256 seats. The world is a function of
//! the list of steps ([`Step`], `specs/Steps.antt`), and no consumer is in it: what reached each session
//! (`specs/World.antt`), what was published, which offers are due. [`run`] takes the steps with the consumers, and
//! answers each session what its own view is answered alone; [`agree_alike`] says that equal seen views are answered
//! alike, whatever else happened. [`Engine`] takes them one by one.
#![tactic(auto)]

mod due;
mod engine;
mod laws;
mod outcome;
mod place;
mod running;
mod session;
mod step;

pub use dt_proto::seen_alike;
pub use due::ScriptPlace;
pub use engine::Engine;
pub use laws::{
    agree_alike, named_by_own, no_other_view, told_alone, trail_is_told, trail_is_view,
    worlds_are_sound,
};
pub use running::{Ran, run};
pub use session::{Answered, Finished};
pub use step::Step;
