//! What a consumer that traces alone is answered, and whether the trail of a session says just this.
//!
//! [`alone`] gives the replies to a list of own lines and firings, as `Alone` of dt_proto defines them, and [`check`]
//! reads the text of a trail and judges it: it agrees; or it has a first item that may not stand there, or whose reply
//! is not the one that is due (`specs/Verdicts.antt`, over `specs/Legal.antt`). Both run the lines and the firings on
//! a `Runner`, which keeps all that happened and computes each reply from the whole list (`specs/Runs.antt`). The laws
//! `one_verdict` and `trail_agrees` say that a text has one verdict, and that the trail of what a machine can bring to a
//! consumer is judged to agree. That a trail agrees exactly where it is legal and its replies are those that a consumer is
//! answered which traces alone is the law `agreement` of dt_proto.
#![tactic(auto)]

mod answering;
mod checking;
mod commands;
mod happened;
mod item;
mod judge;
mod kept;
mod laws;
mod lent_item;
mod listing;
mod parts;
mod programs;
mod replies;
mod runner;
mod shown;
mod stores;
mod trail;
mod verdict;

pub use checking::{CheckFault, check};
pub use item::Item;
pub use laws::{one_trail_told, one_verdict, trail_agrees};
pub use replies::alone;
pub use verdict::Verdict;
