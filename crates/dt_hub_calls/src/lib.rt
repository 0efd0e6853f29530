//! What the tests of `dt_hub`, those in one thread and those in several, and the program that measures it have in common.
//!
//! Here stand the calls that are tested, as traits that promise nothing; the texts that both crates of tests ask and are answered; the row that a
//! session and a processor share, computed from what each of them was told; and a trail as a text. A function here says what is wrong, and the tests assert it.
#![tactic(auto)]

mod calls;
mod scripts;
mod shared_row;
pub mod texts;
mod trails;

pub use calls::{HubCalls, SessionCalls, TokenCalls, answered, at_seat, two_of};
pub use scripts::with_scripts;
pub use shared_row::{LifeHeard, RowFault, Sight, meet_heard};
pub use trails::trail_text;
