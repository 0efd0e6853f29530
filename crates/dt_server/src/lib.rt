//! Sessions over any source of bytes and any sink, and a service of them over Unix sockets.
//!
//! [`serve_session`] reads lines, however their bytes are cut, asks them, and writes what they are answered. What it promises is `HasServed` of
//! `specs/Served.antt`: the receipt's items are a legal trail, whose lines are a beginning of those that were read, less those that were refused for memory, and what is
//! written is what such a session is answered alone. [`serve_machine`] runs a hub: a thread for each processor, each socket and each connection.
#![tactic(auto)]

mod colour;
mod desk;
mod device;
mod ended;
mod laws;
mod listening;
mod serving;
mod session;
mod shared;
mod working;

pub use desk::Desk;
pub use device::{Counted, Failure, Sink, Source};
pub use ended::Ended;
pub use laws::closed_is_woven;
pub use serving::serve_machine;
pub use session::serve_session;
pub use shared::{AccountSocket, Shared};
pub use working::fire_many;
