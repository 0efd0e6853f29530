//! Who may trace what: accounts with their privileges, the classes of probes, and the table that ties them.
//!
//! `permits`, `may_enable` and `admits` answer exactly what the table in `specs/Rights.antt` says, and a probe's class
//! is the one that its provider's name stands for (`specs/Class.antt`). The table stands as tests too, by which other
//! crates' definitions filter lists, and the two always agree (`tests_agree`). A [`Firing`] is here too, since it speaks of a
//! [`Mode`] and crates that know no machine take it. No call takes memory.
#![tactic(auto)]

mod account;
mod class;
mod firing;
mod limit_laws;
mod probe;
mod rights;

pub use account::{Account, Privs, Process};
pub use class::Class;
pub use firing::{ARGS, FRAMES, Firing};
pub use limit_laws::limits_agree;
pub use probe::Probe;
pub use rights::{Mode, admits, may_enable, permits, tests_agree};
