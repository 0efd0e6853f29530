//! Principal buffers: what one processor keeps of the records that a consumer traces there.
//!
//! A buffer keeps records by one of three policies (`Policy`). What it keeps, what it counts as dropped and whether it
//! is filled are defined over the list of all that came to it, attempts and swaps (`specs/History.antt`), and not over
//! how it stores bytes: `specs/Choice.antt` for switch, `specs/Beginning.antt` for fill, `specs/Ending.antt` for ring,
//! and `specs/Shows.antt` for the three together. A list of attempts and swaps gives exactly one answer (`one_shown`,
//! `some_shown`). A new buffer has an empty past, and each `put` and `swap` makes its past one event longer
//! (`specs/IsAt.antt`).
#![tactic(auto)]

mod fill;
mod laws;
mod limit_laws;
mod limits;
mod policy;
mod principal;
mod read_ahead;
mod ring;
mod switch;

pub use laws::{one_beginning, one_choice, one_end, one_shown, some_shown};
pub use limit_laws::limits_agree;
pub use limits::{DROPS_LIMIT, SIZE_MAX};
pub use policy::{Policy, Put};
pub use principal::{Principal, Rings};
