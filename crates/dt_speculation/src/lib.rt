//! The speculative buffers of one consumer: what `speculation()`, `speculate()`, `commit()` and `discard()` stand on.
//!
//! `Specs` has identifiers, from 1 on, and for each of them a part on each processor. `draw` gives the least identifier that isn't
//! in use, `put` puts a record into a part, `part` lends what a part keeps, and `free` ends the use of an identifier. Which
//! identifiers are in use, what is kept under them and what a draw answers is defined over the list of all that came, draws, puts
//! and frees (`specs/History.antt`, `specs/Uses.antt`, `specs/Records.antt`, `specs/Answers.antt`), and not over how it is
//! stored. A part keeps records as a buffer under the switch policy does (dt_buffer's `specs/Choice.antt`). New buffers have an
//! empty past, and each call makes the past one event longer (`specs/IsAt.antt`).
#![tactic(auto)]

mod answer;
mod laws;
mod limit_laws;
mod limits;
mod part;
mod speculation;
mod speculations;

pub use answer::SpecPut;
pub use laws::{
    draws_begin, draws_last, drops_told, frees_end, one_answer, one_part, parts_of_records,
    puts_add, read_off_pasts,
};
pub use limit_laws::limits_agree;
pub use limits::{CPUS_MAX, FAILS_LIMIT, NSPEC_MAX, SPECSIZE_MAX, SPECSIZE_MIN};
pub use speculations::Specs;
