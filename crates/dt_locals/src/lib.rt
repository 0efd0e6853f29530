//! Thread-local variables: what a consumer's threads have assigned to their variables, as far as there was room.
//!
//! Which assignments are kept, and what a variable's value is, is defined over the list of all assignments that came, and not
//! over how they lie (`specs/History.antt`, `specs/Values.antt`, `specs/Kept.antt`). New variables have an empty past, and each
//! `set` makes their past one assignment longer (`specs/LocalsAreAt.antt`). Those that aren't 0 are found by a hash table
//! (`specs/Slots.antt`), all of whose room is made by `new`.
#![tactic(auto)]

mod laws;
mod limit_laws;
mod limits;
mod locals;
mod slots;
mod table;
mod variable;

pub use laws::{
    all_zero_at_first, assigned_once, one_assignment, one_locals_choice, threads_apart,
};
pub use limit_laws::limits_agree;
pub use limits::{DYNVARSIZE_MAX, DYNVARSIZE_MIN, LOCAL_DROPS_LIMIT, LOCAL_SIZE};
pub use locals::Locals;
pub use variable::LocalVariable;
