//! What a program is: clauses, with their descriptions, expressions, statements and aggregations.
//!
//! A contract sees a clause as a `ClauseForm` (`specs/Clause.antt`), which is the same without where it lies in memory. The limits on
//! how many there may be of a thing stand in the types. Bounds of levels and numbers of frames can't be made with values that the
//! language refuses (`specs/Bounds.antt`), and a text is one description or none (`specs/Description.antt`).
#![tactic(auto)]

mod clause;
mod description;
mod limit_laws;
mod program;

pub use clause::{
    AggregationUse, Argument, BoundsFault, Call, Clause, DESCRIPTIONS_MAX, FRAMES_MAX, Frames,
    KEYS_MAX, STATEMENTS_MAX, Statement, checked_bounds,
};
pub use description::{Description, DescriptionFault, one_description, some_description};
pub use dt_aggfn::{Bounds, LEVELS_MAX};
pub use limit_laws::limits_agree;
pub use program::{CLAUSES_MAX, Program, TOKENS_MAX};
