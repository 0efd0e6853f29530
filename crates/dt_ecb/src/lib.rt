//! Enabling: the ECBs that a program adds to a consumer, or its first refusal.
//!
//! `enable` answers what the definition `IsVerdict` in `specs/Enable.antt` says of a program: its ECBs, which are
//! `added` of `specs/Ecbs.antt`, or the first fault in the order privilege, clash, no match, limit. A program has one
//! verdict (`one_verdict`, `some_verdict`). `listed` gives the probes that a description asks for. `Shapes` has the
//! aggregations of the accepted programs, and `Shapes::named` the number and the function of a name.
#![tactic(auto)]

mod clashes;
mod description_matcher;
mod ecbs;
mod enabling;
mod fault;
mod faults;
mod laws;
mod limit_laws;
mod limits;
mod matches;
mod parts;
mod shape;
mod shapes;

pub use enabling::enable;
pub use fault::{EnableFault, RestrictedAction};
pub use laws::{
    ecbs_go_on, numbers_stay, one_verdict, some_verdict, tests_agree, uses_are_named, uses_of_both,
};
pub use limit_laws::limits_agree;
pub use limits::{AGGREGATIONS_MAX, ECBS_MAX};
pub use matches::listed;
pub use parts::Ecb;
pub use shapes::{NumberedAggregation, Shapes};
