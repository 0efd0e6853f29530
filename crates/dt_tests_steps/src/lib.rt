//! Tests of `dt_steps`, by its public calls alone: lists of steps.
//!
//! What the built program shows by files stands in the examples. The crate has no function of its own.
#![tactic(auto)]

#[cfg(test)]
mod calls;
#[cfg(test)]
mod enabled;
#[cfg(test)]
mod long_list;
#[cfg(test)]
mod random_steps;
#[cfg(test)]
mod rows;
