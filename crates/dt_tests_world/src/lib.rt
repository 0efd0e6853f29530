//! Tests of `dt_world` and `dt_alone`, by their public calls alone: step lines, streams, and a consumer alone.
//!
//! What the built program shows by files stands in the examples. The crate has no function of its own.
#![tactic(auto)]

#[cfg(test)]
mod alone;
#[cfg(test)]
mod calls;
#[cfg(test)]
mod step_lines;
#[cfg(test)]
mod streams;
