//! Tests of the hub of `dt_hub`, by its public calls alone, in several threads.
//!
//! The crate has no function of its own.
#![tactic(auto)]

#[cfg(test)]
mod calls;
#[cfg(test)]
mod crowd;
#[cfg(test)]
mod flag;
#[cfg(test)]
mod gates;
#[cfg(test)]
mod meeting;
#[cfg(test)]
mod rows;
#[cfg(test)]
mod scenes;
#[cfg(test)]
mod stays;
