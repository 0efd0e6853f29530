//! Tests of the hub of `dt_hub`, by its public calls alone, in one thread.
//!
//! The crate has no function of its own.
#![tactic(auto)]

#[cfg(test)]
mod calls;
#[cfg(test)]
mod endings;
#[cfg(test)]
mod fronts;
#[cfg(test)]
mod gone;
#[cfg(test)]
mod histories;
#[cfg(test)]
mod met;
#[cfg(test)]
mod paths;
#[cfg(test)]
mod refused;
#[cfg(test)]
mod seats;
#[cfg(test)]
mod telling;
