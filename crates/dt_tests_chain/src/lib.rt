//! Tests of the published chains of `dt_chain`, by their public calls alone: in one thread beside plain `Entries`, and with threads
//! that publish and look at the same time.
//!
//! The crate has no function of its own.
#![tactic(auto)]

#[cfg(test)]
mod beside_entries;
#[cfg(test)]
mod calls;
#[cfg(test)]
mod many_looks;
#[cfg(test)]
mod readers;
#[cfg(test)]
mod refused;
