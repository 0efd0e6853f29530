//! Tests of `dt_trail`, by its public calls alone. The crate has no function of its own.
#![tactic(auto)]

#[cfg(test)]
mod again;
#[cfg(test)]
mod asserts;
#[cfg(test)]
mod items;
#[cfg(test)]
mod lawful;
#[cfg(test)]
mod longest;
#[cfg(test)]
mod rows;
#[cfg(test)]
mod threads;
#[cfg(test)]
mod widening;
#[cfg(test)]
mod writers;
