//! Tests of the crates of values, by their public calls alone: names, patterns, privileges, expressions, buffers, aggregating
//! functions, stores, thread-local variables and published chains.
//!
//! A crate with tests is proved twice, once for its library and once for its tests. So those that need no private part of a
//! crate stand here. The crate has no function of its own.
#![tactic(auto)]

#[cfg(test)]
mod asserts;
#[cfg(test)]
mod buffers;
#[cfg(test)]
mod chains;
#[cfg(test)]
mod descriptions;
#[cfg(test)]
mod expressions;
#[cfg(test)]
mod functions;
#[cfg(test)]
mod locals;
#[cfg(test)]
mod names;
#[cfg(test)]
mod patterns;
#[cfg(test)]
mod privileges;
#[cfg(test)]
mod stores;
