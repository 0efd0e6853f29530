//! Tests of `dt_consumer` and `dt_proto`, by their public calls alone.
//!
//! A crate with tests is proved twice, once for its library and once for its tests. So those that need no private part of a
//! crate stand here. The crate has no function of its own.
#![tactic(auto)]

#[cfg(test)]
mod asserts;
#[cfg(test)]
mod commands;
#[cfg(test)]
mod consumers;
#[cfg(test)]
mod lines;
