//! Tests of `dt_machine`, `dt_lang`, `dt_record` and `dt_ecb`, by their public calls alone.
//!
//! A crate with tests is proved twice, once for its library and once for its tests. So those that need no private part of a
//! crate stand here. The crate has no function of its own.
#![tactic(auto)]

#[cfg(test)]
mod asserts;
#[cfg(test)]
mod enablings;
#[cfg(test)]
mod machines;
#[cfg(test)]
mod programs;
#[cfg(test)]
mod records;
