//! Tests of `dt_server`, by its public calls alone: sessions over devices that cut, come short and fail, and a service's workers.
//!
//! The crate has no function of its own.
#![tactic(auto)]

#[cfg(test)]
mod devices;
#[cfg(test)]
mod serving;
#[cfg(test)]
mod workers;
