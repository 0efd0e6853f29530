//! Tests of `dt_facts`, by its public calls alone. The crate has no function of its own.
#![tactic(auto)]

#[cfg(test)]
mod beginnings;
#[cfg(test)]
mod desk;
#[cfg(test)]
mod one_thread;
#[cfg(test)]
mod publishing;
#[cfg(test)]
mod receipts;
#[cfg(test)]
mod threads;
