//! Tests of `dt_front`, by its public calls alone, on long inputs. The crate has no function of its own.
#![tactic(auto)]

#[cfg(test)]
mod long;
