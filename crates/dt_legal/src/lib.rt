//! Which rows the trail of a session may have.
//!
//! A session's trail is a row of items ([`dt_trail`]): its lines, and the firings that it saw. The row is legal where each line is within
//! the quota, and each firing stands in its processor's script, after those of that processor before it, and is seen where it
//! stands (`specs/Rows.antt`). That is the legal trail of `dt_proto`, whatever was replied. [`LegalIn`] is the law by which the
//! trails of a machine's sessions are rows of this kind, and the laws here say what a row may go on with, and how long it can be.
#![tactic(auto)]

mod law;
mod laws;

pub use law::{LegalIn, Traced};
pub use laws::{limits_meet, rows_fit, rows_go_on};
