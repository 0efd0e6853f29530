//! The machine: its file read whole, or refused with the first fault, and then found in by number and by name.
//!
//! `Machine::read` gives the machine that a text describes. It refuses any other text with the least number of
//! [`FaultNumber`] that finds something in it, at the least processor and there the first row, and tells the first key that
//! is wrong there as [`Found`]; `one_answer` says that a text has one answer. Only a refusal for memory can come in place
//! of either.
//!
//! `Machine`'s readers and [`Interest`] take no memory. Whether a firing belongs to a machine is [`Machine::context`],
//! and the reading of the file asks the same code. The limits are constants of this crate; the definitions have their own
//! in `specs/Limits.antt`, and the law `limits_agree` says that both are the same. `specs/Registry.antt` is how crates
//! above see a machine, and `specs/Reading.antt` what a file describes, over the rows of `specs/Rows.antt` and the kinds
//! of `specs/Shape.antt`.
#![tactic(auto)]

mod accounts;
mod belonging;
mod bit_word;
mod by_pid;
mod context;
mod fault;
mod found;
mod interest;
mod keys;
mod law;
mod limit_laws;
mod limits;
mod machine;
mod numbers;
mod probes;
mod processes;
mod scripts;
mod sections;
mod shape;

pub use bit_word::{BitWord, WORD_BITS};
pub use context::Context;
pub use dt_cred::{ARGS, FRAMES, Firing};
pub use fault::{FaultNumber, MachineFault};
pub use found::{FileKey, Found, Part};
pub use interest::{INTEREST_WORDS, Interest};
pub use law::{described_is_in_bounds, described_is_sound, one_answer};
pub use limit_laws::limits_agree;
pub use limits::{
    ACCOUNTS_MAX, CPUS_MAX, FIRST_PROBE_ID, PID_MAX, PROBE_ID_MAX, PROBES_MAX, PROCESSES_MAX,
    SCRIPT_MAX,
};
pub use machine::Machine;
