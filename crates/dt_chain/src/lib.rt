//! What the seats have published: who is interested in which probes, and so whom a firing is offered to.
//!
//! Consumers trace one machine together, each on one of [`SEATS`] seats. A seat's publication says on
//! whose behalf it traces and in which probes it is interested; the seat can withdraw it ([`Entries`]). A publication or a
//! withdrawal is also a value, which can be kept and applied to several copies of what is published ([`Write`]). A processor
//! that makes a firing looks which seats' publications name it, and offers it to these alone ([`SeatMask`]). What is named
//! is defined over the list of all publications and withdrawals (`specs/Writes.antt`, `specs/Look.antt`), and not over
//! how they are kept; `one_look` says that there is one answer, and `last_writes_suffice` that the last write of
//! each seat is all that counts. Looking takes no memory.
//!
//! Where threads run, one writer publishes its writes to readers that take no lock and wait for nobody ([`Chains`],
//! [`ChainWriter`], [`ChainReader`]). All writes are one list, which only grows: who knows a beginning of it has a [`Front`].
//! The rule of the chains stands in `specs/Chains.antt`.
#![tactic(auto)]

mod book;
mod chain_copy;
mod chain_reader;
mod chain_rule;
mod chain_writer;
mod chains;
mod entries;
mod front;
mod history;
mod laws;
mod limit_laws;
mod lists;
mod named_seats;
mod press;
mod seat;
mod seat_mask;
mod seat_set;
mod write;

pub use book::Site;
pub use chain_reader::{ChainReader, LookRefused};
pub use chain_writer::ChainWriter;
pub use chains::Chains;
pub use entries::Entries;
pub use front::Front;
pub use laws::{
    copies_agree, last_write_tells, last_writes_suffice, one_look, own_writes_tell, tests_agree,
};
pub use limit_laws::limits_agree;
pub use named_seats::NamedSeats;
pub use seat::{SEATS, Seat};
pub use seat_mask::SeatMask;
pub use seat_set::SeatSet;
pub use write::Write;
