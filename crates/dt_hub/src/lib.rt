//! Consumers and processors on threads of their own.
//!
//! A [`Hub`] has a machine and 256 seats, each under a lock of its own. Sessions are opened on seats, ask lines and close; processors fire, each by its
//! [`CpuSeat`], and offer what they fire to the sessions that the published chains name. All calls but [`Hub::new`] and [`Hub::end`] take the hub by a `&`,
//! from any thread.
//! What a session is answered is due after one legal trail, which it knows then (`IsRepliedTo` of dt_seat); what a processor's call comes to is in
//! `specs/Firings.antt`. What each of them knows of a trail is a beginning of it.
#![tactic(auto)]

mod answered;
mod asking;
mod calls;
mod cpu_seat;
mod endless;
mod fault;
mod firing;
mod gate;
mod hub;
pub mod laws;
mod letting_go;
mod looking;
mod making;
mod meeting;
mod missed_seats;
mod naming;
mod offered;
mod offering;
mod opening;
mod telling;

pub use answered::LineAnswer;
pub use cpu_seat::CpuSeat;
pub use dt_seat::{HubSite, KnownItem, Receipt, Session};
pub use fault::OpenFault;
pub use firing::Fired;
pub use gate::{Gate, Moment, NoGate};
pub use hub::{Hub, HubParts};
pub use looking::Looked;
pub use offered::Offered;
