//! The hub.
ghost use Rattle.std.specs.Prelude.{◌≡◌, IfOk};

use crossbeam_utils::CachePadded;
use dt_chain::{Chains, SEATS};
use dt_facts::{Facts, Maker};
use dt_machine::Machine;
use dt_seat::{HubPublisher, HubSite, LockedSeat};
use std::alloc::{AllocError, Global};
use std::marker::Model;
use std::sync::Mutex;
use std::sync::atomic::AtomicU64;

/// All that a hub is made of but for its seats, before a program picks its site: its machine, its chains and the word of its facts.
///
/// Contracts see it as a `HubNames` of `specs/Hubs.antt`.
#[derive(Drop)]
pub struct HubParts {
    pub(crate) machine: Machine,
    pub(crate) chains: Chains,
    pub(crate) facts: Facts,
    pub(crate) maker: Maker,
}

impl Model for HubParts {
    ghost use Rattle.std.specs.Prelude.{◌≡◌};
    ghost use Rattle.dt_facts.specs.Handles.{making};
    ghost use Rattle.dt_hub.specs.Hubs.{HubNames};

    ghost Value = { HubNames };

    ghost view = { λ p. record { contents = p.machine; book = p.chains; word = p.facts } };

    ghost invariant = { λ p. p.maker ≡ making p.facts 0 };
}

impl HubParts {
    /// What a hub of this machine is made of.
    ///
    /// `Err`: there was no memory.
    pub fn new(alloc: Global, machine: Machine) -> Result<HubParts, AllocError>
        ensures { IfOk result (λ parts. parts.contents ≡ machine) }
    {
        let (facts, maker) = Facts::new(alloc)?;
        Ok(HubParts {
            machine,
            chains: Chains::new(),
            facts,
            maker,
        })
    }
}

/// The seats, each under a lock of its own and on cache lines of its own: processors that fire for different seats at once don't wait for each other's lines.
pub(crate) type LockedSeats<J> = Vec<CachePadded<Mutex<LockedSeat<J>>>>;

/// A machine whose processors fire on threads of their own, and [`SEATS`] seats, each under a lock of its own, for the sessions that
/// trace it. Threads share it by a `&`.
///
/// It is not `Drop`: end it by [`Hub::end`]. Contracts see it as its machine.
pub struct Hub<J: HubSite> {
    pub(crate) machine: Machine,
    pub(crate) facts: Facts,
    pub(crate) chains: Mutex<HubPublisher<J>>,
    pub(crate) seats: LockedSeats<J>,
    /// How many lines were asked and sessions closed, so how often what is published may have changed: a processor that finds the count as it was needn't look. No promise
    /// rests on it.
    pub(crate) changes: CachePadded<AtomicU64>,
}

impl<J: HubSite> Model for Hub<J> {
    ghost use Rattle.std.specs.Prelude.{◌≡◌, vec_len};
    ghost use Rattle.dt_chain.specs.Limits.{seat_count};
    ghost use Rattle.dt_machine.specs.Registry.{Contents};

    ghost Value = { Contents };

    ghost view = { λ h. h.machine };

    ghost invariant = { λ h. (h.machine ≡ J.contents) × (h.facts ≡ J.word) × (vec_len h.seats ≡ seat_count) };
}
