//! Which seats a processor's last look named.
ghost use Rattle.std.specs.Prelude.{◌≡◌, ℕ, None, IsTrue, OnErr, OnOk};
ghost use mathlib.Core.List.{IsPrefix};
ghost use Rattle.dt_chain.specs.Chains.{IsMaskAfter};
ghost use Rattle.dt_chain.specs.Seats.{life_at};

use dt_chain::{ChainReader, Front, LookRefused, SeatMask};
use dt_cred::Mode;
use dt_machine::{Firing, Machine};
use dt_seat::HubSite;
use std::marker::Model;

/// What of a firing decides which seats are named for it.
#[derive(Clone, Copy)]
pub(crate) struct FiringKind {
    pub(crate) cpu: u32,
    pub(crate) probe: u32,
    pub(crate) pid: u32,
    pub(crate) mode: Mode,
}

impl FiringKind {
    ghost use Rattle.dt_hub.specs.Serving.{IsOfKind};

    /// That of a firing.
    fn of(firing: &Firing) -> FiringKind
        ensures { IsOfKind result firing.now }
    {
        FiringKind {
            cpu: firing.cpu,
            probe: firing.probe,
            pid: firing.pid,
            mode: firing.mode,
        }
    }

    /// Whether it is that of a firing.
    fn has(&self, firing: &Firing) -> bool
        ensures { IsTrue result → IsOfKind self.now firing.now }
    {
        self.cpu == firing.cpu
            && self.probe == firing.probe
            && self.pid == firing.pid
            && self.mode == firing.mode
    }
}

/// Whether these writes are those that a reader saw last, and all that it knows of.
fn is_all_known<J: HubSite>(front: &Front<J>, reader: &ChainReader<J>) -> bool
    ensures seen { IsTrue result → front.now ≡ reader.now.seen }
    ensures told { IsTrue result → reader.now.told ≡ reader.now.seen }
{
    if !reader.told().begins(front) {
        return false;
    }
    front.begins(&reader.seen())
}

/// What the last look found, and when: after which writes, for a firing of which kind, and what the hub's count of changes was before it.
#[derive(Drop)]
pub(crate) struct LastLook<J: HubSite> {
    pub(crate) front: Front<J>,
    pub(crate) kind: FiringKind,
    pub(crate) changes: u64,
}

/// The seats that a processor's last look named. They are named for the next firing too, where that is of the same kind and nothing was published since: then the
/// processor needn't look.
///
/// Contracts see it as the mask of these seats.
#[derive(Drop)]
pub(crate) struct Naming<J: HubSite> {
    pub(crate) mask: SeatMask,
    pub(crate) last: Option<LastLook<J>>,
}

impl<J: HubSite> Model for Naming<J> {
    ghost use Rattle.std.specs.Option.{ForSome};
    ghost use Rattle.dt_chain.specs.declared.seat_mask.SeatMask.{SeatMask};
    ghost use Rattle.dt_hub.specs.Serving.{Serves};

    ghost Value = { SeatMask };

    ghost view = { λ n. n.mask };

    ghost invariant = { λ n. ForSome n.last (λ last. Serves J.contents.registry n.mask last.front last.kind) };
}

impl<J: HubSite> Naming<J> {
    /// No seat is named, and nobody has looked.
    pub(crate) fn new() -> Naming<J>
        ensures { (seat : ℕ) → life_at result seat ≡ None }
    {
        Naming {
            mask: SeatMask::new(),
            last: None,
        }
    }

    /// The seats that are named.
    pub(crate) fn mask(&self) -> &SeatMask
        ensures { result.now ≡ self.now }
    {
        &self.mask
    }

    /// Whether the seats that were named last are named for this firing too, after the writes that the reader saw last, which are all that it knows of.
    fn serves(&self, reader: &ChainReader<J>, firing: &Firing, changes: u64) -> bool
        ensures mask { IsTrue result → IsMaskAfter J.contents.registry reader.now.seen firing.now self.now }
        ensures all { IsTrue result → reader.now.told ≡ reader.now.seen }
    {
        let Some(last) = &self.last else {
            return false;
        };
        // where something was published since, or the firing is of another kind, others may be named
        if last.changes != changes {
            return false;
        }
        if !last.kind.has(firing) {
            return false;
        }
        is_all_known(&last.front, reader)
    }

    /// Names the seats that a look names for a firing: those that were named last, where the last look serves, and else by a look ([`ChainReader::look_into`]).
    /// `changes` is how often what is published may have changed by now.
    ///
    /// `Err`: there was no entry, and nothing is known otherwise. Nobody is named.
    #[inline(always)]
    pub(crate) fn look(
        &mut self,
        reader: &mut ChainReader<J>,
        machine: &Machine,
        firing: &Firing,
        changes: u64,
    ) -> Result<(), LookRefused>
        requires machine { machine.now ≡ J.contents }
        ensures mask { OnOk result (IsMaskAfter J.contents.registry reader.new.seen firing.now self.new) }
        ensures seen { OnOk result (IsPrefix reader.old.seen reader.new.seen) }
        ensures told { OnOk result (IsPrefix reader.old.told reader.new.seen) }
        ensures all { OnOk result (reader.new.told ≡ reader.new.seen) }
        ensures refused { OnErr result (reader.new ≡ reader.old) }
        ensures nobody { OnErr result ((seat : ℕ) → life_at self.new seat ≡ None) }
    {
        if self.serves(reader, firing, changes) {
            return Ok(());
        }
        self.look_anew(reader, machine, firing, changes)
    }

    /// The same, where the processor looks.
    fn look_anew(
        &mut self,
        reader: &mut ChainReader<J>,
        machine: &Machine,
        firing: &Firing,
        changes: u64,
    ) -> Result<(), LookRefused>
        requires machine { machine.now ≡ J.contents }
        ensures mask { OnOk result (IsMaskAfter J.contents.registry reader.new.seen firing.now self.new) }
        ensures seen { OnOk result (IsPrefix reader.old.seen reader.new.seen) }
        ensures told { OnOk result (IsPrefix reader.old.told reader.new.seen) }
        ensures all { OnOk result (reader.new.told ≡ reader.new.seen) }
        ensures refused { OnErr result (reader.new ≡ reader.old) }
        ensures nobody { OnErr result ((seat : ℕ) → life_at self.new seat ≡ None) }
    {
        self.last = None;
        let _found = reader.look_into(machine, firing, &mut self.mask)?;
        self.last = Some(LastLook {
            front: reader.seen(),
            kind: FiringKind::of(firing),
            changes,
        });
        Ok(())
    }
}
