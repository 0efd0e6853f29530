//! One of the two copies of what is published, with the writes that are in it.
ghost use Rattle.std.specs.Prelude.{◌≡◌, ℕ, [], None, IfNone, IfOk, IfSome};
ghost use Rattle.dt_chain.specs.Chains.{IsMaskAfter, added_to};
ghost use Rattle.dt_chain.specs.Seats.{life_at};
ghost use Rattle.dt_machine.specs.Context.{IsContext};

use crate::book::Mark;
use crate::entries::Entries;
use crate::history::History;
use crate::seat_mask::SeatMask;
use crate::write::Write;
use dt_machine::{Context, Firing, Machine};
use left_right::Absorb;
use std::alloc::{AllocError, Global};
use std::marker::Model;

/// One of the copies. Contracts see the writes that are in it, and a beginning of the list of all writes: that these are the
/// same is the rule of the chains. It has its room from the beginning, so no write is refused.
#[derive(Drop)]
pub(crate) struct ChainCopy {
    entries: Entries,
    writes: History,
    mark: Mark,
}

impl Model for ChainCopy {
    ghost use Rattle.std.specs.Prelude.{reverse};
    ghost use Rattle.dt_chain.specs.Copies.{Copied};

    ghost Value = { Copied };

    ghost use Rattle.dt_chain.specs.IsAt.{EntriesAreAt, HasListRoom};

    ghost view = { λ it. record { mark = it.mark; writes = it.writes } };

    ghost invariant = { λ it. EntriesAreAt (reverse it.writes) it.entries × HasListRoom it.entries };
}

/// A write, with the list of all writes up to it.
#[derive(Drop)]
pub(crate) struct Addition {
    pub(crate) write: Write,
    pub(crate) after: Mark,
}

impl Absorb<Addition> for ChainCopy {
    type State = ChainCopy;

    ghost use Rattle.dt_chain.specs.Chains.{added_to};

    ghost state = { λ copy. copy };

    ghost applied = { added_to };

    ghost never_fails = { Unit {0} };

    fn absorb_first(&mut self, addition: &Addition, _other: &ChainCopy) -> Result<(), AllocError> {
        self.entries.apply(&addition.write)?;
        self.writes = self.writes.with(&addition.write);
        self.mark = addition.after.again();
        Ok(())
    }
}

impl ChainCopy {
    /// A copy with no writes, with its room (264 KB).
    ///
    /// `Err`: there was no memory.
    pub(crate) fn new(alloc: Global, mark: Mark) -> Result<ChainCopy, AllocError>
        ensures mark { IfOk result (λ it. it.mark ≡ mark) }
        ensures writes { IfOk result (λ it. it.writes ≡ []) }
    {
        let mut entries = Entries::new(alloc);
        entries.reserve()?;
        Ok(ChainCopy {
            entries,
            writes: History::new(),
            mark,
        })
    }

    /// The beginning of the list of all writes.
    pub(crate) fn mark(&self) -> Mark
        ensures { result ≡ self.now.mark }
    {
        self.mark.again()
    }

    /// A look, as [`Entries::look_into`].
    pub(crate) fn look_into<'a>(
        &self,
        machine: &'a Machine,
        firing: &'a Firing,
        mask: &mut SeatMask,
    ) -> Option<Context<'a>>
        ensures look { IsMaskAfter machine.now.registry self.now.writes firing.now mask.new }
        ensures context { IfSome result (λ context.
            IsContext machine.now.registry context × (context.firing.now ≡ firing.now)) }
        ensures none { IfNone result ((seat : ℕ) → life_at mask.new seat ≡ None) }
    {
        self.entries.look_into(machine, firing, mask)
    }
}
