//! What a processor looked for.
ghost use Rattle.std.specs.Prelude.{◌≡◌, ◌==◌, ℕ, Some, None, IfSome, IfNone, IfOk, true, false, if◌then◌else◌, slice_get, vec_len};

use dt_chain::{Entries, Seat, SeatMask, SeatSet};
use dt_machine::{Context, Firing, Machine};
use std::alloc::{AllocError, Global};

/// A place in a processor's script, from 0 on.
#[derive(Clone, Copy)]
pub struct ScriptPlace {
    pub cpu: u32,
    pub place: u32,
}

/// The firing that a processor looked for last, with what that names, and the seats that it is still to be offered to. The
/// firing is lent by who looked, and is not copied; the mask is of 2 KB and lies where it is: a look fills it in place.
#[derive(Drop)]
pub(crate) struct DueOffers<'m> {
    /// `None`: the look named no seat. Where no seat is left, it means nothing.
    pub(crate) context: Option<Context<'m>>,
    pub(crate) left: SeatMask,
}

impl<'m> DueOffers<'m> {
    ghost use Rattle.std.specs.Prelude.{List, is_some, option_map};
    ghost use Rattle.dt_chain.specs.IsAt.{EntriesAreAt};
    ghost use Rattle.dt_chain.specs.Look.{IsLook};
    ghost use Rattle.dt_chain.specs.Seats.{has, life_at};
    ghost use Rattle.dt_chain.specs.Writes.{Write};
    ghost use Rattle.dt_machine.specs.Context.{IsContext};
    ghost use Rattle.dt_steps.specs.Stands.{due_of};

    /// A processor that looked for nothing yet.
    fn idle() -> DueOffers<'m>
        ensures { None ≡ result.context }
    {
        DueOffers {
            context: None,
            left: SeatMask::new(),
        }
    }

    /// Looks whom a firing is to be offered to, and answers which seats that are. Offers that were left before are
    /// forgotten.
    pub(crate) fn look(
        &mut self,
        publications: &Entries,
        machine: &'m Machine,
        firing: &'m Firing,
    ) -> SeatSet
        ensures look { (writes : List Write) → EntriesAreAt writes publications.now
            → IsLook machine.now.registry writes firing.now (life_at self.new.left) }
        ensures owes { (seat : ℕ) → due_of self.new seat
            ≡ option_map (λ life. record { life = life; firing = firing.now }) (life_at self.new.left seat) }
        ensures named { (seat : ℕ) → has result seat ≡ is_some (due_of self.new seat) }
        ensures context { IfSome self.new.context (IsContext machine.now.registry) }
    {
        // where no seat is named, most often since none is interested in the probe, there is no context
        self.context = publications.look_into(machine, firing, &mut self.left);
        self.left.seats()
    }

    /// Whether no offer is left.
    pub(crate) fn is_done(&self) -> bool
        ensures done { result ≡ true → (seat : ℕ) → due_of self.now seat ≡ None }
        ensures busy { result ≡ false → ((seat : ℕ) → due_of self.now seat ≡ None) → ⊥ }
    {
        self.context.is_none() || self.left.is_empty()
    }

    /// The offers that are left, each with the life that was named. It is a copy, of 2 KB.
    pub(crate) fn mask(&self) -> SeatMask
        ensures { (seat : ℕ) → life_at result seat ≡ option_map (λ due. due.life) (due_of self.now seat) }
    {
        match self.context {
            Some(_) => self.left,
            None => SeatMask::new(),
        }
    }

    /// Takes out the offer to a seat, if it is left, and answers the life that was named with the firing.
    pub(crate) fn take(&mut self, seat: Seat) -> Option<(u64, Context<'m>)>
        ensures offer { IfSome result (λ due.
            due_of self.old seat ≡ Some (record { life = due.0; firing = due.1.firing.now })) }
        ensures lent { IfSome result (λ due. self.old.context ≡ Some due.1) }
        ensures taken { IfSome result (λ _. (other : ℕ)
            → due_of self.new other ≡ (if other == seat then None else due_of self.old other)) }
        ensures context { self.new.context ≡ self.old.context }
        ensures none { IfNone result (due_of self.old seat ≡ None) }
        ensures same { IfNone result (self.new ≡ self.old) }
    {
        let context = self.context?;
        let life = self.left.life_of(seat)?;
        self.left.remove(seat);
        Some((life, context))
    }
}

/// Processors that looked for nothing yet.
pub(crate) fn idle_processors<'m>(
    alloc: Global,
    cpus: u32,
) -> Result<Vec<DueOffers<'m>>, AllocError>
    ensures all { IfOk result (λ processors. vec_len processors ≡ cpus) }
    ensures idle { IfOk result (λ processors. (cpu : ℕ)
        → IfSome (slice_get processors.items cpu) (λ looked. None ≡ looked.context)) }
{
    let mut processors = Vec::with_capacity(alloc, cpus as usize)?;
    for _cpu in 0..cpus {
        processors.push(DueOffers::idle())?;
    }
    Ok(processors)
}
