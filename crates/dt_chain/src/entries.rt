//! The publications of all seats.
ghost use Rattle.std.specs.Prelude.{◌≡◌, ◌≢◌, ◌<◌, ◌/◌, ◌%◌, ℕ, List, [], ◌∷◌, None, IfNone, IfSome, IsOk, IsSome, IsTrue, IsNone, OnOk, OnErr, slice_index_or, if◌then◌else◌};
ghost use Rattle.dt_chain.specs.declared.seat_set.TheConstants.{SEAT_WORDS};
ghost use Rattle.dt_machine.specs.declared.bit_word.TheConstants.{WORD_BITS};

use crate::lists::Lists;
use crate::seat::{SEATS, Seat};
use crate::seat_mask::SeatMask;
use crate::seat_set::{SEAT_WORDS, SeatSet};
use crate::write::{StoredWrite, Write};
use dt_cred::Account;
use dt_machine::{BitWord, Context, Firing, Interest, Machine};
use std::alloc::{AllocError, Global};

/// The publications of all seats: for each its last, if it didn't withdraw that since.
///
/// Contracts speak of the list of all writes, the newest first: `EntriesAreAt writes entries`.
#[derive(Drop)]
pub struct Entries {
    pub(crate) slots: [Option<SeatSlot>; SEATS],
    pub(crate) lists: Lists,
}

/// What is kept of a seat's publication beside the lists.
#[derive(Clone, Copy)]
pub(crate) struct SeatSlot {
    pub(crate) life: u64,
    pub(crate) account: Account,
}

impl SeatSlot {
    ghost use Rattle.dt_machine.specs.Context.{IsContext};
    ghost use Rattle.dt_machine.specs.Registry.{Registry};
    ghost use Rattle.dt_machine.specs.Tests.{is_shown};

    /// Whether its account is shown a firing.
    #[tactic(auto, using(crate::proofs::Showing::kernel_shown))]
    fn is_shown(&self, context: &Context) -> bool
        ensures { (registry : Registry) → IsContext registry context.now
            → result ≡ is_shown self.now.account registry context.now.firing.now }
    {
        // whoever holds dtrace_kernel is shown every firing, whatever its probe
        self.account.privs.dtrace_kernel || context.is_shown(&self.account)
    }
}

impl Entries {
    ghost use Rattle.dt_chain.specs.Writes.{Write, published, withdrawn, published_by};
    ghost use Rattle.dt_chain.specs.Look.{IsLook};
    ghost use Rattle.dt_chain.specs.Seats.{has, life_at};
    ghost use Rattle.dt_chain.specs.Kept.{life_shown};
    ghost use Rattle.dt_machine.specs.BitWord.{has_bit};
    ghost use Rattle.dt_machine.specs.Interest.{flags_of};
    ghost use Rattle.dt_machine.specs.Context.{IsContext};
    ghost use Rattle.dt_machine.specs.Registry.{Registry};
    ghost use Rattle.dt_chain.specs.IsAt.{EntriesAreAt, HasListRoom};

    /// No publication. It takes no memory yet.
    pub fn new(alloc: Global) -> Entries
        ensures { EntriesAreAt [] result }
    {
        Entries {
            slots: [None; SEATS],
            lists: Lists::new(alloc),
        }
    }

    /// Takes the room for all that may be published (264 KB), if it isn't taken yet: no publication needs memory
    /// then.
    ///
    /// `Err`: there was no memory. What is published is as it was, in both cases.
    pub fn reserve(&mut self) -> Result<(), AllocError>
        ensures room { OnOk result (HasListRoom self.new) }
        ensures succeeds { HasListRoom self.old → IsOk result }
        ensures same { (writes : List Write) → EntriesAreAt writes self.old → EntriesAreAt writes self.new }
    {
        self.lists.reserve()
    }

    /// A seat publishes for one of its lives, in place of the publication that it may have. It takes the room for
    /// all that may be published, if that isn't taken yet.
    ///
    /// `Err`: there was no memory, and what is published is as it was.
    pub fn publish(
        &mut self,
        seat: Seat,
        life: u64,
        account: &Account,
        interest: &Interest,
    ) -> Result<(), AllocError>
        ensures ok { OnOk result ((writes : List Write) → EntriesAreAt writes self.old
            → EntriesAreAt (published seat life account.now (flags_of interest.now) ∷ writes) self.new) }
        ensures err { OnErr result ((writes : List Write) → EntriesAreAt writes self.old → EntriesAreAt writes self.new) }
        ensures room { OnOk result (HasListRoom self.new) }
        ensures succeeds { HasListRoom self.old → IsOk result }
    {
        // only this can fail, so nothing has changed when it does
        self.lists.reserve()?;
        self.lists.set(seat, interest);
        self.slots[seat.number() as usize] = Some(SeatSlot {
            life,
            account: *account,
        });
        Ok(())
    }

    /// A seat withdraws its publication, if it has one. It takes no memory.
    pub fn withdraw(&mut self, seat: Seat)
        ensures stands { (writes : List Write) → EntriesAreAt writes self.old → EntriesAreAt (withdrawn seat ∷ writes) self.new }
        ensures room { HasListRoom self.old → HasListRoom self.new }
    {
        self.lists.clear(seat);
        self.slots[seat.number() as usize] = None;
    }

    /// Does what a write says. A publication takes the room for all that may be published, if that isn't taken yet; a
    /// withdrawal takes no memory.
    ///
    /// `Err`: there was no memory, and what is published is as it was.
    pub fn apply(&mut self, write: &Write) -> Result<(), AllocError>
        ensures ok { OnOk result ((writes : List Write) → EntriesAreAt writes self.old
            → EntriesAreAt (write.now ∷ writes) self.new) }
        ensures err { OnErr result ((writes : List Write) → EntriesAreAt writes self.old
            → EntriesAreAt writes self.new) }
        ensures room { OnOk result (IsSome (published_by write.now) → HasListRoom self.new) }
        ensures room_stays { HasListRoom self.old → HasListRoom self.new }
        ensures succeeds { HasListRoom self.old → IsOk result }
        ensures withdraws { IsNone (published_by write.now) → IsOk result }
    {
        match &write.stored {
            StoredWrite::Publication(it) => self.publish(
                it.seat,
                it.life,
                &it.account,
                &it.interest,
            ),
            StoredWrite::Withdrawal(seat) => {
                self.withdraw(*seat);
                Ok(())
            }
        }
    }

    /// The seats whose publications name a firing, each with the life of its publication: the firing belongs to the machine,
    /// its probe is one of the publication's, and the publication's account is shown the firing. It takes no memory.
    pub fn look(&self, machine: &Machine, firing: &Firing) -> SeatMask
        ensures { (writes : List Write) → EntriesAreAt writes self.now
            → IsLook machine.now.registry writes firing.now (life_at result) }
    {
        let mut mask = SeatMask::new();
        let _context = self.look_into(machine, firing, &mut mask);
        mask
    }

    /// A look ([`Entries::look`]) into a mask that is lent: what that named before is forgotten. It touches the lives of the
    /// seats that are named and of no others, and takes no memory.
    ///
    /// Where a seat is named, the firing is answered with the probe and the process that it names: they were looked up for the
    /// look, and serve the offers too.
    pub fn look_into<'a>(
        &self,
        machine: &'a Machine,
        firing: &'a Firing,
        mask: &mut SeatMask,
    ) -> Option<Context<'a>>
        ensures look { (writes : List Write) → EntriesAreAt writes self.now
            → IsLook machine.now.registry writes firing.now (life_at mask.new) }
        ensures context { IfSome result (λ context.
            IsContext machine.now.registry context × (context.firing.now ≡ firing.now)) }
        ensures none { IfNone result ((seat : ℕ) → life_at mask.new seat ≡ None) }
    {
        mask.clear();
        // most firings are of probes that no seat is interested in: they leave here, before anything is looked up
        let seats = self.lists.of(firing.probe);
        if seats.is_empty() {
            return None;
        }
        let context = machine.context(firing)?;
        self.show_all(seats, &context, mask);
        Some(context)
    }

    /// Names those of some seats whose accounts are shown a firing.
    fn show_all(&self, seats: SeatSet, context: &Context, mask: &mut SeatMask)
        requires { (seat : ℕ) → life_at mask.old seat ≡ None }
        ensures { (registry : Registry) → IsContext registry context.now → (seat : ℕ) → life_at mask.new seat
            ≡ (if has seats seat then life_shown registry context.now.firing.now
            (slice_index_or self.now.slots seat None) else None) }
    {
        for word in 0..SEAT_WORDS {
            self.show(word, seats.words[word], context, mask);
        }
    }

    /// Names those of some seats of a word whose accounts are shown a firing, and no others of that word.
    fn show(&self, word: usize, seats: BitWord, context: &Context, mask: &mut SeatMask)
        requires { word < SEAT_WORDS }
        ensures named { (registry : Registry) → IsContext registry context.now
            → (seat : ℕ) → seat / WORD_BITS ≡ word → life_at mask.new seat
            ≡ (if has_bit seats (seat % WORD_BITS) then life_shown registry context.now.firing.now
            (slice_index_or self.now.slots seat None) else None) }
        ensures others { (seat : ℕ) → seat / WORD_BITS ≢ word → life_at mask.new seat ≡ life_at mask.old seat }
    {
        let mut left = seats;
        let mut named = BitWord::new();
        while let Some(place) = left.pop_first() {
            let number = Seat::at(word, place).number() as usize;
            if let Some(slot) = &self.slots[number] {
                if slot.is_shown(context) {
                    named.insert(place);
                    mask.lives[number] = slot.life;
                }
            }
        }
        mask.seats.words[word] = named;
    }
}
