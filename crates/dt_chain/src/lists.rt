//! For each probe the seats that are interested in it.
ghost use Rattle.std.specs.Prelude.{◌≡◌, ◌≢◌, ◌<◌, ◌≤◌, ℕ, false, IsOk, IsTrue, OnOk, length, vec_len, if◌then◌else◌};
ghost use Rattle.dt_chain.specs.Listed.{is_listed_for, is_interested};
ghost use Rattle.dt_chain.specs.declared.lists.TheConstants.{LISTS};
ghost use Rattle.dt_chain.specs.declared.seat.TheConstants.{SEATS};
ghost use Rattle.dt_machine.specs.BitWord.{is_in_word};
ghost use Rattle.dt_machine.specs.declared.interest.TheConstants.{INTEREST_WORDS};
ghost use Rattle.dt_machine.specs.Interest.{has_probe};

use crate::seat::{SEATS, Seat};
use crate::seat_set::SeatSet;
use dt_machine::{BitWord, INTEREST_WORDS, Interest, PROBE_ID_MAX, WORD_BITS};
use std::alloc::{AllocError, Global};

/// A list for each identifier of a probe from 0 on.
pub(crate) const LISTS: usize = PROBE_ID_MAX as usize + 1;

/// For each probe the seats that are interested in it, and for each seat the probes in whose lists it stands, so that
/// only these are touched where its interest changes.
#[derive(Drop)]
pub(crate) struct Lists {
    pub(crate) by_probe: Vec<SeatSet>,
    pub(crate) by_seat: Vec<Interest>,
    ghost few: { vec_len by_probe ≤ LISTS },
    ghost seats: { vec_len by_seat ≤ SEATS },
    ghost agree: { (probe seat : ℕ) → is_listed_for by_probe.items probe seat ≡ is_interested by_seat.items seat probe },
}

impl Lists {
    ghost use Rattle.dt_chain.specs.Lists.{is_seat_listed, ListsHaveRoom, IsFull};
    ghost use Rattle.dt_chain.specs.Seats.{has};

    /// Nobody is interested in anything. It takes no memory yet.
    pub(crate) fn new(alloc: Global) -> Lists
        ensures { (probe seat : ℕ) → is_seat_listed result probe seat ≡ false }
    {
        Lists {
            by_probe: Vec::new(alloc),
            by_seat: Vec::new(alloc),
        }
    }

    /// Takes the room for whatever there may be (264 KB), if it isn't taken yet.
    ///
    /// `Err`: there was no memory. Who is listed is the same, in both cases.
    pub(crate) fn reserve(&mut self) -> Result<(), AllocError>
        ensures full { OnOk result (IsFull self.new) }
        ensures room { OnOk result (ListsHaveRoom self.new) }
        ensures succeeds { ListsHaveRoom self.old → IsOk result }
        ensures room_stays { ListsHaveRoom self.old → ListsHaveRoom self.new }
        ensures same { (probe seat : ℕ) → is_seat_listed self.new probe seat ≡ is_seat_listed self.old probe seat }
    {
        // what is there stays: only empty ones are added
        self.by_probe.resize(LISTS, SeatSet::new())?;
        self.by_seat.resize(SEATS, Interest::new())
    }

    /// Lists a seat for exactly the probes of an interest. The lists of the probes of its interest before and of this one are
    /// touched, and no others.
    pub(crate) fn set(&mut self, seat: Seat, interest: &Interest)
        requires { IsFull self.old }
        ensures own { (probe : ℕ) → is_seat_listed self.new probe seat ≡ has_probe interest.now probe }
        ensures others { (probe other : ℕ) → other ≢ seat
            → is_seat_listed self.new probe other ≡ is_seat_listed self.old probe other }
        ensures room_stays { ListsHaveRoom self.old → ListsHaveRoom self.new }
    {
        self.clear(seat);
        mark(self.by_probe.as_mut_slice(), seat, interest, true);
        self.by_seat[seat.number() as usize] = *interest;
    }

    /// Lists a seat for no probe. The lists in which it stood are touched, and no others.
    pub(crate) fn clear(&mut self, seat: Seat)
        ensures own { (probe : ℕ) → is_seat_listed self.new probe seat ≡ false }
        ensures others { (probe other : ℕ) → other ≢ seat
            → is_seat_listed self.new probe other ≡ is_seat_listed self.old probe other }
        ensures full_stays { IsFull self.old → IsFull self.new }
        ensures room_stays { ListsHaveRoom self.old → ListsHaveRoom self.new }
    {
        let at = seat.number() as usize;
        // before there is room for interests no seat is listed
        if at >= self.by_seat.len() {
            return;
        }
        let before = self.by_seat[at];
        mark(self.by_probe.as_mut_slice(), seat, &before, false);
        self.by_seat[at] = Interest::new();
    }

    /// The seats that are listed for a probe.
    pub(crate) fn of(&self, probe: u32) -> SeatSet
        ensures { (seat : ℕ) → has result seat ≡ is_seat_listed self.now probe seat }
    {
        match self.by_probe.get(probe as usize) {
            Some(seats) => *seats,
            // no list was made yet, or there is no such probe
            None => SeatSet::new(),
        }
    }
}

/// Puts a seat into the lists of the probes of an interest, or takes it out of these.
fn mark(lists: &mut [SeatSet], seat: Seat, interest: &Interest, is_in: bool)
    requires { (probe : ℕ) → IsTrue (has_probe interest.now probe) → probe < length lists.old }
    ensures own { (probe : ℕ) → is_listed_for lists.new probe seat
        ≡ (if has_probe interest.now probe then is_in else is_listed_for lists.old probe seat) }
    ensures others { (probe other : ℕ) → other ≢ seat
        → is_listed_for lists.new probe other ≡ is_listed_for lists.old probe other }
{
    for at in 0..INTEREST_WORDS {
        mark_word(lists, seat, at, interest.word(at), is_in);
    }
}

/// The same for the probes of a word of an interest.
fn mark_word(lists: &mut [SeatSet], seat: Seat, at: usize, word: BitWord, is_in: bool)
    requires near { at < INTEREST_WORDS }
    requires within { (probe : ℕ) → IsTrue (is_in_word at word probe) → probe < length lists.old }
    ensures own { (probe : ℕ) → is_listed_for lists.new probe seat
        ≡ (if is_in_word at word probe then is_in else is_listed_for lists.old probe seat) }
    ensures others { (probe other : ℕ) → other ≢ seat
        → is_listed_for lists.new probe other ≡ is_listed_for lists.old probe other }
{
    let mut left = word;
    while let Some(number) = left.pop_first() {
        lists[at * WORD_BITS as usize + number as usize].set(seat, is_in);
    }
}
