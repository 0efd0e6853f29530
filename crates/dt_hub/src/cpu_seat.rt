//! What a processor has.
ghost use Rattle.std.specs.Prelude.{◌≡◌, ◌<◌, ◌+◌, ◌++◌, ◌∷◌, [], ℕ, IfOk, IfSome, slice_get, vec_len};
ghost use Rattle.dt_chain.specs.Limits.{seat_count};
ghost use Rattle.dt_facts.specs.Facts.{log_fact, nothing};
ghost use Rattle.dt_facts.specs.Handles.{holding};
ghost use Rattle.dt_hub.specs.Names.{log_name};
ghost use Rattle.dt_hub.specs.Processors.{knew_at_seats, places_in};
ghost use Rattle.dt_seat.specs.Keeps.{followed_at};

use crate::missed_seats::MissedSeats;
use crate::naming::Naming;
use crate::offered::Offered;
use dt_chain::{ChainReader, Front, SEATS, Seat, SeatMask};
use dt_consumer::Scratch;
use dt_facts::{Both, Facts};
use dt_machine::{Firing, Machine};
use dt_seat::{Follower, Held, HubSite};
use std::alloc::{AllocError, Global};
use std::marker::{Brand, Model};

/// What a processor has: who has it fires for that processor. It may go to another thread.
///
/// Contracts see it as a `Processing` of `specs/Processors.antt`: the place of its script that it fires next; the writes that it saw and those that it was
/// told of; what it has at each seat; for each place that it fired, what it knew before; and what came of its last firing.
#[derive(Drop)]
pub struct CpuSeat<J: HubSite> {
    pub(crate) cpu: u32,
    pub(crate) place: u32,
    pub(crate) reader: ChainReader<J>,
    pub(crate) followers: Vec<Follower<J>>,
    pub(crate) log: Both,
    /// The seats that the last firing named.
    pub(crate) naming: Naming<J>,
    /// What it came to there. What lies at a seat that wasn't named means nothing.
    pub(crate) held: Vec<Held>,
    /// Which of them it missed at first, as others had their locks. After a firing that named none it means nothing.
    pub(crate) missed: MissedSeats,
    /// Where what clauses leave is made.
    pub(crate) scratch: Scratch,
    /// What was read ahead of the script, as one number. Nobody asks for it.
    pub(crate) ahead: u64,
}

impl<J: HubSite> Model for CpuSeat<J> {
    ghost use Rattle.dt_hub.specs.Processors.{IsProcessor, Processing, processing};

    ghost Value = { Processing };

    ghost view = { λ c. processing c.cpu c.place c.reader c.followers.items c.log c.naming c.held.items };

    ghost invariant = { λ c. IsProcessor J.word J.contents c.cpu c.place c.reader.told c.followers.items c.held.items c.log };
}

/// A log goes on by a place: what is known at each seat. The log is there in proofs alone, and so `followers` is for the contract.
pub(crate) fn note_down<J: HubSite>(facts: &Facts, log: &mut Both, followers: &Vec<Follower<J>>)
    requires facts { facts.now ≡ J.word }
    requires log { log.old ≡ holding J.word log.old.name (log_fact (places_in log.old.fact)) }
    ensures { log.new ≡ holding J.word log.old.name (log_fact (places_in log.old.fact ++ knew_at_seats followers.now.items ∷ [])) }
{
    facts.go_on::<Brand, Vec<Follower<J>>>(log, followers);
}

/// A firing is read so many firings before it is made.
const AHEAD: u32 = 2;

/// Reads four numbers of the firing that a processor makes [`AHEAD`] firings later ([`on_each_line`]), and answers what was read so far, as one number. Nothing is made of it: but a
/// script is read once, from one end to the other, and where each of its cache lines is read in order the machine brings the next by itself. An offer reads only some of a firing's
/// cache lines, and would wait for each.
#[inline(always)]
pub(crate) fn read_ahead(machine: &Machine, cpu: u32, place: u32, before: u64) -> u64 {
    match machine.firing(cpu, place.saturating_add(AHEAD)) {
        Some(later) => before ^ on_each_line(later),
        None => before,
    }
}

/// Four numbers of a firing, each 64 bytes after the one before, as one number. With those of the firing before they lie on each line of 64 bytes.
#[inline(always)]
fn on_each_line(firing: &Firing) -> u64 {
    let arguments = firing.args[0].cast_unsigned() ^ firing.args[8].cast_unsigned();
    arguments ^ firing.kstack[6] ^ firing.ustack[6]
}

impl<J: HubSite> CpuSeat<J> {
    ghost use Rattle.dt_hub.specs.Processors.{offered_at};
    ghost use Rattle.dt_hub.specs.Hubs.{IsFresh};

    /// A processor that fired nothing and knows nothing.
    ///
    /// `Err`: there was no memory.
    pub(crate) fn new(
        alloc: Global,
        facts: &Facts,
        cpu: u32,
        reader: ChainReader<J>,
        followers: Vec<Follower<J>>,
        log: Both,
    ) -> Result<CpuSeat<J>, AllocError>
        requires facts { facts.now ≡ J.word }
        requires there { cpu < J.contents.registry.cpus }
        requires reader { (reader.seen ≡ []) × (reader.told ≡ []) }
        requires many { vec_len followers ≡ seat_count }
        requires followers { (seat : ℕ) → IfSome (slice_get followers.items seat) (λ f. f ≡ followed_at seat cpu) }
        requires log { log ≡ holding J.word (log_name J.contents.registry.cpus cpu) nothing }
        ensures { IfOk result (IsFresh cpu) }
    {
        let mut log = log;
        facts.go_on::<Brand, ()>(&mut log, &());
        let held = vec![in alloc; Held::Gone; SEATS]?;
        Ok(CpuSeat {
            cpu,
            place: 0,
            reader,
            followers,
            log,
            naming: Naming::new(),
            held,
            missed: MissedSeats::new(),
            scratch: Scratch::new(),
            ahead: 0,
        })
    }

    /// Which processor it is.
    pub fn cpu(&self) -> u32
        ensures { result ≡ self.now.cpu }
    {
        self.cpu
    }

    /// The writes of the chains that the processor has seen, as a token: its last look found just what these name. Fronts of one hub are beginnings of
    /// one list, so of two of them, of whichever processors, one begins the other (`Front::begins`).
    pub fn writes(&self) -> Front<J>
        ensures { result ≡ self.now.seen }
    {
        self.reader.seen()
    }

    /// The seats that the last firing named, each with the life that was named.
    pub fn named(&self) -> &SeatMask
        ensures { result.now ≡ self.now.mask }
    {
        self.naming.mask()
    }

    /// What the last firing came to at a seat. Before the first, and after a refused one, no seat was named.
    pub fn offered(&self, seat: Seat) -> Offered
        ensures { result ≡ offered_at self.now seat }
    {
        if self.naming.mask().life_of(seat).is_none() {
            return Offered::NotNamed;
        }
        Offered::of(self.held[seat.number() as usize])
    }
}
