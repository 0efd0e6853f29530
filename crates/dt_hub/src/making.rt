//! How a hub is made, and ended.
ghost use Rattle.std.specs.Prelude.{◌≡◌, ◌+◌, ℕ, [], IfOk, IfSome, OnOk, slice_get, vec_len};
ghost use Rattle.dt_chain.specs.Limits.{seat_count};
ghost use Rattle.dt_facts.specs.Handles.{making};
ghost use Rattle.dt_hub.specs.Hubs.{AreDealt, IsFresh};
ghost use Rattle.dt_seat.specs.Keeps.{followed_at};
ghost use Rattle.dt_publisher.specs.Publishers.{AreOwnWrites};
ghost use Rattle.dt_seat.specs.Names.{first_book, first_name};

use crate::cpu_seat::CpuSeat;
use crate::hub::{Hub, HubParts, LockedSeats};
use crossbeam_utils::CachePadded;
use dt_chain::{SEATS, Seat};
use dt_facts::{Facts, Maker, Share};
use dt_machine::Machine;
use dt_seat::{Follower, HubPublisher, HubSite, LockedSeat};
use std::alloc::{AllocError, Global};
use std::mem;
use std::sync::atomic::AtomicU64;
use std::sync::{Mutex, Wait};

/// For each processor no followers yet, with room for one at each seat.
fn empty_hands<J: HubSite>(alloc: Global, cpus: u32) -> Result<Vec<Vec<Follower<J>>>, AllocError>
    ensures { IfOk result (λ hands. AreDealt cpus 0 hands.items) }
{
    let mut hands = Vec::with_capacity(alloc, cpus as usize)?;
    'hands: while hands.len() < cpus as usize {
        hands.push(Vec::with_capacity(alloc, SEATS)?)?;
    }
    Ok(hands)
}

/// Gives each processor what it has at one seat more. `seat` is for the contract: which seat that is.
///
/// `Err`: there was no memory.
fn deal<J: HubSite>(
    hands: &mut Vec<Vec<Follower<J>>>,
    seat: Seat,
    followers: Vec<Follower<J>>,
) -> Result<(), AllocError>
    requires hands { AreDealt (vec_len followers) seat hands.old.items }
    requires followers { (cpu : ℕ) → IfSome (slice_get followers.items cpu) (λ f. f ≡ followed_at seat cpu) }
    ensures { OnOk result (AreDealt (vec_len followers) (seat + 1) hands.new.items) }
{
    let mut followers = followers;
    'processors: while let Some(follower) = followers.pop() {
        let cpu = followers.len();
        hands[cpu].push(follower)?;
    }
    Ok(())
}

/// All seats, under their locks, and for each processor what it has at them.
///
/// `Err`: there was no memory.
fn seats<J: HubSite>(
    alloc: Global,
    machine: &Machine,
    facts: &Facts,
    maker: &mut Maker,
    shares: Vec<Share>,
) -> Result<(LockedSeats<J>, Vec<Vec<Follower<J>>>), AllocError>
    requires machine { machine.now ≡ J.contents }
    requires facts { facts.now ≡ J.word }
    requires maker { maker.old ≡ making J.word (first_name J.contents.registry.cpus 0) }
    requires shares { AreOwnWrites J.word first_book [] shares.items }
    ensures many { IfOk result (λ t. vec_len t.0 ≡ seat_count) }
    ensures dealt { IfOk result (λ t. AreDealt J.contents.registry.cpus seat_count t.1.items) }
    ensures maker { OnOk result (maker.new ≡ making J.word (first_name J.contents.registry.cpus seat_count)) }
{
    let mut hands = empty_hands(alloc, machine.cpus())?;
    let mut seats = Vec::with_capacity(alloc, SEATS)?;
    let mut shares = shares;
    'seats: for number in 0..SEATS as u32 {
        let Some(seat) = Seat::new(number) else {
            unreachable!()
        };
        let writes = shares.remove(0);
        let (locked, followers) = LockedSeat::new(alloc, machine, facts, maker, writes, seat)?;
        deal(&mut hands, seat, followers)?;
        seats.push(CachePadded::new(Mutex::new(locked)))?;
    }
    Ok((seats, hands))
}

/// The tokens of all processors.
///
/// `Err`: there was no memory, or the chains gave no reader.
fn tokens<J: HubSite>(
    alloc: Global,
    machine: &Machine,
    facts: &Facts,
    maker: &mut Maker,
    publisher: &HubPublisher<J>,
    hands: Vec<Vec<Follower<J>>>,
) -> Result<Vec<CpuSeat<J>>, AllocError>
    requires machine { machine.now ≡ J.contents }
    requires facts { facts.now ≡ J.word }
    requires maker { maker.old ≡ making J.word (first_name J.contents.registry.cpus seat_count) }
    requires dealt { AreDealt J.contents.registry.cpus seat_count hands.items }
    ensures many { IfOk result (λ tokens. vec_len tokens ≡ J.contents.registry.cpus) }
    ensures each { IfOk result (λ tokens. (cpu : ℕ) → IfSome (slice_get tokens.items cpu) (IsFresh cpu)) }
{
    let mut hands = hands;
    let mut made = Vec::with_capacity(alloc, hands.len())?;
    'processors: for cpu in 0..machine.cpus() {
        let followers = mem::replace(&mut hands[cpu as usize], Vec::new(alloc));
        let reader = publisher.reader()?;
        let log = facts.make(maker);
        made.push(CpuSeat::new(alloc, facts, cpu, reader, followers, log)?)?;
    }
    Ok(made)
}

/// All seats, under their locks, and the tokens of all processors.
///
/// `Err`: there was no memory, or the chains gave no reader.
fn all_seats<J: HubSite>(
    alloc: Global,
    machine: &Machine,
    facts: &Facts,
    maker: &mut Maker,
    publisher: &HubPublisher<J>,
    shares: Vec<Share>,
) -> Result<(LockedSeats<J>, Vec<CpuSeat<J>>), AllocError>
    requires machine { machine.now ≡ J.contents }
    requires facts { facts.now ≡ J.word }
    requires maker { maker.old ≡ making J.word (first_name J.contents.registry.cpus 0) }
    requires shares { AreOwnWrites J.word first_book [] shares.items }
    ensures seats { IfOk result (λ t. vec_len t.0 ≡ seat_count) }
    ensures many { IfOk result (λ t. vec_len t.1 ≡ J.contents.registry.cpus) }
    ensures each { IfOk result (λ t. (cpu : ℕ) → IfSome (slice_get t.1.items cpu) (IsFresh cpu)) }
{
    let (seats, hands) = seats::<J>(alloc, machine, facts, maker, shares)?;
    let tokens = tokens(alloc, machine, facts, maker, publisher, hands)?;
    Ok((seats, tokens))
}

impl<J: HubSite> Hub<J> {
    /// A hub with all seats free and nothing published, and the token of each processor, in order.
    ///
    /// It is called in a function that is generic in the site, which its caller picks, once for each hub: all that belongs to this hub has its site in its type, so that a token of
    /// another hub is refused.
    ///
    /// `Err`: there was no memory, or the chains gave no reader to a processor.
    pub fn new<R: Wait>(
        rt: &R,
        alloc: Global,
        parts: HubParts,
    ) -> Result<(Hub<J>, Vec<CpuSeat<J>>), AllocError>
        requires contents { parts.contents ≡ J.contents }
        requires chains { parts.book ≡ J.book }
        requires facts { parts.word ≡ J.word }
        ensures hub { IfOk result (λ t. t.0 ≡ J.contents) }
        ensures many { IfOk result (λ t. vec_len t.1 ≡ J.contents.registry.cpus) }
        ensures each { IfOk result (λ t. (cpu : ℕ) → IfSome (slice_get t.1.items cpu) (IsFresh cpu)) }
    {
        let HubParts {
            machine,
            chains,
            facts,
            mut maker,
        } = parts;
        let writer = chains.writer::<J>(alloc, machine.cpus() as usize)?;
        let (publisher, shares) = HubPublisher::new(rt, alloc, writer, &facts, &mut maker)?;
        match all_seats(alloc, &machine, &facts, &mut maker, &publisher, shares) {
            Ok((seats, tokens)) => {
                let hub = Hub {
                    machine,
                    facts,
                    chains: Mutex::new(publisher),
                    seats,
                    changes: CachePadded::new(AtomicU64::new(0)),
                };
                Ok((hub, tokens))
            }
            Err(fault) => {
                publisher.end(rt);
                Err(fault)
            }
        }
    }

    /// Ends the hub, and gives its memory back. It waits for the processors that are looking; later looks are refused.
    pub fn end<R: Wait>(self, rt: &R) {
        let Hub {
            machine,
            facts,
            chains,
            seats,
            changes,
        } = self;
        chains.into_inner().end(rt);
        drop(changes);
        drop(seats);
        drop(facts);
        drop(machine);
    }
}
