//! How a seat is made.
ghost use Rattle.std.specs.Prelude.{◌≡◌, ◌+◌, ◌*◌, ℕ, [], None, IfOk, IfSome, OnOk, slice_get, vec_len};
ghost use Rattle.dt_facts.specs.Facts.{life_fact, writes_fact};
ghost use Rattle.dt_facts.specs.Handles.{holding, making};
ghost use Rattle.dt_seat.specs.Keeps.{IsLeft, followed_at};
ghost use Rattle.dt_seat.specs.Knowledge.{known_items};
ghost use Rattle.dt_seat.specs.Names.{book_name, first_name, known_name, life_name, processor_name};

use crate::follower::Follower;
use crate::idle::Idle;
use crate::keep::Keep;
use crate::knowledge::Knowledge;
use crate::locked::LockedSeat;
use crate::site::HubSite;
use dt_chain::Seat;
use dt_facts::{Book, Facts, Maker, Share};
use dt_machine::Machine;
use std::alloc::{AllocError, Global};
use std::marker::Brand;

/// The book and the share of the lives of a seat that had none.
fn no_lives(facts: &Facts, maker: &mut Maker) -> (Book, Share)
    requires { maker.old.word ≡ facts.now }
    ensures book { result.0 ≡ holding facts.now maker.old.name (life_fact []) }
    ensures share { result.1 ≡ result.0 }
    ensures maker { maker.new ≡ making facts.now (maker.old.name + 1) }
{
    let mut both = facts.make(maker);
    facts.go_on::<Brand, ()>(&mut both, &());
    facts.cut(both)
}

/// What a seat keeps for a processor that took nothing there, and what the processor has there.
fn first_keep<J: HubSite>(
    facts: &Facts,
    maker: &mut Maker,
    number: Seat,
    cpu: u32,
    lives: &mut Book,
    known: &mut Knowledge,
) -> (Keep<J>, Follower<J>)
    requires facts { facts.now ≡ J.word }
    requires lives { lives.old ≡ holding J.word (life_name J.contents.registry.cpus number) (life_fact []) }
    requires known { known.old ≡ known_items J.word (known_name J.contents.registry.cpus number) [] }
    requires maker { maker.old ≡ making J.word (processor_name J.contents.registry.cpus number cpu) }
    ensures keep { IsLeft J.word J.contents.registry.cpus number cpu 0 result.0 }
    ensures same { (lives.new ≡ lives.old) × (known.new ≡ known.old) }
    ensures follower { result.1 ≡ followed_at number cpu }
    ensures maker { maker.new ≡ making J.word (processor_name J.contents.registry.cpus number cpu + 1) }
{
    let mut both = facts.make(maker);
    facts.go_on::<Brand, ()>(&mut both, &());
    let (book, share) = facts.cut(both);
    let follower = Follower::new(number, cpu, share, facts.begin(lives), known.begin(facts));
    (Keep::new(book), follower)
}

impl<J: HubSite> LockedSeat<J> {
    /// A seat on which no session was open yet, and what each processor has there. `writes` is the share of what the seat wrote: nothing.
    ///
    /// `Err`: there was no memory.
    pub fn new(
        alloc: Global,
        machine: &Machine,
        facts: &Facts,
        maker: &mut Maker,
        writes: Share,
        number: Seat,
    ) -> Result<(LockedSeat<J>, Vec<Follower<J>>), AllocError>
        requires machine { machine.now ≡ J.contents }
        requires facts { facts.now ≡ J.word }
        requires maker { maker.old ≡ making J.word (first_name J.contents.registry.cpus number) }
        requires writes { writes ≡ holding J.word (book_name number) (writes_fact []) }
        ensures seat { IfOk result (λ t. (t.0.number ≡ number) × (t.0.life ≡ 0) × (t.0.trail ≡ None)
            × (t.0.writes ≡ [])) }
        ensures many { IfOk result (λ t. vec_len t.1 ≡ J.contents.registry.cpus) }
        ensures followers { IfOk result (λ t. (cpu : ℕ) → IfSome (slice_get t.1.items cpu) (λ f. f ≡ followed_at number cpu)) }
        ensures maker { OnOk result (maker.new ≡ making J.word (first_name J.contents.registry.cpus (number + 1))) }
    {
        let cpus = machine.cpus();
        let (mut lives, share) = no_lives(facts, maker);
        let mut known = Knowledge::new(facts, maker);
        let mut keeps = Vec::with_capacity(alloc, cpus as usize)?;
        let mut followers = Vec::with_capacity(alloc, cpus as usize)?;
        'processors: for cpu in 0..cpus {
            let (keep, follower) = first_keep::<J>(
                facts, maker, number, cpu, &mut lives, &mut known,
            );
            keeps.push(keep)?;
            followers.push(follower)?;
        }
        let seat = LockedSeat {
            number,
            life: 0,
            present: None,
            lives,
            free: Some(Idle { share, known }),
            keeps,
            writes,
        };
        Ok((seat, followers))
    }
}
