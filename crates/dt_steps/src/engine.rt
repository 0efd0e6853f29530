//! The seats with their consumers, what is published, and the offers that are left: each step in turn.
ghost use Rattle.std.specs.Prelude.{◌≡◌, vec_len};
ghost use Rattle.dt_chain.specs.declared.seat.TheConstants.{SEATS};

use crate::due::{DueOffers, ScriptPlace, idle_processors};
use crate::outcome::StepAnswer;
use crate::place::{Place, free_seats};
use crate::session::{Answered, Finished};
use crate::step::Step;
use dt_chain::{Entries, SEATS, Seat, SeatMask, SeatSet};
use dt_consumer::Scratch;
use dt_cred::Account;
use dt_machine::{Firing, Machine};
use dt_proto::WholeLine;
use std::alloc::{AllocError, Global};

/// All seats, what is published, and what each processor looked for.
#[derive(Drop)]
pub struct Engine<'m> {
    pub(crate) seats: Vec<Place>,
    pub(crate) publications: Entries,
    pub(crate) processors: Vec<DueOffers<'m>>,
    pub(crate) scratch: Scratch,
    ghost all: { vec_len seats ≡ SEATS },
}

impl<'m> Engine<'m> {
    ghost use Rattle.std.specs.Prelude.{ℕ, ◌+◌, ◌<◌, ◌^◌, ◌&&◌, Some, IsTrue, IfOk, IfSome, OnOk, is_some, option_map, nat_lt};
    ghost use Rattle.dt_machine.specs.Registry.{Registry};
    ghost use Rattle.dt_chain.specs.Seats.{life_at};
    ghost use Rattle.dt_life.specs.Life.{is_over};
    ghost use Rattle.dt_proto.specs.Asked.{form_lent, form_asked};
    ghost use Rattle.dt_steps.specs.Stands.{EngineIsAt, IsAnswered, IsNaming, first_account, place_of, seen_in};
    ghost use Rattle.dt_steps.specs.Steps as steps;
    ghost use Rattle.dt_steps.specs.Telling.{IsTelling};
    ghost use Rattle.dt_steps.specs.Steps.{form_of_step, after_step, opening, asking, publishing, finishing, withdrawing, looking, offering, closing};
    ghost use Rattle.dt_steps.specs.World.{World, Session, Pending, number_on, life_in, new_world, waits as waits_on, has_closed as has_closed_on};

    /// All seats are free, nothing is published, and no processor looked for anything.
    pub fn new(alloc: Global, machine: &Machine) -> Result<Engine<'m>, AllocError>
        ensures { IfOk result (EngineIsAt machine.now.registry new_world) }
    {
        Ok(Engine {
            seats: free_seats(alloc)?,
            publications: Entries::new(alloc),
            processors: idle_processors(alloc, machine.cpus())?,
            scratch: Scratch::new(),
        })
    }

    /// Opens a session on a free seat for the machine's account of this name, if that has a dtrace privilege.
    pub fn open(
        &mut self,
        alloc: Global,
        machine: &Machine,
        seat: Seat,
        name: &[u8],
    ) -> Result<(), AllocError>
        ensures { OnOk result ((world : World) → EngineIsAt machine.now.registry world self.old
            → EngineIsAt machine.now.registry (opening machine.now.registry world seat name.now) self.new) }
    {
        self.seats[seat.number() as usize].open(alloc, machine, name)
    }

    /// Asks a line of the session on a seat, and answers the reply's bytes.
    pub fn ask(
        &mut self,
        alloc: Global,
        machine: &Machine,
        seat: Seat,
        line: WholeLine<'_>,
    ) -> Result<Option<Answered>, AllocError>
        ensures at { OnOk result ((world : World) → EngineIsAt machine.now.registry world self.old
            → EngineIsAt machine.now.registry (asking machine.now.registry world seat (form_lent line.entry)) self.new) }
        ensures answer { IfOk result (λ reply. (world : World) → EngineIsAt machine.now.registry world self.old
            → IsAnswered machine.now.registry world (asking machine.now.registry world seat (form_lent line.entry)) seat
            (option_map (λ answered. answered.text.items) reply)) }
        ensures over { IfOk result (λ reply. IfSome reply (λ answered. (world : World) (session : Session)
            → EngineIsAt machine.now.registry world self.old → (world.places seat).present ≡ Some session
            → answered.is_over ≡ is_over (life_in machine.now.registry session))) }
    {
        self.seats[seat.number() as usize].ask(alloc, machine, line)
    }

    /// Publishes the interest of the session on a seat.
    pub fn publish(&mut self, seat: Seat) -> Result<(), AllocError>
        ensures { OnOk result ((registry : Registry) (world : World) → EngineIsAt registry world self.old
            → EngineIsAt registry (publishing registry world seat) self.new) }
    {
        self.seats[seat.number() as usize].publish(&mut self.publications, seat)
    }

    /// Lets the published `go` of the session on a seat take effect, and answers the reply's bytes.
    pub fn finish(&mut self, machine: &Machine, seat: Seat) -> Option<Finished>
        ensures at { (world : World) → EngineIsAt machine.now.registry world self.old
            → EngineIsAt machine.now.registry (finishing world seat) self.new }
        ensures answer { (world : World) → EngineIsAt machine.now.registry world self.old
            → IsAnswered machine.now.registry world (finishing world seat) seat (option_map (λ finished. finished.text.items) result) }
        ensures line { IfSome result (λ finished. (world : World) (session : Session) (pending : Pending)
            → EngineIsAt machine.now.registry world self.old → (world.places seat).present ≡ Some session
            → session.go ≡ Some pending → form_asked finished.line ≡ pending.line) }
    {
        self.seats[seat.number() as usize].finish(machine)
    }

    /// Withdraws the publication of a seat.
    pub fn withdraw(&mut self, seat: Seat)
        ensures { (registry : Registry) (world : World) → EngineIsAt registry world self.old
            → EngineIsAt registry (withdrawing registry world seat) self.new }
    {
        if self.seats[seat.number() as usize].may_withdraw() {
            self.publications.withdraw(seat);
        }
    }

    /// Looks whom a firing of a processor is to be offered to, and answers which seats that are. `None`: the look is not
    /// enabled, and nothing happened. The machine and the firing are lent until the next look.
    pub fn look(&mut self, machine: &'m Machine, cpu: u32, firing: &'m Firing) -> Option<SeatSet>
        ensures at { (world : World) → EngineIsAt machine.now.registry world self.old
            → EngineIsAt machine.now.registry (looking machine.now.registry world cpu firing.now) self.new }
        ensures answer { (world : World) → EngineIsAt machine.now.registry world self.old
            → IsNaming machine.now.registry world cpu firing.now result }
    {
        // a processor looks for its own firings alone: for another's the look isn't enabled
        if firing.cpu != cpu {
            return None;
        }
        // nor is it on a processor that isn't there, or while an offer of the last look is still due
        if !self.is_done(cpu) {
            return None;
        }
        Some(self.processors[cpu as usize].look(&self.publications, machine, firing))
    }

    /// Whether there is such a processor, and none of its offers is left.
    fn is_done(&self, cpu: u32) -> bool
        ensures there { IsTrue result → cpu < vec_len self.now.processors }
        ensures done { (registry : Registry) (world : World) → EngineIsAt registry world self.now
            → result ≡ (nat_lt cpu registry.cpus && steps.is_done (world.due cpu)) }
    {
        match self.processors.get(cpu as usize) {
            Some(due) => due.is_done(),
            None => false,
        }
    }

    /// The offers of a processor that are left, each with the life that was named. It is a copy, of 2 KB.
    fn left(&self, cpu: u32) -> SeatMask
        ensures { (registry : Registry) (world : World) → EngineIsAt registry world self.now
            → (seat : ℕ) → life_at result seat ≡ option_map (λ due. due.life) (world.due cpu seat) }
    {
        match self.processors.get(cpu as usize) {
            Some(due) => due.mask(),
            None => SeatMask::new(),
        }
    }

    /// Offers the firing that a processor looked for to a seat. Answers where the firing stands, where the session on the
    /// seat saw it.
    pub fn offer(&mut self, machine: &Machine, cpu: u32, seat: Seat) -> Option<ScriptPlace>
        ensures { (world : World) → EngineIsAt machine.now.registry world self.old
            → EngineIsAt machine.now.registry (offering world cpu seat) self.new
            × (result ≡ option_map place_of (seen_in machine.now.registry world cpu seat)) }
    {
        // on a processor that isn't there no offer is enabled
        if cpu as usize >= self.processors.len() {
            return None;
        }
        let due = &mut self.processors[cpu as usize];
        // nothing that it looked for is due to this seat
        let (life, context) = due.take(seat)?;
        let at = ScriptPlace {
            cpu: context.firing.cpu,
            place: context.firing.place,
        };
        let place = &mut self.seats[seat.number() as usize];
        // where the firing stands is told if the session saw it: a trail has seen firings alone
        let is_seen = place.deliver(machine, life, &context, &mut self.scratch);
        is_seen.then_some(at)
    }

    /// Ends the session on a seat.
    pub fn close(&mut self, seat: Seat)
        ensures { (registry : Registry) (world : World) → number_on world seat + 1 < 2 ^ 64
            → EngineIsAt registry world self.old → EngineIsAt registry (closing world seat) self.new }
    {
        self.seats[seat.number() as usize].close();
    }

    /// Whether a `go` of the session on a seat is pending.
    pub fn waits(&self, seat: Seat) -> bool
        ensures { (registry : Registry) (world : World) → EngineIsAt registry world self.now
            → result ≡ waits_on (world.places seat) }
    {
        match &self.seats[seat.number() as usize].present {
            Some(session) => session.go.is_some(),
            None => false,
        }
    }

    /// Whether a `close` of the session on a seat was accepted.
    pub fn has_closed(&self, seat: Seat) -> bool
        ensures { (registry : Registry) (world : World) → EngineIsAt registry world self.now
            → result ≡ has_closed_on registry (world.places seat) }
    {
        match &self.seats[seat.number() as usize].present {
            Some(session) => session.is_closed,
            None => false,
        }
    }

    /// Whether the session on a seat is there, and the first.
    pub fn is_first(&self, seat: Seat) -> bool
        ensures { (registry : Registry) (world : World) → EngineIsAt registry world self.now
            → result ≡ is_some (first_account (world.places seat)) }
    {
        self.seats[seat.number() as usize].is_first()
    }

    /// The account of the session on a seat, where that is the first session there.
    pub fn first(&self, seat: Seat) -> Option<Account>
        ensures { (registry : Registry) (world : World) → EngineIsAt registry world self.now
            → result ≡ first_account (world.places seat) }
    {
        self.seats[seat.number() as usize].first()
    }

    /// Takes a step, and tells what it answers.
    pub(crate) fn take(
        &mut self,
        alloc: Global,
        machine: &'m Machine,
        step: &'m Step,
    ) -> Result<StepAnswer, AllocError>
        ensures { IfOk result (λ outcome. (world : World) → ((seat : ℕ) → number_on world seat + 1 < 2 ^ 64)
            → EngineIsAt machine.now.registry world self.old
            → EngineIsAt machine.now.registry (after_step machine.now.registry world (form_of_step step.now)) self.new
            × IsTelling machine.now.registry world (after_step machine.now.registry world (form_of_step step.now)) outcome) }
    {
        match step {
            Step::Open(seat, name) => {
                self.open(alloc, machine, *seat, name)?;
                Ok(StepAnswer::Quiet)
            }
            Step::Ask(seat, line) => {
                let reply = self.ask(alloc, machine, *seat, line.lent())?;
                Ok(StepAnswer::replied(*seat, reply))
            }
            Step::Publish(seat) => {
                self.publish(*seat)?;
                Ok(StepAnswer::Quiet)
            }
            Step::Finish(seat) => {
                let reply = self.finish(machine, *seat);
                Ok(StepAnswer::finished(*seat, reply))
            }
            Step::Withdraw(seat) => {
                self.withdraw(*seat);
                Ok(StepAnswer::Quiet)
            }
            Step::Look(cpu, firing) => Ok(self.named(machine, *cpu, firing)),
            Step::Offer(cpu, seat) => {
                self.offer(machine, *cpu, *seat);
                Ok(StepAnswer::Quiet)
            }
            Step::Close(seat) => {
                self.close(*seat);
                Ok(StepAnswer::Quiet)
            }
        }
    }

    /// Looks, and tells all that the look named, if it was enabled.
    fn named(&mut self, machine: &'m Machine, cpu: u32, firing: &'m Firing) -> StepAnswer
        ensures at { (world : World) → EngineIsAt machine.now.registry world self.old
            → EngineIsAt machine.now.registry (looking machine.now.registry world cpu firing.now) self.new }
        ensures telling { (world : World) → EngineIsAt machine.now.registry world self.old
            → IsTelling machine.now.registry world (looking machine.now.registry world cpu firing.now) result }
    {
        match self.look(machine, cpu, firing) {
            // no offer was taken yet
            Some(_) => StepAnswer::Looked(self.left(cpu)),
            None => StepAnswer::Quiet,
        }
    }
}
