//! The lines of a replay, taken one by one.
ghost use Rattle.std.specs.Prelude.{◌≡◌, ◌+◌, ◌<◌, ◌^◌, ◌↔◌, ◌++◌, ◌∷◌, ℕ, List, [], Ok, true, false, IsTrue, IfOk, OnOk, is_some, length};
ghost use Rattle.dt_proto.specs.Lines.{line_form};
ghost use Rattle.dt_world.specs.Input.{AreStepLines, IsLineOn};
ghost use Rattle.dt_world.specs.Progress.{IsAfter, HasTakenLines, IsNamed, with_world};
ghost use Rattle.dt_world.specs.Replay.{Replayed, after_step_line};
ghost use Rattle.dt_world.specs.StepLine.{StepLineForm, look_line, call_line, fire_line, form_of_step_line};
ghost use Rattle.dt_steps.specs.Steps.{opening, asking, finishing, offering};
ghost use Rattle.dt_machine.specs.Registry.{Registry};
ghost use Rattle.dt_steps.specs.Stands.{EngineIsAt, first_account};
ghost use Rattle.dt_steps.specs.World.{World, number_on};
ghost use Rattle.dt_world.specs.Told.{follows};
ghost use Rattle.dt_world.specs.declared.output.Wanted.{Wanted};

use crate::output::{Output, Wanted};
use crate::step_line::StepLine;
use dt_chain::{Seat, SeatSet};
use dt_machine::{CPUS_MAX, Machine};
use dt_proto::WholeLine;
use dt_steps::Engine;
use std::alloc::{AllocError, Global};

/// The seats with their consumers, how many firings of each processor's script were taken, and what is to be written.
#[derive(Drop)]
pub(crate) struct Progress<'m> {
    pub(crate) engine: Engine<'m>,
    pub(crate) taken: [u32; CPUS_MAX as usize],
    pub(crate) output: Output,
}

impl<'m> Progress<'m> {
    /// A replay of which no line was taken.
    pub(crate) fn new(alloc: Global, wanted: Wanted, machine: &Machine) -> Result<Self, AllocError>
        ensures { IfOk result (HasTakenLines wanted machine.now []) }
    {
        Ok(Progress {
            engine: Engine::new(alloc, machine)?,
            taken: [0; CPUS_MAX as usize],
            output: Output {
                wanted,
                text: Vec::new(alloc),
            },
        })
    }

    /// Takes a line, and answers whether it is one that may stand here: a step line whose account and processor are the
    /// machine's. An empty line is no step, and may stand anywhere.
    pub(crate) fn take_line(
        &mut self,
        alloc: Global,
        machine: &'m Machine,
        line: &[u8],
    ) -> Result<bool, AllocError>
        ensures taken { result ≡ Ok true → (wanted : Wanted) (lines : List (List ℕ)) → length lines + 1 < 2 ^ 64
            → HasTakenLines wanted machine.now lines self.old → HasTakenLines wanted machine.now (lines ++ line.now ∷ []) self.new }
        ensures refused { result ≡ Ok false → (wanted : Wanted) (lines : List (List ℕ))
            → HasTakenLines wanted machine.now lines self.old
            → (forms : List StepLineForm) → AreStepLines machine.now.registry (lines ++ line.now ∷ []) forms → ⊥ }
    {
        // an empty line is skipped, and only counted
        if line.is_empty() {
            return Ok(true);
        }
        // a line of another form refuses the whole input
        let Some(step) = StepLine::parse(line) else {
            return Ok(false);
        };
        // so does one with an account or a processor that the machine lacks
        if !is_known(machine, &step) {
            return Ok(false);
        }
        self.take(alloc, machine, step)?;
        Ok(true)
    }

    /// Takes a step line.
    fn take(
        &mut self,
        alloc: Global,
        machine: &'m Machine,
        step: StepLine<'_>,
    ) -> Result<(), AllocError>
        requires { IsLineOn machine.now.registry (form_of_step_line step) }
        ensures { OnOk result ((wanted : Wanted) (now : Replayed) → ((seat : ℕ) → number_on now.world seat + 1 < 2 ^ 64)
            → IsAfter wanted machine.now now self.old
            → IsAfter wanted machine.now (after_step_line machine.now now (form_of_step_line step.entry)) self.new) }
    {
        match step {
            StepLine::Open { seat, account } => self.open(alloc, machine, seat, account),
            StepLine::Close { seat } => {
                self.engine.close(seat);
                Ok(())
            }
            StepLine::Withdraw { seat } => {
                self.engine.withdraw(seat);
                Ok(())
            }
            StepLine::Ask { seat, line } => self.ask(alloc, machine, seat, line),
            StepLine::Publish { seat } => self.engine.publish(seat),
            StepLine::Finish { seat } => self.finish(alloc, machine, seat),
            StepLine::Look { cpu } => {
                self.look(machine, cpu);
                Ok(())
            }
            StepLine::Offer { cpu, seat } => self.offer(alloc, machine, cpu, seat),
            StepLine::Call { seat, line } => self.call(alloc, machine, seat, line),
            StepLine::Fire { cpu } => self.fire(alloc, machine, cpu),
        }
    }

    /// Opens a session on a free seat, and tells that it begins, if it is the first there.
    fn open(
        &mut self,
        alloc: Global,
        machine: &Machine,
        seat: Seat,
        name: &[u8],
    ) -> Result<(), AllocError>
        ensures { OnOk result ((wanted : Wanted) (now : Replayed) → IsAfter wanted machine.now now self.old
            → IsAfter wanted machine.now (with_world now (opening machine.now.registry now.world seat name.now)) self.new) }
    {
        let was_there = self.engine.is_first(seat);
        self.engine.open(alloc, machine, seat, name)?;
        // the seat's first session sits there still: the step did nothing, and there is no beginning to tell
        if was_there {
            return Ok(());
        }
        match self.engine.first(seat) {
            Some(account) => self.output.open(seat, &account),
            None => Ok(()),
        }
    }

    /// Asks a line of the session on a seat, and tells the reply.
    fn ask(
        &mut self,
        alloc: Global,
        machine: &Machine,
        seat: Seat,
        line: &[u8],
    ) -> Result<(), AllocError>
        ensures { OnOk result ((wanted : Wanted) (now : Replayed) → IsAfter wanted machine.now now self.old
            → IsAfter wanted machine.now (with_world now (asking machine.now.registry now.world seat (line_form line.now))) self.new) }
    {
        let is_first = self.engine.is_first(seat);
        let line = WholeLine::Bytes(line);
        match self.engine.ask(alloc, machine, seat, line)? {
            Some(answered) => self.output.reply(
                alloc,
                seat,
                is_first,
                line,
                &answered.text,
                answered.is_over,
            ),
            None => Ok(()),
        }
    }

    /// Lets a published `go` of the session on a seat take effect, and tells the reply.
    fn finish(&mut self, alloc: Global, machine: &Machine, seat: Seat) -> Result<(), AllocError>
        ensures { OnOk result ((wanted : Wanted) (now : Replayed) → IsAfter wanted machine.now now self.old
            → IsAfter wanted machine.now (with_world now (finishing now.world seat)) self.new) }
    {
        let is_first = self.engine.is_first(seat);
        match self.engine.finish(machine, seat) {
            Some(finished) => self.output.reply(
                alloc,
                seat,
                is_first,
                finished.line.lent(),
                &finished.text,
                false,
            ),
            None => Ok(()),
        }
    }

    /// Asks a line of the session on a seat, with all steps that the line needs.
    fn call(
        &mut self,
        alloc: Global,
        machine: &Machine,
        seat: Seat,
        line: &[u8],
    ) -> Result<(), AllocError>
        ensures { OnOk result ((wanted : Wanted) (now : Replayed) → number_on now.world seat + 1 < 2 ^ 64
            → IsAfter wanted machine.now now self.old
            → IsAfter wanted machine.now (after_step_line machine.now now (call_line seat line.now)) self.new) }
    {
        self.ask(alloc, machine, seat, line)?;
        if self.engine.waits(seat) {
            self.engine.publish(seat)?;
            self.finish(alloc, machine, seat)
        } else if self.engine.has_closed(seat) {
            self.engine.withdraw(seat);
            self.engine.close(seat);
            Ok(())
        } else {
            Ok(())
        }
    }

    /// Takes the next firing of a processor's script, where one is left and no offer of the processor is, and looks whom
    /// it is to be offered to. Answers which seats that are.
    fn look(&mut self, machine: &'m Machine, cpu: u32) -> Option<SeatSet>
        requires { cpu < machine.now.registry.cpus }
        ensures after { (wanted : Wanted) (now : Replayed) → IsAfter wanted machine.now now self.old
            → IsAfter wanted machine.now (after_step_line machine.now now (look_line cpu)) self.new }
        ensures answer { (wanted : Wanted) (now : Replayed) → IsAfter wanted machine.now now self.old
            → IsNamed machine.now now cpu result }
    {
        // a machine has no more processors than there are places here
        prove!(cpu < machine.cpus());
        let place = self.taken[cpu as usize];
        let firing = machine.firing(cpu, place)?;
        let named = self.engine.look(machine, cpu, firing)?;
        self.taken[cpu as usize] = place.saturating_add(1);
        Some(named)
    }

    /// Takes the next firing of a processor's script, and offers it to each seat that it is for.
    fn fire(&mut self, alloc: Global, machine: &'m Machine, cpu: u32) -> Result<(), AllocError>
        requires { cpu < machine.now.registry.cpus }
        ensures { OnOk result ((wanted : Wanted) (now : Replayed) → IsAfter wanted machine.now now self.old
            → IsAfter wanted machine.now (after_step_line machine.now now (fire_line cpu)) self.new) }
    {
        // at the script's end, or with offers left, no firing is taken, and there is none to offer
        let Some(mut left) = self.look(machine, cpu) else {
            return Ok(());
        };
        while let Some(seat) = left.first() {
            left.remove(seat);
            self.offer(alloc, machine, cpu, seat)?;
        }
        Ok(())
    }

    /// Offers the firing that a processor looked for to a seat, and tells of it where it is seen.
    fn offer(
        &mut self,
        alloc: Global,
        machine: &Machine,
        cpu: u32,
        seat: Seat,
    ) -> Result<(), AllocError>
        ensures { OnOk result ((wanted : Wanted) (now : Replayed) → IsAfter wanted machine.now now self.old
            → IsAfter wanted machine.now (with_world now (offering now.world cpu seat)) self.new) }
    {
        let is_followed = self.is_followed(seat);
        let Some(at) = self.engine.offer(machine, cpu, seat) else {
            return Ok(());
        };
        if !is_followed {
            return Ok(());
        }
        self.output.fire(alloc, at)
    }

    /// Whether what the session on a seat sees is told: its trail is the one that is wanted.
    fn is_followed(&self, seat: Seat) -> bool
        ensures { (registry : Registry) (world : World) → EngineIsAt registry world self.now.engine
            → result ≡ follows self.now.output.wanted seat (is_some (first_account (world.places seat))) }
    {
        // among replies no firing stands, and in a trail those of its own session: of others nothing more is asked
        self.output.wanted.follows(seat, true) && self.engine.is_first(seat)
    }
}

/// Whether the account or the processor of a step line is the machine's.
fn is_known(machine: &Machine, step: &StepLine<'_>) -> bool
    ensures { IsTrue result ↔ IsLineOn machine.now.registry (form_of_step_line step.now) }
{
    match step {
        StepLine::Open { account, .. } => machine.account(account).is_some(),
        StepLine::Look { cpu } | StepLine::Offer { cpu, .. } | StepLine::Fire { cpu } => {
            *cpu < machine.cpus()
        }
        _ => true,
    }
}
