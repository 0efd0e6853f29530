//! What a consumer has from its `go` on.
ghost use Rattle.std.specs.Prelude.{◌≡◌, ◌≤◌, ◌<◌, ◌+◌, ◌*◌, All, None, Some, vec_len};
ghost use Rattle.dt_consumer.specs.Counts.{AtMost, COMES_MAX, FailsAtMost, GIVES_MAX, own_firings, must_be_left};
ghost use Rattle.dt_consumer.specs.Placing.{ArePlaced};
ghost use Rattle.dt_consumer.specs.Recording.{outlines_of};
ghost use Rattle.dt_life.specs.Uses.{GivenAtMost};
ghost use Rattle.dt_life.specs.declared.limits.TheConstants.{END, HISTORY_MAX};

use crate::course::Course;
use crate::ecb_lists::EcbList;
use crate::enabled::Enabled;
use crate::processors::Processors;
use crate::programs::Programs;
use crate::scratch::Scratch;
use crate::uses::Uses;
use dt_aggstore::Aggregation;
use dt_cred::Account;
use dt_lang::Clause;
use dt_life::{BEGIN, Context, END, End, HISTORY_MAX, Options, Phase, own_firing, own_process};
use dt_machine::Machine;
use std::alloc::{AllocError, Global};

/// What a consumer has from its `go` on, and still has when tracing ended: the ECBs of each probe, so that a firing
/// finds its own without a look at others, what its clauses give to aggregations, what it has of each processor, how
/// many firings it saw, of how many at the most, and why tracing ended.
#[derive(Drop)]
pub(crate) struct Tracing {
    // First, as the one field that each firing writes which is seen: it lies near what else is written then.
    pub(crate) seen: u32,
    pub(crate) history: u32,
    pub(crate) course: Course,
    pub(crate) lists: Vec<EcbList>,
    pub(crate) processors: Processors,
    pub(crate) uses: Vec<Uses>,
    ghost own_lists: { END < vec_len lists },
    ghost placed: { All (ArePlaced (vec_len uses)) lists.items },
    ghost few: { history ≤ HISTORY_MAX },
    ghost in_history: { seen + must_be_left course ≤ history },
    ghost counted: { All (AtMost (COMES_MAX * (seen + own_firings course))) processors.all.items },
    ghost failed: { FailsAtMost (COMES_MAX * (seen + own_firings course)) processors },
    ghost given: { All (GivenAtMost (GIVES_MAX * (seen + own_firings course))) processors.stores.items },
}

impl Tracing {
    ghost use Rattle.std.specs.Prelude.{◌≡◌, ◌≢◌, ◌↔◌, ◌&&◌, ℕ, [], List, Option, Some, None, IsTrue, IfOk, length, map, true, false};
    ghost use Rattle.dt_cred.specs.declared.account.Account.{Account};
    ghost use Rattle.dt_machine.specs.Registry.{Registry};
    ghost use Rattle.dt_cred.specs.declared.firing.Firing.{Firing};
    ghost use Rattle.dt_lang.specs.Program.{form_of_clause};
    ghost use Rattle.dt_ecb.specs.Ecbs.{of_probe};
    ghost use Rattle.dt_life.specs.Placed.{AreEcbs};
    ghost use Rattle.dt_consumer.specs.Keeps.{IsTracing, phase_by};
    ghost use Rattle.dt_life.specs.Forms.{form_of_options};
    ghost use Rattle.dt_machine.specs.Context.{form_of_context, context_of};
    ghost use Rattle.dt_ecb.specs.Forms.{shapes_of};
    ghost use Rattle.dt_aggstore.specs.declared.key.Aggregation.{Aggregation};
    ghost use Rattle.dt_life.specs.Aggregations.{aggregation_of};
    ghost use Rattle.dt_life.specs.Buffers.{reserve_on};
    ghost use Rattle.dt_life.specs.Life.{SetUp, ecbs_in, shapes_in, phase_of, with_event, since_then, happens, is_stopped};
    ghost use Rattle.dt_life.specs.declared.phase.Phase.TheVariants.{Active};
    ghost use Rattle.dt_life.specs.Takings.{began, seen as sees, snapped, truncated, ended as ends, closed, first_exit};
    ghost use Rattle.dt_life.specs.TracingSteps.{taken_by};

    /// Begins to trace: makes all the room that tracing needs, fires BEGIN, and ends where one of its clauses exits. The
    /// reserve is that of the first processor's buffer.
    pub(crate) fn begin(
        alloc: Global,
        account: &Account,
        machine: &Machine,
        options: Options,
        programs: &Programs,
        reserve: usize,
    ) -> Result<Self, AllocError>
        requires { reserve ≤ options.bufsize }
        ensures uses { IfOk result (λ tracing. vec_len tracing.uses ≡ vec_len programs.now.clauses) }
        // for each set-up with these options, clauses and ECBs: BEGIN fired in it, and END where BEGIN exits
        ensures traces { IfOk result (λ tracing. (s : SetUp) → form_of_options options ≡ s.options
            → map form_of_clause programs.now.clauses.items ≡ s.clauses
            → AreEcbs s.clauses (ecbs_in account.now machine.now.registry s) programs.now.ecbs.items
            → shapes_of programs.now.shapes ≡ shapes_in s
            → reserve ≡ reserve_on account.now machine.now.registry s 0
            → IsTracing account.now machine.now.registry
            (happens account.now machine.now.registry (since_then s []) began) tracing) }
    {
        let (mut tracing, exit) = Tracing::begun(
            alloc, account, machine, options, programs, reserve,
        )?;
        // BEGIN is no seen firing, so tracing goes on unless one of BEGIN's clauses exits
        let Some(end) = End::after(exit, 0, options.histsize) else {
            return Ok(tracing);
        };
        tracing.finish(end, account, machine, programs);
        Ok(tracing)
    }

    /// Tracing once BEGIN has fired, still running, and the status of the first of BEGIN's clauses that exited, if one
    /// did. The error is that memory ran out.
    fn begun(
        alloc: Global,
        account: &Account,
        machine: &Machine,
        options: Options,
        programs: &Programs,
        reserve: usize,
    ) -> Result<(Self, Option<i64>), AllocError>
        requires { reserve ≤ options.bufsize }
        ensures running { IfOk result (λ begun. begun.0.course ≡ Course.Running) }
        ensures uses { IfOk result (λ begun. vec_len begun.0.uses ≡ vec_len programs.now.clauses) }
        // for each set-up with these options, clauses and ECBs: BEGIN fired in it, and the status it exited with
        ensures fired { IfOk result (λ begun. (s : SetUp) → form_of_options options ≡ s.options
            → map form_of_clause programs.now.clauses.items ≡ s.clauses
            → AreEcbs s.clauses (ecbs_in account.now machine.now.registry s) programs.now.ecbs.items
            → shapes_of programs.now.shapes ≡ shapes_in s
            → reserve ≡ reserve_on account.now machine.now.registry s 0
            → IsTracing account.now machine.now.registry (with_event (since_then s []) began) begun.0
            × (first_exit (taken_by account.now machine.now.registry s.options
            (ecbs_in account.now machine.now.registry s) [] began) ≡ begun.1)) }
    {
        let probes = machine.probes().len() as u32;
        let clauses = programs.clauses();
        let lists = EcbList::for_each(alloc, programs.ecbs(), clauses, probes + 1)?;
        let uses = Uses::of_each(alloc, &programs.shapes, clauses)?;
        let mut processors = Processors::new(alloc, options, reserve, machine.cpus())?;
        let context = Context {
            probe: machine.probe(BEGIN).unwrap(),
            process: &own_process(account),
            firing: &own_firing(BEGIN),
        };
        let enabled = Enabled {
            clauses,
            outlines: programs.outlines(),
            uses: &uses,
        };
        let mut scratch = Scratch::new();
        let exit = processors.take_each(&mut scratch, &enabled, &lists[BEGIN as usize], &context);
        let tracing = Tracing {
            lists,
            uses,
            processors,
            history: options.histsize,
            seen: 0,
            course: Course::Running,
        };
        Ok((tracing, exit))
    }

    /// How far tracing has come.
    pub(crate) fn phase(&self) -> Phase
        ensures { result ≡ phase_by self.now.course }
    {
        match self.course {
            Course::Running => Phase::Active,
            Course::Over(cause) => Phase::Stopped(cause),
        }
    }

    /// Whether it goes on.
    pub(crate) fn is_running(&self) -> bool
        ensures { IsTrue result ↔ (self.now.course ≡ Course.Running) }
    {
        matches!(self.course, Course::Running)
    }

    /// Whether it goes on, any ECB names the probe, and the processor is one of the machine's.
    pub(crate) fn wants(&self, cpu: u32, probe: u32) -> bool
        ensures going { IsTrue result → (self.now.course ≡ Course.Running) × (cpu < vec_len self.now.processors.all)
            × (probe < vec_len self.now.lists) }
        ensures named { (account : Account) (registry : Registry) (s : SetUp) → IsTracing account registry s self.now
            → IsTrue result → of_probe probe (ecbs_in account registry s) ≢ [] }
        ensures unnamed { (account : Account) (registry : Registry) (s : SetUp)
            → IsTracing account registry s self.now → result ≡ false → self.now.course ≡ Course.Running
            → cpu < vec_len self.now.processors.all → probe < vec_len self.now.lists
            → of_probe probe (ecbs_in account registry s) ≡ [] }
    {
        match self.lists.get(probe as usize) {
            Some(list) if !list.ecbs.is_empty() => {
                self.is_running() && (cpu as usize) < self.processors.all.len()
            }
            _ => false,
        }
    }

    /// Sees a firing: takes the ECBs of its probe, and ends where one exits, or where it is the last of the history.
    /// It takes no memory.
    #[inline(always)]
    pub(crate) fn see(
        &mut self,
        scratch: &mut Scratch,
        account: &Account,
        machine: &Machine,
        programs: &Programs,
        context: &Context,
    )
        requires going { self.old.course ≡ Course.Running }
        requires same { vec_len self.old.uses ≡ vec_len programs.now.clauses }
        requires there { context.now.firing.now.cpu < vec_len self.old.processors.all }
        requires known { context.now.firing.now.probe < vec_len self.old.lists }
        ensures uses { self.new.uses ≡ self.old.uses }
        // for each set-up that it traces: the firing is seen in it, and END fired where tracing ends by it
        ensures seen { (s : SetUp) (firing : Firing) → IsTracing account.now machine.now.registry s self.old
            → map form_of_clause programs.now.clauses.items ≡ s.clauses
            → context_of machine.now.registry firing ≡ Some (form_of_context context.now)
            → IsTracing account.now machine.now.registry
            (happens account.now machine.now.registry s (sees firing)) self.new }
    {
        let list = &self.lists[context.firing.probe as usize];
        let exit = self
            .processors
            .take(scratch, programs, &self.uses, list, context);
        self.seen += 1;
        if let Some(end) = End::after(exit, self.seen, self.history) {
            self.course = Course::Over(Some(end));
            let list = &self.lists[END as usize];
            self.processors
                .fire_end(account, machine, programs, &self.uses, list);
        }
    }

    /// Ends tracing for good: END fires. It takes no memory.
    pub(crate) fn finish(
        &mut self,
        end: End,
        account: &Account,
        machine: &Machine,
        programs: &Programs,
    )
        requires going { self.old.course ≡ Course.Running }
        requires same { vec_len self.old.uses ≡ vec_len programs.now.clauses }
        ensures uses { self.new.uses ≡ self.old.uses }
        ensures ended { (s : SetUp) → IsTracing account.now machine.now.registry s self.old
            → map form_of_clause programs.now.clauses.items ≡ s.clauses
            → IsTracing account.now machine.now.registry (with_event s (ends end)) self.new }
    {
        self.course = Course::Over(Some(end));
        let list = &self.lists[END as usize];
        self.processors
            .fire_end(account, machine, programs, &self.uses, list);
    }

    /// Ends tracing by a `stop`, where it goes on.
    pub(crate) fn stop(&mut self, account: &Account, machine: &Machine, programs: &Programs)
        requires same { vec_len self.old.uses ≡ vec_len programs.now.clauses }
        ensures uses { self.new.uses ≡ self.old.uses }
        ensures ended { (s : SetUp) → IsTracing account.now machine.now.registry s self.old
            → map form_of_clause programs.now.clauses.items ≡ s.clauses → phase_of s ≡ Active
            → IsTracing account.now machine.now.registry (with_event s (ends End.Stop)) self.new }
    {
        // Always so where the consumer stands for the life after which the `stop` was drafted: its phase is active. Another one,
        // that ended by a firing since, stays as it is.
        if self.is_running() {
            self.finish(End::Stop, account, machine, programs);
        }
    }

    /// Ends where it goes on, without a cause, as the session is closed. END doesn't fire.
    pub(crate) fn close(&mut self)
        ensures uses { self.new.uses ≡ self.old.uses }
        ensures running { (account : Account) (registry : Registry) (s : SetUp) → IsTracing account registry s self.old
            → is_stopped (phase_of s) ≡ false → IsTracing account registry (with_event s closed) self.new }
        ensures over { (account : Account) (registry : Registry) (s : SetUp) → IsTracing account registry s self.old
            → is_stopped (phase_of s) ≡ true → IsTracing account registry s self.new }
    {
        // a `close` is accepted in every phase: where tracing is over, why it ended stays
        if self.is_running() {
            self.course = Course::Over(None);
        }
    }

    /// Goes on after a `snap` of the buffer of a processor.
    pub(crate) fn snap(&mut self, cpu: usize)
        ensures uses { self.new.uses ≡ self.old.uses }
        ensures snapped { (account : Account) (registry : Registry) (s : SetUp) → IsTracing account registry s self.old
            → IsTracing account registry (with_event s (snapped cpu)) self.new }
    {
        // Always so where it traces on the machine of the `snap` (`all_processors` of `IsTracing`): the draft asked for a processor
        // of that machine. On a processor that isn't there nothing was taken.
        if cpu < self.processors.all.len() {
            self.processors.all[cpu].snap();
        }
    }

    /// Goes on after an aggregation was truncated on every processor.
    pub(crate) fn trunc(&mut self, aggregation: Aggregation)
        ensures uses { self.new.uses ≡ self.old.uses }
        ensures truncated { (account : Account) (registry : Registry) (s : SetUp) (name : List ℕ)
            → IsTracing account registry s self.old → aggregation_of (shapes_in s) name ≡ Some aggregation
            → IsTracing account registry (with_event s (truncated name)) self.new }
    {
        self.processors.trunc(aggregation);
    }

    /// How many clauses a division by zero ended on each processor.
    pub(crate) fn errors(&self, alloc: Global) -> Result<Vec<u64>, AllocError>
        ensures { IfOk result (λ errors.
            errors.items ≡ map (λ processor. processor.errors) self.now.processors.all.items) }
    {
        let mut errors = Vec::new(alloc);
        for processor in &self.processors.all {
            errors.push(processor.errors)?;
        }
        Ok(errors)
    }

    /// How many assignments to variables found no room on each processor.
    pub(crate) fn dyndrops(&self, alloc: Global) -> Result<Vec<u64>, AllocError>
        ensures { IfOk result (λ dyndrops.
            dyndrops.items ≡ map (λ processor. processor.dyndrops) self.now.processors.all.items) }
    {
        let mut dyndrops = Vec::new(alloc);
        for one in &self.processors.all {
            dyndrops.push(one.dyndrops)?;
        }
        Ok(dyndrops)
    }

    /// How many records speculations dropped on each processor.
    pub(crate) fn specdrops(&self, alloc: Global) -> Result<Vec<u64>, AllocError>
        ensures { IfOk result (λ specdrops.
            specdrops.items ≡ map (λ processor. processor.specdrops) self.now.processors.all.items) }
    {
        let mut specdrops = Vec::new(alloc);
        for one in &self.processors.all {
            specdrops.push(one.specdrops)?;
        }
        Ok(specdrops)
    }
}
