//! The plain runner of one life: it has all that happened in it.
ghost use Rattle.std.specs.Prelude.{◌≡◌, ◌≤◌, ◌<◌, ◌+◌, ◌-◌, ◌*◌, None, Some, if◌then◌else◌};
ghost use Rattle.std.specs.Option.{ForSome};
ghost use Rattle.dt_life.specs.declared.limits.TheConstants.{HISTORY_MAX, LINES_MAX};
ghost use Rattle.dt_life.specs.declared.phase.Phase.TheVariants as phases;
ghost use Rattle.dt_ecb.specs.declared.limits.TheConstants.{ECBS_MAX};
ghost use Rattle.dt_program.specs.declared.clause.TheConstants.{STATEMENTS_MAX};
ghost use Rattle.dt_locals.specs.declared.limits.TheConstants.{LOCAL_DROPS_LIMIT};
ghost use Rattle.dt_alone.specs.Happened.{left_count};
ghost use Rattle.dt_alone.specs.Kept.{DropsAtMost};

use crate::happened::Happened;
use crate::kept::KeptState;
use crate::programs::Programs;
use dt_cred::Account;
use dt_life::{
    Command, END, End, LINES_MAX, Options, Phase, Refusal, Reply, own_firing, own_process, shown,
};
use dt_machine::{Context, Firing, Machine};
use std::alloc::{AllocError, Global};

/// What a plain runner has of a life: its options and programs, how many lines were asked and how many firings were
/// seen, how far it has come, and all that happened in it, the oldest first; and while it traces the variables and the speculations.
#[derive(Drop)]
pub(crate) struct Runner {
    pub(crate) account: Account,
    pub(crate) options: Options,
    pub(crate) programs: Programs,
    pub(crate) lines: u32,
    pub(crate) seen: u32,
    pub(crate) phase: Phase,
    pub(crate) since: Vec<Happened>,
    pub(crate) kept: Option<KeptState>,
    ghost few_lines: { lines ≤ LINES_MAX },
    ghost few_seen: { seen ≤ HISTORY_MAX },
    ghost unseen: { phase ≡ phases.Inactive → seen ≡ 0 },
    ghost going: { phase ≡ phases.Active → seen < options.histsize },
    ghost few: { left_count since.items ≤ 2 * ECBS_MAX * (lines + seen) },
    ghost few_drops: { ForSome kept (DropsAtMost (2 * ECBS_MAX * STATEMENTS_MAX * (lines + seen))) },
}

impl Runner {
    ghost use Rattle.std.specs.Prelude.{◌↔◌, ◌∷◌, List, [], Result, Ok, Some, None, IsTrue, IfOk, nat_le, false, if◌then◌else◌};
    ghost use Rattle.dt_cred.specs.declared.account.Account.{Account};
    ghost use Rattle.dt_machine.specs.Registry.{Registry};
    ghost use Rattle.dt_machine.specs.Context.{form_of_context};
    ghost use Rattle.dt_alone.specs.Runs.{Has, HasIn, IsFiring, KeepsAfter, Runs};
    ghost use Rattle.dt_life.specs.Answer.{answer_of};
    ghost use Rattle.dt_life.specs.Ask.{line_asks};
    ghost use Rattle.dt_life.specs.Acceptance.{after_line};
    ghost use Rattle.dt_life.specs.Life.{Item, SetUp, fired, happens, phase_after, phase_of, seen_count, with_event, is_over as over};
    ghost use Rattle.dt_life.specs.Reply.{Replies};
    ghost use Rattle.dt_life.specs.Sees.{Sees};
    ghost use Rattle.dt_life.specs.Takings.{TracingEvent, ended, context_at};
    ghost use Rattle.dt_life.specs.declared.phase.End.{End};

    /// A runner of the empty life.
    pub(crate) fn new(alloc: Global, account: Account) -> Self
        ensures { (registry : Registry) → Runs account registry result [] }
    {
        Runner {
            account,
            options: Options::new(),
            programs: Programs::new(alloc),
            lines: 0,
            seen: 0,
            phase: Phase::Inactive,
            since: Vec::new(alloc),
            kept: None,
        }
    }

    /// Whether all lines were asked that one consumer may ask.
    pub(crate) fn is_over(&self) -> bool
        ensures over { (account : Account) (registry : Registry) (life : List Item)
            → Runs account registry self.now life → result ≡ over life }
        ensures counted { result ≡ nat_le LINES_MAX self.now.lines }
    {
        LINES_MAX <= self.lines
    }

    /// The reply to a line, which is then part of the life unless it is over the quota. `Err`: memory ran out, and
    /// nothing is promised of the runner any more.
    pub(crate) fn ask(
        &mut self,
        alloc: Global,
        machine: &Machine,
        line: &Result<Command, Refusal>,
    ) -> Result<Reply, AllocError>
        ensures { IfOk result (λ reply. (account : Account) (life : List Item)
            → Runs account machine.now.registry self.old life
            → Replies account machine.now.registry life (line_asks line.now) (answer_of reply)
            × Runs account machine.now.registry self.new (after_line life (line_asks line.now))) }
    {
        // over the quota a line is refused whatever it asks, and is no part of the life
        if self.is_over() {
            return Ok(Reply::Refused(Refusal::Quota));
        }
        self.lines += 1;
        match line {
            Err(refusal) => Ok(Reply::Refused(*refusal)),
            Ok(command) => self.answer(alloc, machine, command),
        }
    }

    /// Takes a firing, and answers whether it is seen; an unseen one is no part of the life. `Err`: memory ran out, and
    /// nothing is promised of the runner any more.
    pub(crate) fn offer(
        &mut self,
        alloc: Global,
        machine: &Machine,
        firing: &Firing,
    ) -> Result<bool, AllocError>
        ensures sees { IfOk result (λ seen. (account : Account) (life : List Item)
            → Runs account machine.now.registry self.old life
            → (IsTrue seen ↔ Sees account machine.now.registry life firing.now)) }
        ensures after { IfOk result (λ seen. (account : Account) (life : List Item)
            → Runs account machine.now.registry self.old life
            → Runs account machine.now.registry self.new (if seen then fired firing.now ∷ life else life)) }
    {
        // before its `go` and after its end a consumer sees nothing
        if !matches!(self.phase, Phase::Active) {
            return Ok(false);
        }
        // where no ECB names the probe there is nothing to take, and the firing is no part of the life
        if !self.programs.has(firing.probe) {
            return Ok(false);
        }
        let account = self.account;
        // a foreign firing, or one that the account isn't shown, is no part of the life either
        let Some(context) = shown(&account, machine, firing) else {
            return Ok(false);
        };
        // while it traces, the variables and the speculations of each of the machine's processors are there
        let Some(kept) = self.kept.take() else {
            return Ok(false);
        };
        if firing.cpu >= kept.cpus {
            return Ok(false);
        }
        self.happen(alloc, machine, &context, self.seen + 1, kept)?;
        Ok(true)
    }

    /// A probe other than END fires, and then so many firings were seen. Where a clause exits, or the firing is the
    /// last of the history, tracing ends, and END fires too. The variables and the speculations are kept where tracing goes on.
    pub(crate) fn happen(
        &mut self,
        alloc: Global,
        machine: &Machine,
        context: &Context,
        seen: u32,
        mut kept: KeptState,
    ) -> Result<(), AllocError>
        requires there { context.now.firing.now.cpu < kept.cpus }
        requires in_history { seen ≤ self.old.options.histsize }
        requires room { left_count self.old.since.items + 2 * ECBS_MAX ≤ 2 * ECBS_MAX * (self.old.lines + seen) }
        requires drops { DropsAtMost (2 * ECBS_MAX * STATEMENTS_MAX * (self.old.lines + seen) - 2 * ECBS_MAX * STATEMENTS_MAX) kept }
        requires forward { self.old.seen ≤ seen }
        // for each set-up that it has: it then has the one with this firing, and END's where tracing ends
        ensures happens { IfOk result (λ _. (account : Account) (s : SetUp) (event : TracingEvent)
            → HasIn account machine.now.registry s (phase_of s) self.old → KeepsAfter account machine.now.registry s kept
            → IsFiring event
            → context_at account machine.now.registry event ≡ Some (form_of_context context.now)
            → phase_after (event ∷ s.since) ≡ phases.Active → seen ≡ seen_count (event ∷ s.since)
            → Has account machine.now.registry (happens account machine.now.registry s event) self.new) }
        ensures lines { self.new.lines ≡ self.old.lines }
    {
        let history = self.options.histsize;
        self.seen = seen;
        self.kept = None;
        // for now, until the exit is known: a phase that fits the count of seen firings
        self.phase = if seen < history {
            Phase::Active
        } else {
            Phase::Stopped(Some(End::History))
        };
        let exit = self
            .programs
            .take(alloc, &mut self.since, &mut kept, context, false)?;
        let end = End::after(exit, seen, history);
        self.phase = match end {
            Some(end) => Phase::Stopped(Some(end)),
            None => Phase::Active,
        };
        if end.is_some() {
            self.fire_end(alloc, machine, kept)?;
        } else {
            self.kept = Some(kept);
        }
        Ok(())
    }

    /// END fires, after the phase tells that tracing has ended.
    pub(crate) fn fire_end(
        &mut self,
        alloc: Global,
        machine: &Machine,
        mut kept: KeptState,
    ) -> Result<(), AllocError>
        requires room { left_count self.old.since.items + ECBS_MAX ≤ 2 * ECBS_MAX * (self.old.lines + self.old.seen) }
        requires drops { DropsAtMost (LOCAL_DROPS_LIMIT - ECBS_MAX * STATEMENTS_MAX) kept }
        ensures ends { IfOk result (λ _. (account : Account) (s : SetUp) (end : End)
            → HasIn account machine.now.registry s (phases.Stopped (Some end)) self.old
            → KeepsAfter account machine.now.registry s kept
            → Has account machine.now.registry (with_event s (ended end)) self.new) }
        ensures lines { self.new.lines ≡ self.old.lines }
    {
        self.kept = None;
        let process = own_process(&self.account);
        let firing = own_firing(END);
        let context = Context {
            probe: machine.probe(END).unwrap(),
            process: &process,
            firing: &firing,
        };
        let _exit = self
            .programs
            .take(alloc, &mut self.since, &mut kept, &context, true)?;
        Ok(())
    }
}
