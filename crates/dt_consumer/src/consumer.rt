//! One consumer, from its first line to its last.
ghost use Rattle.std.specs.Prelude.{◌≡◌, vec_len};
ghost use Rattle.std.specs.Option.{ForSome};

use crate::draft::{Change, Draft};
use crate::programs::Programs;
use crate::room::Room;
use crate::scratch::Scratch;
use crate::tracing::Tracing;
use dt_aggstore::Aggregation;
use dt_cred::Account;
use dt_ecb::{Ecb, Shapes, ecbs_go_on, uses_of_both};
use dt_lang::Clause;
use dt_life::{Options, Phase};
use dt_machine::{Context, Firing, Interest, Machine};
use std::alloc::{AllocError, Global};

/// One consumer: its options, what it has enabled, and, from its `go` on, what it has of each processor.
#[derive(Drop)]
pub struct Consumer {
    pub(crate) tracing: Option<Tracing>,
    pub(crate) account: Account,
    pub(crate) programs: Programs,
    pub(crate) options: Options,
    /// Whether the session was closed before tracing began.
    pub(crate) closed: bool,
    pub(crate) lines: u32,
    ghost known: { ForSome tracing (λ t. vec_len t.uses ≡ vec_len programs.clauses) },
}

impl Consumer {
    ghost use Rattle.std.specs.Prelude.{◌≡◌, ◌≢◌, ◌↔◌, ◌≤◌, ℕ, List, [], ◌∷◌, Result, false, IsOk, IsTrue, IfOk};
    ghost use Rattle.dt_cred.specs.declared.account.Account.{Account};
    ghost use Rattle.dt_life.specs.Life.{Item, fired, phase, set_up, ecbs as ecbs_after};
    ghost use Rattle.dt_life.specs.Limits.{history_max};
    ghost use Rattle.dt_ecb.specs.Ecbs.{of_probe};
    ghost use Rattle.dt_machine.specs.Interest.{has_probe};
    ghost use Rattle.dt_machine.specs.Context.{IsContext};
    ghost use Rattle.dt_machine.specs.Registry.{Registry};
    ghost use Rattle.dt_machine.specs.Shown.{IsShown};
    ghost use Rattle.dt_life.specs.Ask.{Ask};
    ghost use Rattle.dt_consumer.specs.Draft.{BeginsTracing, CanApply, Drafted, ChangeFits, IsDraftOf};
    ghost use Rattle.dt_life.specs.Acceptance.{after_line};
    ghost use Rattle.dt_life.specs.Sees.{Sees};
    ghost use Rattle.dt_life.specs.declared.refusal.Refusal.{Refusal};
    ghost use Rattle.dt_consumer.specs.StandsFor.{StandsFor};

    /// A consumer that has asked nothing. The machine is there for the contract: it
    /// says on which machine the consumer stands for its life. Nothing is read of it.
    pub fn new(alloc: Global, account: Account, _machine: &Machine) -> Result<Self, AllocError>
        ensures { IfOk result (λ consumer. StandsFor account _machine.now.registry consumer []) }
    {
        Ok(Consumer {
            account,
            options: Options::new(),
            programs: Programs::new(alloc),
            tracing: None,
            closed: false,
            lines: 0,
        })
    }

    /// How far the consumer has come: active from its accepted `go` on, until a `stop` is accepted, a clause exits, the
    /// last firing of its history is seen, or a `close` is accepted; then it has stopped for good. A `close` before the
    /// `go` stops it too.
    pub fn phase(&self) -> Phase
        ensures { (account : Account) (registry : Registry) (life : List Item)
            → StandsFor account registry self.now life → result ≡ phase account registry life }
    {
        match &self.tracing {
            Some(tracing) => tracing.phase(),
            None if self.closed => Phase::Stopped(None),
            None => Phase::Inactive,
        }
    }

    /// After how many seen firings its tracing ends: the option `histsize`, of at most [`HISTORY_MAX`](dt_life::HISTORY_MAX). It takes
    /// no memory.
    pub fn histsize(&self) -> u64
        ensures value { (account : Account) (registry : Registry) (life : List Item)
            → StandsFor account registry self.now life → result ≡ (set_up account registry life).options.histsize }
        ensures few { result ≤ history_max }
    {
        u64::from(self.options.histsize)
    }

    /// The probes that its ECBs name, and no other: a firing of any other probe is never seen. The set lies in the value
    /// itself, so it takes no memory, and is there in any case.
    pub fn interest(&self) -> Result<Interest, AllocError>
        ensures named { IfOk result (λ interest. (account : Account) (registry : Registry) (life : List Item)
            → StandsFor account registry self.now life
            → (id : ℕ) → (IsTrue (has_probe interest id) ↔ (of_probe id (ecbs_after account registry life) ≢ []))) }
        ensures succeeds { IsOk result }
    {
        Ok(self.programs.interest())
    }

    /// Takes a firing, and answers whether the consumer saw it: it is active, the firing belongs to the machine, one
    /// of its ECBs names the probe, and its account is shown the firing. Where a clause exits, or the firing is the last
    /// of the history, tracing ends, and END fires in the same step. An unseen firing changes nothing. It takes no
    /// memory. This is [`Consumer::offer_context`] for a firing whose probe and process nobody looked up.
    pub fn offer(&mut self, machine: &Machine, firing: &Firing) -> bool
        ensures sees { (account : Account) (life : List Item)
            → StandsFor account machine.now.registry self.old life
            → (IsTrue result ↔ Sees account machine.now.registry life firing.now) }
        ensures seen { (account : Account) (life : List Item)
            → StandsFor account machine.now.registry self.old life → IsTrue result
            → StandsFor account machine.now.registry self.new (fired firing.now ∷ life) }
        ensures unseen { result ≡ false → self.new ≡ self.old }
        ensures drafts { (draft : Draft) → CanApply self.old draft → CanApply self.new draft }
    {
        match machine.context(firing) {
            Some(context) => self.offer_context(machine, &context, &mut Scratch::new()),
            // a foreign firing changes nothing for its consumer
            None => false,
        }
    }

    /// The same for a firing whose probe and process were looked up: so who offers a firing to many consumers looks them up
    /// once. The context is one of the machine's.
    #[inline(always)]
    pub fn offer_context(
        &mut self,
        machine: &Machine,
        context: &Context,
        scratch: &mut Scratch,
    ) -> bool
        ensures sees { (account : Account) (life : List Item)
            → StandsFor account machine.now.registry self.old life → IsContext machine.now.registry context.now
            → (IsTrue result ↔ Sees account machine.now.registry life context.now.firing.now) }
        ensures seen { (account : Account) (life : List Item)
            → StandsFor account machine.now.registry self.old life → IsContext machine.now.registry context.now
            → IsTrue result
            → StandsFor account machine.now.registry self.new (fired context.now.firing.now ∷ life) }
        ensures unseen { result ≡ false → self.new ≡ self.old }
        ensures drafts { (draft : Draft) → CanApply self.old draft → CanApply self.new draft }
    {
        // a firing that its account isn't shown changes nothing for a consumer
        context.is_shown(&self.account) && self.offer_shown(machine, context, scratch)
    }

    /// The same for a firing that the consumer's account is shown, which is all the work of an offer: who looked whom to offer the
    /// firing to has asked for that, so it is asked once.
    #[inline(always)]
    pub fn offer_shown(
        &mut self,
        machine: &Machine,
        context: &Context,
        scratch: &mut Scratch,
    ) -> bool
        ensures sees { (account : Account) (life : List Item)
            → StandsFor account machine.now.registry self.old life → IsContext machine.now.registry context.now
            → IsShown account machine.now.registry context.now.firing.now
            → (IsTrue result ↔ Sees account machine.now.registry life context.now.firing.now) }
        ensures seen { (account : Account) (life : List Item)
            → StandsFor account machine.now.registry self.old life → IsContext machine.now.registry context.now
            → IsShown account machine.now.registry context.now.firing.now → IsTrue result
            → StandsFor account machine.now.registry self.new (fired context.now.firing.now ∷ life) }
        ensures unseen { result ≡ false → self.new ≡ self.old }
        ensures drafts { (draft : Draft) → CanApply self.old draft → CanApply self.new draft }
    {
        // before tracing begins nothing is seen
        let Some(tracing) = &mut self.tracing else {
            return false;
        };
        let firing = context.firing;
        // a firing of a probe that this consumer never enabled changes nothing for it
        if !tracing.wants(firing.cpu, firing.probe) {
            return false;
        }
        tracing.see(scratch, &self.account, machine, &self.programs, context);
        true
    }

    /// Makes the change of a draft. It takes no memory. The draft must come from this consumer, as it stood for the
    /// same life; firings that it didn't see since don't matter. The machine is the one that the consumer was made for.
    pub fn apply(&mut self, machine: &Machine, draft: Draft)
        requires { CanApply self.old draft }
        ensures { (account : Account) (life : List Item) (line : Result Ask Refusal)
            → StandsFor account machine.now.registry self.old life
            → IsDraftOf account machine.now.registry life line draft
            → StandsFor account machine.now.registry self.new (after_line life line) }
    {
        match draft.into_change() {
            Change::Uncounted => {}
            Change::Counted => self.count(),
            Change::Set { options } => self.set(options),
            Change::Enable {
                clauses,
                ecbs,
                shapes,
                room,
            } => self.enable(clauses, ecbs, shapes, room),
            Change::Go { tracing } => self.begin(Box::into_inner(tracing)),
            Change::Stop => self.stop(machine),
            Change::Snap { cpu } => self.snap(cpu),
            Change::Trunc { aggregation } => self.trunc(aggregation),
            Change::Close => self.close(),
        }
    }

    /// Counts a line that changes nothing else.
    fn count(&mut self)
        ensures { (account : Account) (registry : Registry) (life : List Item) (line : Result Ask Refusal)
            → StandsFor account registry self.old life → Drafted account registry life line Change.Counted
            → StandsFor account registry self.new (after_line life line) }
    {
        self.lines = self.lines.saturating_add(1);
    }

    /// Takes these options.
    fn set(&mut self, options: Options)
        ensures { (account : Account) (registry : Registry) (life : List Item) (line : Result Ask Refusal)
            → StandsFor account registry self.old life → Drafted account registry life line (Change.Set options)
            → StandsFor account registry self.new (after_line life line) }
    {
        self.options = options;
        self.lines = self.lines.saturating_add(1);
    }

    /// Enables further clauses.
    fn enable(&mut self, clauses: Vec<Clause>, ecbs: Vec<Ecb>, shapes: Shapes, room: Room)
        requires { ChangeFits self.old (Change.Enable clauses ecbs shapes room) }
        ensures { (account : Account) (registry : Registry) (life : List Item) (line : Result Ask Refusal)
            → StandsFor account registry self.old life
            → Drafted account registry life line (Change.Enable clauses ecbs shapes room)
            → StandsFor account registry self.new (after_line life line) }
    {
        ecbs_go_on();
        uses_of_both();
        self.programs.extend(room, clauses, ecbs, shapes);
        self.lines = self.lines.saturating_add(1);
    }

    /// Begins to trace.
    fn begin(&mut self, tracing: Tracing)
        requires { vec_len tracing.uses ≡ vec_len self.old.programs.clauses }
        ensures { (account : Account) (registry : Registry) (life : List Item) (line : Result Ask Refusal)
            → StandsFor account registry self.old life → BeginsTracing account registry life line tracing
            → StandsFor account registry self.new (after_line life line) }
    {
        self.tracing = Some(tracing);
        self.lines = self.lines.saturating_add(1);
    }

    /// Ends tracing, where it goes on.
    fn stop(&mut self, machine: &Machine)
        ensures { (account : Account) (life : List Item) (line : Result Ask Refusal)
            → StandsFor account machine.now.registry self.old life
            → Drafted account machine.now.registry life line Change.Stop
            → StandsFor account machine.now.registry self.new (after_line life line) }
    {
        // Always so where it stands for the life after which the `stop` was drafted: its phase is active, and a consumer that
        // never traced is inactive or stopped (`IsUntraced`).
        if let Some(tracing) = &mut self.tracing {
            tracing.stop(&self.account, machine, &self.programs);
        }
        self.lines = self.lines.saturating_add(1);
    }

    /// Goes on after a `snap` of the buffer of a processor.
    fn snap(&mut self, cpu: usize)
        ensures { (account : Account) (registry : Registry) (life : List Item) (line : Result Ask Refusal)
            → StandsFor account registry self.old life → Drafted account registry life line (Change.Snap cpu)
            → StandsFor account registry self.new (after_line life line) }
    {
        // closed before its `go`, it has no buffer, and the `snap` is only counted
        if let Some(tracing) = &mut self.tracing {
            tracing.snap(cpu);
        }
        self.lines = self.lines.saturating_add(1);
    }

    /// Goes on after an aggregation was truncated.
    fn trunc(&mut self, aggregation: Aggregation)
        ensures { (account : Account) (registry : Registry) (life : List Item) (line : Result Ask Refusal)
            → StandsFor account registry self.old life → Drafted account registry life line (Change.Trunc aggregation)
            → StandsFor account registry self.new (after_line life line) }
    {
        // closed before its `go`, it has no store, and the `trunc` is only counted
        if let Some(tracing) = &mut self.tracing {
            tracing.trunc(aggregation);
        }
        self.lines = self.lines.saturating_add(1);
    }

    /// Ends tracing without a cause, as the session is closed.
    fn close(&mut self)
        ensures { (account : Account) (registry : Registry) (life : List Item) (line : Result Ask Refusal)
            → StandsFor account registry self.old life → Drafted account registry life line Change.Close
            → StandsFor account registry self.new (after_line life line) }
    {
        match &mut self.tracing {
            Some(tracing) => tracing.close(),
            None => self.closed = true,
        }
        self.lines = self.lines.saturating_add(1);
    }
}
