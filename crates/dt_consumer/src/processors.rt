//! What a consumer has of its processors from its `go` on.
ghost use Rattle.std.specs.Prelude.{◌≡◌, ◌≤◌, vec_len};
ghost use Rattle.dt_aggstore.specs.declared.limits.TheConstants.{STORES_MAX};
ghost use Rattle.dt_speculation.specs.IsAt.{cpus_of};

use crate::committing::end_speculations;
use crate::ecb_lists::EcbList;
use crate::enabled::Enabled;
use crate::processor::Processor;
use crate::programs::Programs;
use crate::scratch::Scratch;
use crate::traced_ecb::TracedEcb;
use crate::uses::Uses;
use dt_aggstore::{AggStore, Aggregation};
use dt_cred::Account;
use dt_ecb::Ecb;
use dt_expr::{EvalFault, Scene};
use dt_lang::Clause;
use dt_life::{Context, END, Options, empty_stores, own_firing, own_process, scene_at};
use dt_locals::Locals;
use dt_machine::Machine;
use dt_record::{TRACED_SIZE, Taken, give_only, record_only, traced_record};
use dt_speculation::{SpecPut, Specs, drops_told};
use std::alloc::{AllocError, Global};

/// What a consumer has of its processors from its `go` on, each with its store of aggregations; and its thread-local variables and its
/// speculations, which are those of all processors.
#[derive(Drop)]
pub(crate) struct Processors {
    pub(crate) all: Vec<Processor>,
    pub(crate) stores: Vec<AggStore>,
    pub(crate) locals: Locals,
    pub(crate) specs: Specs,
    ghost some: { 1 ≤ vec_len all },
    ghost each: { vec_len stores ≡ vec_len all },
    ghost few: { vec_len stores ≤ STORES_MAX },
    ghost parts: { cpus_of specs ≡ vec_len all },
}

impl Processors {
    ghost use Rattle.std.specs.Prelude.{◌≡◌, ◌+◌, ◌-◌, ◌<◌, ◌==◌, ℕ, Bool, true, false, Some, None, List, [], ◌∷◌, ◌++◌, All, IfOk, IfSome, IsSomeAnd, length, map, slice_get, vec_len, if◌then◌else◌};
    ghost use Rattle.dt_aggstore.specs.Chosen.{drops};
    ghost use Rattle.dt_aggstore.specs.History as stores;
    ghost use Rattle.dt_aggstore.specs.declared.limits.TheConstants.{ADDED_LIMIT};
    ghost use Rattle.std.specs.List.{range_with_len};
    ghost use Rattle.dt_buffer.specs.History.{of_end};
    ghost use Rattle.dt_buffer.specs.Shows.{EndLast};
    ghost use Rattle.dt_buffer.specs.declared.limits.TheConstants.{DROPS_LIMIT};
    ghost use Rattle.dt_consumer.specs.Counts.{AtMost, COMES_BY_ONE, COMES_MAX, FailsAtMost, GIVES_MAX};
    ghost use Rattle.dt_consumer.specs.Enabling.{IsEnabledBy};
    ghost use Rattle.dt_consumer.specs.Keeps.{AreAfter};
    ghost use Rattle.dt_consumer.specs.Uses.{AreUses, form_of_uses, given_of, with_given};
    ghost use Rattle.dt_consumer.specs.TracedEcbs.{traced_among, traced_of};
    ghost use Rattle.dt_ecb.specs.declared.parts.Ecb.{Ecb};
    ghost use Rattle.dt_lang.specs.Program.{ClauseForm, form_of_clause};
    ghost use Rattle.dt_consumer.specs.Tallies.{AreTallied, Tally, changed_at, new_tally, with_left, with_outcome, with_records};
    ghost use Rattle.dt_life.specs.Takings.{puts_in};
    ghost use Rattle.dt_cred.specs.declared.account.Account.{Account};
    ghost use Rattle.dt_life.specs.Buffers.{comes_by_steps, reserve_on};
    ghost use Rattle.dt_life.specs.Following.{taking_by, takings_by};
    ghost use Rattle.dt_life.specs.Forms.{form_of_options};
    ghost use Rattle.dt_life.specs.Life.{SetUp, shapes_in};
    ghost use Rattle.dt_life.specs.Takings.{exit_of, first_exit, freed_by, own_context, parts_out};
    ghost use Rattle.dt_life.specs.TracingSteps.{TracingStep, steps_and, takes};
    ghost use Rattle.dt_life.specs.Uses.{AreGiven, GivenAtMost};
    ghost use Rattle.dt_life.specs.declared.limits.TheConstants.{END};
    ghost use Rattle.dt_machine.specs.Context.{form_of_context};
    ghost use Rattle.dt_machine.specs.Registry.{Registry};
    ghost use Rattle.dt_program.specs.declared.clause.TheConstants.{STATEMENTS_MAX};
    ghost use Rattle.dt_expr.specs.Scene.{scene_of};
    ghost use Rattle.dt_locals.specs.LocalsAreAt.{LocalsAreAt};
    ghost use Rattle.dt_record.specs.Forms.{form_of_taken};
    ghost use Rattle.dt_record.specs.Pasts.{TracingPast};
    ghost use Rattle.dt_record.specs.Taking.{only_gives, only_records, taking};
    ghost use Rattle.dt_record.specs.Traced.{traced_variable};
    ghost use Rattle.dt_speculation.specs.History.{SpecPast, specs_then};
    ghost use Rattle.dt_speculation.specs.IsAt.{SpecsAt, fails_of};

    /// As many processors as these, on which nothing was taken. The first has the reserve.
    pub(crate) fn new(
        alloc: Global,
        options: Options,
        reserve: usize,
        cpus: u32,
    ) -> Result<Self, AllocError>
        requires reserve { reserve ≤ options.bufsize }
        requires some { 1 ≤ cpus }
        requires few { cpus ≤ STORES_MAX }
        ensures len { IfOk result (λ processors. vec_len processors.all ≡ cpus) }
        // for each set-up with these options: they are before its first step
        ensures after { IfOk result (λ processors. (account : Account) (registry : Registry) (s : SetUp)
            → form_of_options options ≡ s.options → reserve ≡ reserve_on account registry s 0
            → AreAfter account registry s [] processors) }
        ensures counts { IfOk result (λ processors. All (AtMost 0) processors.all.items) }
        ensures fails { IfOk result (FailsAtMost 0) }
        ensures gives { IfOk result (λ processors. All (GivenAtMost 0) processors.stores.items) }
    {
        Ok(Processors {
            all: Processors::fresh(alloc, options, reserve, cpus)?,
            stores: empty_stores(alloc, options.aggsize, cpus)?,
            locals: Locals::new(alloc, options.dynvarsize)?,
            specs: Specs::new(alloc, options.nspec, options.specsize, cpus as usize)?,
        })
    }

    /// Processors on which nothing was taken.
    fn fresh(
        alloc: Global,
        options: Options,
        reserve: usize,
        cpus: u32,
    ) -> Result<Vec<Processor>, AllocError>
        requires { reserve ≤ options.bufsize }
        ensures len { IfOk result (λ all. vec_len all ≡ cpus) }
        ensures empty { IfOk result (λ all. AreTallied
            (λ cpu. new_tally options.bufpolicy options.bufsize (if cpu == 0 then reserve else 0)) all.items) }
        ensures counts { IfOk result (λ all. All (AtMost 0) all.items) }
    {
        let mut all = Vec::with_capacity(alloc, cpus as usize)?;
        for cpu in 0..cpus {
            let reserve = if cpu == 0 { reserve } else { 0 };
            all.push(Processor::new(alloc, options, reserve)?)?;
        }
        Ok(all)
    }

    /// Takes the ECBs of the probe that fires, on the processor of the firing, up to the first that exits, and answers
    /// its status. It takes no memory.
    ///
    /// Where there is one ECB, whose clause is one `trace` of a variable that names a number, without a predicate, it is taken here, and needs nothing of what
    /// others do.
    #[inline(always)]
    pub(crate) fn take(
        &mut self,
        scratch: &mut Scratch,
        programs: &Programs,
        uses: &[Uses],
        list: &EcbList,
        context: &Context,
    ) -> Option<i64>
        requires same { length uses.now ≡ vec_len programs.now.clauses }
        requires there { context.now.firing.now.cpu < vec_len self.old.all }
        requires placed { All (λ ecb. ecb.clause < vec_len programs.now.clauses) list.now.ecbs.items }
        requires counts { All (AtMost (DROPS_LIMIT - COMES_MAX)) self.old.all.items }
        requires fails { FailsAtMost (DROPS_LIMIT - COMES_MAX) self.old }
        requires gives { All (GivenAtMost (ADDED_LIMIT - GIVES_MAX)) self.old.stores.items }
        ensures len { vec_len self.new.all ≡ vec_len self.old.all }
        ensures counts { (n : ℕ) → All (AtMost n) self.old.all.items → All (AtMost (n + COMES_MAX)) self.new.all.items }
        ensures fails { (n : ℕ) → FailsAtMost n self.old → FailsAtMost (n + COMES_MAX) self.new }
        ensures gives { (n : ℕ) → All (GivenAtMost n) self.old.stores.items → All (GivenAtMost (n + GIVES_MAX)) self.new.stores.items }
        // for each set-up with these clauses, and steps that hold nothing of END: who is after them is then after these ECBs' takings too
        ensures after { (account : Account) (registry : Registry) (s : SetUp) (steps : List TracingStep)
            → map form_of_clause programs.now.clauses.items ≡ s.clauses → AreUses (shapes_in s) s.clauses uses.now
            → list.now.traced ≡ traced_among s.clauses list.now.ecbs.items
            → AreAfter account registry s steps self.old → ((cpu : ℕ) → of_end (comes_by_steps cpu steps) ≡ [])
            → AreAfter account registry s (steps_and steps
            (takings_by false s.options steps (form_of_context context.now) s.clauses list.now.ecbs.items)) self.new }
        ensures exit { (account : Account) (registry : Registry) (s : SetUp) (steps : List TracingStep)
            → map form_of_clause programs.now.clauses.items ≡ s.clauses → AreUses (shapes_in s) s.clauses uses.now
            → list.now.traced ≡ traced_among s.clauses list.now.ecbs.items
            → AreAfter account registry s steps self.old → ((cpu : ℕ) → of_end (comes_by_steps cpu steps) ≡ [])
            → result ≡ first_exit (takings_by false s.options steps (form_of_context context.now) s.clauses list.now.ecbs.items) }
    {
        if let Some(traced) = list.traced {
            self.take_traced(&mut scratch.traced, traced, context);
            return None;
        }
        let enabled = Enabled {
            clauses: programs.clauses(),
            outlines: programs.outlines(),
            uses,
        };
        self.take_each(scratch, &enabled, list, context)
    }

    /// The same, one ECB after another, whatever their clauses do.
    #[inline(always)]
    pub(crate) fn take_each(
        &mut self,
        scratch: &mut Scratch,
        enabled: &Enabled<'_>,
        list: &EcbList,
        context: &Context,
    ) -> Option<i64>
        requires there { context.now.firing.now.cpu < vec_len self.old.all }
        requires placed { All (λ ecb. ecb.clause < length enabled.now.clauses.now) list.now.ecbs.items }
        requires counts { All (AtMost (DROPS_LIMIT - COMES_MAX)) self.old.all.items }
        requires fails { FailsAtMost (DROPS_LIMIT - COMES_MAX) self.old }
        requires gives { All (GivenAtMost (ADDED_LIMIT - GIVES_MAX)) self.old.stores.items }
        ensures len { vec_len self.new.all ≡ vec_len self.old.all }
        ensures counts { (n : ℕ) → All (AtMost n) self.old.all.items → All (AtMost (n + COMES_MAX)) self.new.all.items }
        ensures fails { (n : ℕ) → FailsAtMost n self.old → FailsAtMost (n + COMES_MAX) self.new }
        ensures gives { (n : ℕ) → All (GivenAtMost n) self.old.stores.items → All (GivenAtMost (n + GIVES_MAX)) self.new.stores.items }
        // for each set-up with these clauses, and steps that hold nothing of END: who is after them is then after these ECBs' takings too
        ensures after { (account : Account) (registry : Registry) (s : SetUp) (steps : List TracingStep)
            → IsEnabledBy s enabled.now → AreAfter account registry s steps self.old
            → ((cpu : ℕ) → of_end (comes_by_steps cpu steps) ≡ [])
            → AreAfter account registry s (steps_and steps
            (takings_by false s.options steps (form_of_context context.now) s.clauses list.now.ecbs.items)) self.new }
        ensures exit { (account : Account) (registry : Registry) (s : SetUp) (steps : List TracingStep)
            → IsEnabledBy s enabled.now → AreAfter account registry s steps self.old
            → ((cpu : ℕ) → of_end (comes_by_steps cpu steps) ≡ [])
            → result ≡ first_exit (takings_by false s.options steps (form_of_context context.now) s.clauses list.now.ecbs.items) }
    {
        for ecb in &list.ecbs {
            let exit = self.take_one(scratch, enabled, *ecb, context, false);
            // an exit ends tracing at this firing: the later ECBs of the probe aren't taken
            if exit.is_some() {
                return exit;
            }
        }
        None
    }

    /// Takes END's ECBs, in order of EPID: an exit is passed over. It takes no memory.
    fn take_end(
        &mut self,
        scratch: &mut Scratch,
        enabled: &Enabled<'_>,
        list: &EcbList,
        context: &Context,
    )
        requires there { context.now.firing.now.cpu < vec_len self.old.all }
        requires placed { All (λ ecb. ecb.clause < length enabled.now.clauses.now) list.now.ecbs.items }
        requires counts { All (AtMost (DROPS_LIMIT - COMES_MAX)) self.old.all.items }
        requires fails { FailsAtMost (DROPS_LIMIT - COMES_MAX) self.old }
        requires gives { All (GivenAtMost (ADDED_LIMIT - GIVES_MAX)) self.old.stores.items }
        ensures len { vec_len self.new.all ≡ vec_len self.old.all }
        ensures counts { (n : ℕ) → All (AtMost n) self.old.all.items → All (AtMost (n + COMES_MAX)) self.new.all.items }
        ensures fails { (n : ℕ) → FailsAtMost n self.old → FailsAtMost (n + COMES_MAX) self.new }
        ensures gives { (n : ℕ) → All (GivenAtMost n) self.old.stores.items → All (GivenAtMost (n + GIVES_MAX)) self.new.stores.items }
        ensures after { (account : Account) (registry : Registry) (s : SetUp) (steps : List TracingStep)
            → IsEnabledBy s enabled.now → AreAfter account registry s steps self.old
            → AreAfter account registry s (steps_and steps
            (takings_by true s.options steps (form_of_context context.now) s.clauses list.now.ecbs.items)) self.new }
    {
        for ecb in &list.ecbs {
            let _exit = self.take_one(scratch, enabled, *ecb, context, true);
        }
    }

    /// Fires END: takes its ECBs, on the first processor, where an exit is passed over. It takes no memory.
    ///
    /// Never inlined: what it lends its takings would be made room for at each firing.
    #[inline(never)]
    pub(crate) fn fire_end(
        &mut self,
        account: &Account,
        machine: &Machine,
        programs: &Programs,
        uses: &[Uses],
        list: &EcbList,
    )
        requires same { length uses.now ≡ vec_len programs.now.clauses }
        requires placed { All (λ ecb. ecb.clause < vec_len programs.now.clauses) list.now.ecbs.items }
        requires counts { All (AtMost (DROPS_LIMIT - COMES_MAX)) self.old.all.items }
        requires fails { FailsAtMost (DROPS_LIMIT - COMES_MAX) self.old }
        requires gives { All (GivenAtMost (ADDED_LIMIT - GIVES_MAX)) self.old.stores.items }
        ensures len { vec_len self.new.all ≡ vec_len self.old.all }
        ensures counts { (n : ℕ) → All (AtMost n) self.old.all.items → All (AtMost (n + COMES_MAX)) self.new.all.items }
        ensures fails { (n : ℕ) → FailsAtMost n self.old → FailsAtMost (n + COMES_MAX) self.new }
        ensures gives { (n : ℕ) → All (GivenAtMost n) self.old.stores.items → All (GivenAtMost (n + GIVES_MAX)) self.new.stores.items }
        // who is after some steps is then after the takings of all of END's ECBs too
        ensures after { (s : SetUp) (steps : List TracingStep)
            → map form_of_clause programs.now.clauses.items ≡ s.clauses → AreUses (shapes_in s) s.clauses uses.now
            → AreAfter account.now machine.now.registry s steps self.old
            → IsSomeAnd (own_context account.now machine.now.registry END) (λ m.
            AreAfter account.now machine.now.registry s (steps_and steps
            (takings_by true s.options steps m s.clauses list.now.ecbs.items)) self.new) }
    {
        let enabled = Enabled {
            clauses: programs.clauses(),
            outlines: programs.outlines(),
            uses,
        };
        let process = own_process(account);
        let firing = own_firing(END);
        let context = Context {
            probe: machine.probe(END).unwrap(),
            process: &process,
            firing: &firing,
        };
        let mut scratch = Scratch::new();
        self.take_end(&mut scratch, &enabled, list, &context);
    }

    /// Takes one ECB, and answers the status that it exits with, if it exits. A clause that does nothing but record, and one that does
    /// nothing but give to aggregations, is taken here, and needs none of the questions that others do.
    #[inline(always)]
    fn take_one(
        &mut self,
        scratch: &mut Scratch,
        enabled: &Enabled<'_>,
        ecb: Ecb,
        context: &Context,
        in_end: bool,
    ) -> Option<i64>
        requires there { context.now.firing.now.cpu < vec_len self.old.all }
        requires placed { ecb.clause < length enabled.now.clauses.now }
        requires counts { All (AtMost (DROPS_LIMIT - COMES_BY_ONE)) self.old.all.items }
        requires fails { FailsAtMost (DROPS_LIMIT - COMES_BY_ONE) self.old }
        requires gives { All (GivenAtMost (ADDED_LIMIT - STATEMENTS_MAX)) self.old.stores.items }
        ensures len { vec_len self.new.all ≡ vec_len self.old.all }
        ensures counts { (n : ℕ) → All (AtMost n) self.old.all.items → All (AtMost (n + COMES_BY_ONE)) self.new.all.items }
        ensures fails { (n : ℕ) → FailsAtMost n self.old → FailsAtMost (n + COMES_BY_ONE) self.new }
        ensures gives { (n : ℕ) → All (GivenAtMost n) self.old.stores.items → All (GivenAtMost (n + STATEMENTS_MAX)) self.new.stores.items }
        ensures after { (account : Account) (registry : Registry) (s : SetUp) (steps : List TracingStep)
            → IsEnabledBy s enabled.now → AreAfter account registry s steps self.old
            → (in_end ≡ false → (cpu : ℕ) → of_end (comes_by_steps cpu steps) ≡ [])
            → AreAfter account registry s
            (steps ++ takes (taking_by in_end s.options steps (form_of_context context.now) s.clauses ecb) ∷ []) self.new }
        ensures exit { (account : Account) (registry : Registry) (s : SetUp) (steps : List TracingStep)
            → IsEnabledBy s enabled.now → AreAfter account registry s steps self.old
            → result ≡ exit_of (taking_by in_end s.options steps (form_of_context context.now) s.clauses ecb) }
    {
        let outline = enabled.outlines[ecb.clause];
        if !outline.only_records && !outline.only_gives {
            return self.take_whole(scratch, enabled, ecb, context, in_end);
        }
        let clause = &enabled.clauses[ecb.clause];
        let scene = scene_at(context, ecb.epid);
        let cpu = context.firing.cpu as usize;
        if outline.only_records {
            self.record_one(scratch, ecb.epid, clause, &scene, cpu, in_end);
        } else {
            self.give_one(scratch, clause, &enabled.uses[ecb.clause], &scene, cpu);
        }
        None
    }

    /// Takes an ECB whose clause is one `trace` of a variable that names a number, without a predicate. Its record is made in the room that is lent.
    #[inline(always)]
    fn take_traced(&mut self, record: &mut [u8; TRACED_SIZE], traced: TracedEcb, context: &Context)
        requires there { context.now.firing.now.cpu < vec_len self.old.all }
        requires counts { All (AtMost (DROPS_LIMIT - COMES_BY_ONE)) self.old.all.items }
        ensures len { vec_len self.new.all ≡ vec_len self.old.all }
        ensures counts { (n : ℕ) → All (AtMost n) self.old.all.items → All (AtMost (n + COMES_BY_ONE)) self.new.all.items }
        ensures locals { self.new.locals ≡ self.old.locals }
        ensures specs { self.new.specs ≡ self.old.specs }
        ensures stores { self.new.stores ≡ self.old.stores }
        // for each set-up, and each ECB of which this is so
        ensures after { (account : Account) (registry : Registry) (s : SetUp) (steps : List TracingStep) (ecb : Ecb)
            → traced_of s.clauses ecb ≡ Some traced → AreAfter account registry s steps self.old
            → ((cpu : ℕ) → of_end (comes_by_steps cpu steps) ≡ []) → AreAfter account registry s
            (steps ++ takes (taking_by false s.options steps (form_of_context context.now) s.clauses ecb) ∷ []) self.new }
        ensures exit { (account : Account) (registry : Registry) (s : SetUp) (steps : List TracingStep) (ecb : Ecb)
            → traced_of s.clauses ecb ≡ Some traced
            → exit_of (taking_by false s.options steps (form_of_context context.now) s.clauses ecb) ≡ None }
    {
        let scene = scene_at(context, traced.epid);
        self.trace_one(record, traced, &scene, context.firing.cpu as usize);
    }

    /// Puts the record of an ECB that traces a variable into the processor's buffer.
    ///
    /// The record is made in room that is lent, and not here: of its own bytes the compiler would know that they lie in no buffer, and would copy them by a call whose first
    /// read waits until both writes before it are done.
    #[inline(always)]
    fn trace_one(
        &mut self,
        record: &mut [u8; TRACED_SIZE],
        traced: TracedEcb,
        scene: &Scene,
        cpu: usize,
    )
        requires there { cpu < vec_len self.old.all }
        requires counts { All (AtMost (DROPS_LIMIT - 1)) self.old.all.items }
        ensures len { vec_len self.new.all ≡ vec_len self.old.all }
        ensures stores { self.new.stores ≡ self.old.stores }
        ensures locals { self.new.locals ≡ self.old.locals }
        ensures specs { self.new.specs ≡ self.old.specs }
        ensures counts { (n : ℕ) → All (AtMost n) self.old.all.items → All (AtMost (n + 1)) self.new.all.items }
        // for each clause that traces the variable
        ensures recorded { (clause : ClauseForm) (past : TracingPast) (tallies : ℕ → Tally)
            → traced_variable clause ≡ Some traced.variable
            → EndLast (tallies cpu).came false → AreTallied tallies self.old.all.items → AreTallied
            (changed_at tallies cpu (with_outcome false (taking traced.epid (scene_of scene.now) past clause).outcome
            (tallies cpu))) self.new.all.items }
    {
        *record = traced_record(traced.epid, traced.variable, scene);
        let _put = self.all[cpu].buffer.put(record, false);
    }

    /// Takes one ECB, whatever its clause does: what it assigns and draws is done, its record goes into the
    /// processor's buffer or to a speculation, then its values into the store, and then speculations end.
    #[inline(always)]
    fn take_whole(
        &mut self,
        scratch: &mut Scratch,
        enabled: &Enabled<'_>,
        ecb: Ecb,
        context: &Context,
        in_end: bool,
    ) -> Option<i64>
        requires there { context.now.firing.now.cpu < vec_len self.old.all }
        requires placed { ecb.clause < length enabled.now.clauses.now }
        requires counts { All (AtMost (DROPS_LIMIT - COMES_BY_ONE)) self.old.all.items }
        requires fails { FailsAtMost (DROPS_LIMIT - COMES_BY_ONE) self.old }
        requires gives { All (GivenAtMost (ADDED_LIMIT - STATEMENTS_MAX)) self.old.stores.items }
        ensures len { vec_len self.new.all ≡ vec_len self.old.all }
        ensures counts { (n : ℕ) → All (AtMost n) self.old.all.items → All (AtMost (n + COMES_BY_ONE)) self.new.all.items }
        ensures fails { (n : ℕ) → FailsAtMost n self.old → FailsAtMost (n + COMES_BY_ONE) self.new }
        ensures gives { (n : ℕ) → All (GivenAtMost n) self.old.stores.items → All (GivenAtMost (n + STATEMENTS_MAX)) self.new.stores.items }
        ensures after { (account : Account) (registry : Registry) (s : SetUp) (steps : List TracingStep)
            → IsEnabledBy s enabled.now → AreAfter account registry s steps self.old
            → (in_end ≡ false → (cpu : ℕ) → of_end (comes_by_steps cpu steps) ≡ [])
            → AreAfter account registry s
            (steps ++ takes (taking_by in_end s.options steps (form_of_context context.now) s.clauses ecb) ∷ []) self.new }
        ensures exit { (account : Account) (registry : Registry) (s : SetUp) (steps : List TracingStep)
            → IsEnabledBy s enabled.now → AreAfter account registry s steps self.old
            → result ≡ exit_of (taking_by in_end s.options steps (form_of_context context.now) s.clauses ecb) }
    {
        let cpu = context.firing.cpu as usize;
        let clause = &enabled.clauses[ecb.clause];
        let outline = enabled.outlines[ecb.clause];
        let scene = scene_at(context, ecb.epid);
        let dropped = self.locals.drops();
        let taken = scratch.left.take_known(
            ecb.epid,
            clause,
            outline.leaves_record,
            &scene,
            &mut self.locals,
            &mut self.specs,
        );
        // the count of drops never falls: by how much it rose was dropped on this processor
        self.all[cpu].count_dropped(self.locals.drops().saturating_sub(dropped));
        match taken {
            Ok(true) => {
                self.put_record(&scratch.left, cpu, in_end);
                enabled.uses[ecb.clause].give(
                    &mut self.stores[cpu],
                    &mut scratch.key,
                    &scratch.left.values,
                );
                end_speculations(&mut self.specs, &mut self.all, &scratch.left.ends, in_end);
                scratch.left.exit
            }
            Ok(false) => None,
            Err(EvalFault::DivZero) => {
                self.all[cpu].errors += 1;
                None
            }
        }
    }

    /// Takes a clause that does nothing but record: its record goes into the processor's buffer.
    #[inline(always)]
    fn record_one(
        &mut self,
        scratch: &mut Scratch,
        epid: u32,
        clause: &Clause,
        scene: &Scene,
        cpu: usize,
        in_end: bool,
    )
        requires there { cpu < vec_len self.old.all }
        requires bare { only_records (form_of_clause clause.now).statements ≡ true }
        requires counts { All (AtMost (DROPS_LIMIT - 1)) self.old.all.items }
        ensures len { vec_len self.new.all ≡ vec_len self.old.all }
        ensures stores { self.new.stores ≡ self.old.stores }
        ensures locals { self.new.locals ≡ self.old.locals }
        ensures specs { self.new.specs ≡ self.old.specs }
        ensures counts { (n : ℕ) → All (AtMost n) self.old.all.items → All (AtMost (n + 1)) self.new.all.items }
        ensures recorded { (past : TracingPast) (tallies : ℕ → Tally) → LocalsAreAt past.locals self.old.locals
            → EndLast (tallies cpu).came in_end → AreTallied tallies self.old.all.items → AreTallied
            (changed_at tallies cpu (with_outcome in_end (taking epid (scene_of scene.now) past (form_of_clause clause.now)).outcome
            (tallies cpu))) self.new.all.items }
    {
        match record_only(&mut scratch.record, epid, clause, scene, &self.locals) {
            Ok(true) => {
                let _put = self.all[cpu].buffer.put(&scratch.record, in_end);
            }
            Ok(false) => {}
            Err(EvalFault::DivZero) => self.all[cpu].errors += 1,
        }
    }

    /// Takes a clause that does nothing but give to aggregations: its values go into the processor's store.
    #[inline(always)]
    fn give_one(
        &mut self,
        scratch: &mut Scratch,
        clause: &Clause,
        uses: &Uses,
        scene: &Scene,
        cpu: usize,
    )
        requires there { cpu < vec_len self.old.all }
        requires bare { only_gives (form_of_clause clause.now).statements ≡ true }
        requires counts { All (AtMost (DROPS_LIMIT - 1)) self.old.all.items }
        requires gives { All (GivenAtMost (ADDED_LIMIT - STATEMENTS_MAX)) self.old.stores.items }
        ensures len { vec_len self.new.all ≡ vec_len self.old.all }
        ensures locals { self.new.locals ≡ self.old.locals }
        ensures specs { self.new.specs ≡ self.old.specs }
        ensures counts { (n : ℕ) → All (AtMost n) self.old.all.items → All (AtMost (n + 1)) self.new.all.items }
        ensures gives { (n : ℕ) → All (GivenAtMost n) self.old.stores.items → All (GivenAtMost (n + STATEMENTS_MAX)) self.new.stores.items }
        // whatever the clause's EPID is
        ensures given { (epid : ℕ) (past : TracingPast) (pasts : ℕ → stores.Past) → LocalsAreAt past.locals self.old.locals
            → AreGiven pasts self.old.stores.items
            → AreGiven (with_given pasts cpu (given_of (form_of_uses uses.now)
            (taking epid (scene_of scene.now) past (form_of_clause clause.now)).outcome)) self.new.stores.items }
        ensures counted { (epid : ℕ) (in_end : Bool) (past : TracingPast) (tallies : ℕ → Tally)
            → LocalsAreAt past.locals self.old.locals → AreTallied tallies self.old.all.items → AreTallied
            (changed_at tallies cpu (with_outcome in_end (taking epid (scene_of scene.now) past (form_of_clause clause.now)).outcome
            (tallies cpu))) self.new.all.items }
    {
        match give_only(&mut scratch.left.values, clause, scene, &self.locals) {
            Ok(true) => uses.give(
                &mut self.stores[cpu],
                &mut scratch.key,
                &scratch.left.values,
            ),
            Ok(false) => {}
            Err(EvalFault::DivZero) => {
                let processor = &mut self.all[cpu];
                processor.errors += 1;
            }
        }
    }

    /// Puts the record that a clause left, if it left one, into a processor's buffer, or under the identifier that it is directed to.
    #[inline(always)]
    fn put_record(&mut self, left: &Taken, cpu: usize, in_end: bool)
        requires there { cpu < vec_len self.old.all }
        requires counts { All (AtMost (DROPS_LIMIT - 1)) self.old.all.items }
        ensures len { vec_len self.new.all ≡ vec_len self.old.all }
        ensures stores { self.new.stores ≡ self.old.stores }
        ensures locals { self.new.locals ≡ self.old.locals }
        ensures counts { (n : ℕ) → All (AtMost n) self.old.all.items → All (AtMost (n + 1)) self.new.all.items }
        ensures fails { fails_of self.new.specs ≡ fails_of self.old.specs }
        ensures specs { (past : SpecPast) → SpecsAt past self.old.specs
            → SpecsAt (specs_then past (puts_in cpu (form_of_taken left.now))) self.new.specs }
        ensures put { (past : SpecPast) (tallies : ℕ → Tally) → SpecsAt past self.old.specs
            → EndLast (tallies cpu).came in_end → AreTallied tallies self.old.all.items → AreTallied
            (changed_at tallies cpu (with_left in_end cpu past (form_of_taken left.now) (tallies cpu))) self.new.all.items }
    {
        let Some(bytes) = &left.bytes else {
            return;
        };
        let processor = &mut self.all[cpu];
        match left.spec {
            None => {
                let _put = processor.buffer.put(bytes, in_end);
            }
            Some(id) => {
                drops_told();
                if let SpecPut::Dropped = self.specs.put(id, cpu, bytes) {
                    processor.specdrops += 1;
                }
            }
        }
    }

    /// Forgets what was given to an aggregation, on every processor. It takes no memory.
    pub(crate) fn trunc(&mut self, aggregation: Aggregation)
        ensures all { self.new.all ≡ self.old.all }
        ensures locals { self.new.locals ≡ self.old.locals }
        ensures specs { self.new.specs ≡ self.old.specs }
        ensures given { (pasts : ℕ → stores.Past) → AreGiven pasts self.old.stores.items
            → AreGiven (λ cpu. stores.after (pasts cpu) (stores.truncated aggregation)) self.new.stores.items }
        ensures gives { (n : ℕ) → All (GivenAtMost n) self.old.stores.items
            → All (GivenAtMost n) self.new.stores.items }
    {
        for cpu in 0..self.stores.len() {
            self.stores[cpu].trunc(aggregation);
        }
    }

    /// How many values the store of each processor did not keep.
    pub(crate) fn aggdrops(&self, alloc: Global) -> Result<Vec<u64>, AllocError>
        ensures { IfOk result (λ aggdrops. (pasts : ℕ → stores.Past) → AreGiven pasts self.now.stores.items
            → aggdrops.items ≡ map (λ cpu. drops (pasts cpu)) (range_with_len 0 (vec_len self.now.stores))) }
    {
        let mut aggdrops = Vec::new(alloc);
        for store in &self.stores {
            aggdrops.push(store.dropped())?;
        }
        Ok(aggdrops)
    }
}
