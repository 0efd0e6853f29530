//! The replies to the commands, computed from all that happened.
ghost use Rattle.std.specs.Prelude.{◌≡◌, ◌≤◌, ◌+◌, ◌-◌, ◌*◌, ◌<◌, List, Option, Ok, Some, None, IfOk, length};
ghost use Rattle.dt_cred.specs.declared.account.Account.{Account};
ghost use Rattle.dt_machine.specs.Registry.{Registry};
ghost use Rattle.dt_lang.specs.Program.{form_of_program};
ghost use Rattle.dt_lang.specs.Reads as lang;
ghost use Rattle.dt_ecb.specs.declared.limits.TheConstants.{ECBS_MAX};
ghost use Rattle.dt_aggstore.specs.IsAt.{IsAt};
ghost use Rattle.dt_aggstore.specs.declared.limits.TheConstants.{STORES_MAX};
ghost use Rattle.std.specs.List.{AllZip};
ghost use Rattle.dt_alone.specs.Happened.{left_count};
ghost use Rattle.dt_alone.specs.Runs.{Answers, Has, HasAsked, all_counted};
ghost use Rattle.dt_life.specs.Answer.{answer_of};
ghost use Rattle.dt_life.specs.Ask.{ask_of, reading_of, description_of, agg, enable, go, snap, status, list, describe, option, stop, trunc, close};
ghost use Rattle.dt_life.specs.Buffers.{reserve_on};
ghost use Rattle.dt_life.specs.Life.{Item, SetUp, set_up, phase, is_inactive, is_readable};
ghost use Rattle.dt_life.specs.Options.{setting_of};
ghost use Rattle.dt_life.specs.Reply.{RepliesInQuota, all_aggdrops};
ghost use Rattle.dt_life.specs.Stores.{stores_in};
ghost use Rattle.dt_life.specs.declared.phase.Phase.TheVariants.{Inactive};
ghost use Rattle.std.specs.String.{string_bytes};

use crate::happened::{Happened, StatusCount};
use crate::kept::KeptState;
use crate::runner::Runner;
use crate::shown::shown_on;
use crate::stores::{counts_on, draws_failed, stores_on};
use dt_aggstore::AggStore;
use dt_ecb::{ecbs_go_on, enable, one_verdict, uses_of_both};
use dt_lang::{ParseProgram, Program, one_reading};
use dt_life::{
    BEGIN, Command, End, NamedAggregation, OptionValue, Phase, Refusal, Reply, end_reserve,
    own_firing, own_process, reply_to_describe, reply_to_list,
};
use dt_machine::{Context, Machine};
use std::alloc::{AllocError, Global};

impl Runner {
    /// The reply to a command within the quota, whose line is counted already.
    pub(crate) fn answer(
        &mut self,
        alloc: Global,
        machine: &Machine,
        command: &Command,
    ) -> Result<Reply, AllocError>
        requires room { left_count self.old.since.items + 2 * ECBS_MAX ≤ 2 * ECBS_MAX * (self.old.lines + self.old.seen) }
        ensures { IfOk result (λ reply. (account : Account) (life : List Item)
            → HasAsked account machine.now.registry self.old life
            → Answers account machine.now.registry life (ask_of command.now) reply self.new) }
    {
        match command {
            Command::Option { name, value } => Ok(self.set_option(name, value)),
            Command::Enable { text } => self.enable(alloc, machine, text.as_bytes()),
            Command::Go => self.go(alloc, machine),
            Command::Stop => self.stop(alloc, machine),
            Command::Snap { cpu } => self.snap(alloc, machine, *cpu),
            Command::Agg { name } => self.table(alloc, machine, name.as_bytes()),
            Command::Trunc { name } => self.truncate(name.as_bytes()),
            Command::Status => self.status(alloc, machine),
            Command::List { probe } => self.list(alloc, machine, probe.as_bytes()),
            Command::Describe { epid } => Ok(self.describe(machine, *epid)),
            Command::Close => Ok(self.close()),
        }
    }

    /// Whether tracing has not begun.
    fn is_inactive(&self) -> bool
        ensures { result ≡ is_inactive self.now.phase }
    {
        matches!(self.phase, Phase::Inactive)
    }

    /// Sets an option.
    fn set_option(&mut self, name: &String, value: &OptionValue) -> Reply
        ensures { (account : Account) (registry : Registry) (life : List Item) → HasAsked account registry self.old life
            → Answers account registry life (option (setting_of (string_bytes name.now) value.now)) result self.new }
    {
        // options hold for the whole of tracing
        if !self.is_inactive() {
            return Reply::Refused(Refusal::Busy);
        }
        match self.options.set(name.as_str(), value) {
            Some(options) => {
                self.options = options;
                Reply::Done
            }
            None => Reply::Refused(Refusal::Option),
        }
    }

    /// Enables a text.
    fn enable(&mut self, alloc: Global, machine: &Machine, text: &[u8]) -> Result<Reply, AllocError>
        ensures { IfOk result (λ reply. (account : Account) (life : List Item)
            → HasAsked account machine.now.registry self.old life
            → Answers account machine.now.registry life (enable (reading_of text.now)) reply self.new) }
    {
        // after tracing began nothing more is enabled, and the text isn't even read
        if !self.is_inactive() {
            return Ok(Reply::Refused(Refusal::Busy));
        }
        one_reading();
        match Program::parse(alloc, text) {
            Ok(program) => self.enable_program(alloc, machine, program),
            Err(fault) => match Refusal::of_text(fault) {
                Some(refusal) => Ok(Reply::Refused(refusal)),
                None => Err(AllocError),
            },
        }
    }

    /// Enables a program, asked in time.
    fn enable_program(
        &mut self,
        alloc: Global,
        machine: &Machine,
        program: Program,
    ) -> Result<Reply, AllocError>
        ensures { IfOk result (λ reply. (account : Account) (life : List Item)
            → HasAsked account machine.now.registry self.old life → phase account machine.now.registry life ≡ Inactive
            → Answers account machine.now.registry life (enable (lang.program (form_of_program program))) reply
            self.new) }
    {
        one_verdict();
        ecbs_go_on();
        uses_of_both();
        let programs = &self.programs;
        let first = programs.ecbs.len() as u32 + 1;
        match enable(
            alloc,
            &self.account,
            machine,
            &program,
            &programs.shapes,
            first,
        ) {
            Ok(ecbs) => {
                let shapes = programs.shapes.after(alloc, &program)?;
                let Program { clauses } = program;
                self.programs.extend(alloc, clauses, &ecbs, shapes)?;
                Ok(Reply::Enabled {
                    count: ecbs.len() as u32,
                    first,
                })
            }
            Err(fault) => match Refusal::of_program(fault) {
                Some(refusal) => Ok(Reply::Refused(refusal)),
                None => Err(AllocError),
            },
        }
    }

    /// Begins to trace, where there is room for END's records: BEGIN fires.
    fn go(&mut self, alloc: Global, machine: &Machine) -> Result<Reply, AllocError>
        requires room { left_count self.old.since.items + 2 * ECBS_MAX ≤ 2 * ECBS_MAX * (self.old.lines + self.old.seen) }
        ensures { IfOk result (λ reply. (account : Account) (life : List Item)
            → HasAsked account machine.now.registry self.old life
            → Answers account machine.now.registry life go reply self.new) }
    {
        // tracing begins once
        if !self.is_inactive() {
            return Ok(Reply::Refused(Refusal::Busy));
        }
        // under fill END's records always fit: a `go` without room for them on processor 0 is refused
        let programs = &self.programs;
        if end_reserve(self.options, &programs.clauses, &programs.ecbs).is_none() {
            return Ok(Reply::Refused(Refusal::Limit));
        }
        let process = own_process(&self.account);
        let firing = own_firing(BEGIN);
        let context = Context {
            probe: machine.probe(BEGIN).unwrap(),
            process: &process,
            firing: &firing,
        };
        let kept = KeptState::new(alloc, self.options, machine.cpus())?;
        self.happen(alloc, machine, &context, self.seen, kept)?;
        Ok(Reply::Done)
    }

    /// How many bytes ordinary records may take on the first processor.
    fn room(&self) -> usize
        ensures within { result ≤ self.now.options.bufsize }
        ensures room { (account : Account) (registry : Registry) (s : SetUp) → Has account registry s self.now
            → result ≡ s.options.bufsize - reserve_on account registry s 0 }
    {
        let programs = &self.programs;
        match end_reserve(self.options, &programs.clauses, &programs.ecbs) {
            Some(reserve) => self.options.bufsize - reserve,
            None => 0,
        }
    }

    /// Ends tracing.
    fn stop(&mut self, alloc: Global, machine: &Machine) -> Result<Reply, AllocError>
        requires room { left_count self.old.since.items + 2 * ECBS_MAX ≤ 2 * ECBS_MAX * (self.old.lines + self.old.seen) }
        ensures { IfOk result (λ reply. (account : Account) (life : List Item)
            → HasAsked account machine.now.registry self.old life
            → Answers account machine.now.registry life stop reply self.new) }
    {
        // before the `go` there is nothing to stop, and after the end the first cause stays
        if !matches!(self.phase, Phase::Active) {
            return Ok(Reply::Refused(Refusal::Busy));
        }
        // while it traces they are there
        let Some(kept) = self.kept.take() else {
            return Ok(Reply::Refused(Refusal::Busy));
        };
        self.phase = Phase::Stopped(Some(End::Stop));
        self.fire_end(alloc, machine, kept)?;
        Ok(Reply::Done)
    }

    /// Reads the buffer of a processor.
    fn snap(&mut self, alloc: Global, machine: &Machine, cpu: u64) -> Result<Reply, AllocError>
        requires room { left_count self.old.since.items + 2 * ECBS_MAX ≤ 2 * ECBS_MAX * (self.old.lines + self.old.seen) }
        ensures { IfOk result (λ reply. (account : Account) (life : List Item)
            → HasAsked account machine.now.registry self.old life
            → Answers account machine.now.registry life (snap cpu) reply self.new) }
    {
        // that there is no such processor is told in every phase
        if cpu >= u64::from(machine.cpus()) {
            return Ok(Reply::Refused(Refusal::NoCpu));
        }
        let cpu = cpu as u32;
        // before `go` there is nothing to show, and a ring isn't shown while it is written
        if !self.options.is_readable(self.phase) {
            return Ok(Reply::Refused(Refusal::Busy));
        }
        let room = if cpu == 0 {
            self.room()
        } else {
            self.options.bufsize
        };
        let shown = shown_on(alloc, &self.options, room, &self.since, cpu)?;
        self.since.push(Happened::Snapped { cpu })?;
        Ok(Reply::Snapped {
            cpu,
            data: shown.bytes,
            drops: shown.drops,
            filled: shown.filled,
        })
    }

    /// The table of an aggregation.
    fn table(&self, alloc: Global, machine: &Machine, name: &[u8]) -> Result<Reply, AllocError>
        ensures { IfOk result (λ reply. (account : Account) (life : List Item)
            → Has account machine.now.registry (set_up account machine.now.registry life) self.now
            → RepliesInQuota account machine.now.registry life (Ok (agg name.now)) (answer_of reply)) }
    {
        // only a name that an accepted program uses is an aggregation's, whatever the phase
        let Some(named) = NamedAggregation::of(&self.programs.shapes, name) else {
            return Ok(Reply::Refused(Refusal::NoAgg));
        };
        let stores = self.stores(alloc, machine)?;
        Ok(Reply::Aggregated {
            name: named.name,
            function: named.aggregation.function,
            rows: AggStore::merge_all(alloc, &stores, named.aggregation)?,
        })
    }

    /// The stores of all processors, filled anew.
    fn stores(&self, alloc: Global, machine: &Machine) -> Result<Vec<AggStore>, AllocError>
        ensures few { IfOk result (λ stores. length stores.items ≤ STORES_MAX) }
        ensures stand { IfOk result (λ stores. (account : Account) (s : SetUp)
            → Has account machine.now.registry s self.now
            → AllZip IsAt (stores_in account machine.now.registry s) stores.items) }
    {
        stores_on(alloc, self.options.aggsize, &self.since, machine.cpus())
    }

    /// Truncates an aggregation.
    fn truncate(&mut self, name: &[u8]) -> Result<Reply, AllocError>
        requires room { left_count self.old.since.items + 2 * ECBS_MAX ≤ 2 * ECBS_MAX * (self.old.lines + self.old.seen) }
        ensures { IfOk result (λ reply. (account : Account) (registry : Registry) (life : List Item)
            → HasAsked account registry self.old life
            → Answers account registry life (trunc name.now) reply self.new) }
    {
        // as for an `agg`, the name must be one that an accepted program uses, in whatever phase
        let Some(named) = NamedAggregation::of(&self.programs.shapes, name) else {
            return Ok(Reply::Refused(Refusal::NoAgg));
        };
        // before tracing begins nothing was given
        if !self.is_inactive() {
            self.since.push(Happened::Truncated {
                aggregation: named.aggregation,
            })?;
        }
        Ok(Reply::Done)
    }

    /// Tells the phase and the counts.
    fn status(&self, alloc: Global, machine: &Machine) -> Result<Reply, AllocError>
        ensures { IfOk result (λ reply. (account : Account) (life : List Item)
            → Has account machine.now.registry (set_up account machine.now.registry life) self.now
            → RepliesInQuota account machine.now.registry life (Ok status) (answer_of reply)) }
    {
        Ok(Reply::Status {
            phase: self.phase,
            seen: u64::from(self.seen),
            errors: self.counts(alloc, machine, StatusCount::Failed)?,
            aggdrops: self.aggdrops(alloc, machine)?,
            dyndrops: self.counts(alloc, machine, StatusCount::VariableDropped)?,
            specdrops: self.counts(alloc, machine, StatusCount::RecordDropped)?,
            specfails: draws_failed(&self.since),
        })
    }

    /// How many of them happened on each processor.
    fn counts(
        &self,
        alloc: Global,
        machine: &Machine,
        what: StatusCount,
    ) -> Result<Vec<u64>, AllocError>
        ensures all { IfOk result (λ counts. (account : Account) (life : List Item)
            → Has account machine.now.registry (set_up account machine.now.registry life) self.now
            → counts.items ≡ all_counted account machine.now.registry life what) }
        // there is a processor, to which all that isn't counted by processors is told too
        ensures some { 1 ≤ machine.now.registry.cpus }
    {
        counts_on(alloc, what, &self.since, machine.cpus())
    }

    /// How many values a store of each processor would not keep.
    fn aggdrops(&self, alloc: Global, machine: &Machine) -> Result<Vec<u64>, AllocError>
        ensures { IfOk result (λ aggdrops. (account : Account) (life : List Item)
            → Has account machine.now.registry (set_up account machine.now.registry life) self.now
            → aggdrops.items ≡ all_aggdrops account machine.now.registry life) }
    {
        let mut aggdrops = Vec::new(alloc);
        let stores = stores_on(alloc, self.options.aggsize, &self.since, machine.cpus())?;
        for store in &stores {
            aggdrops.push(store.dropped())?;
        }
        Ok(aggdrops)
    }

    /// Closes the session: tracing stops without END, where it has not stopped.
    fn close(&mut self) -> Reply
        ensures { (account : Account) (registry : Registry) (life : List Item) → HasAsked account registry self.old life
            → Answers account registry life close result self.new }
    {
        if !matches!(self.phase, Phase::Stopped(_)) {
            self.phase = Phase::Stopped(None);
            self.kept = None;
        }
        Reply::Done
    }

    /// Lists the probes of a description.
    fn list(&self, alloc: Global, machine: &Machine, text: &[u8]) -> Result<Reply, AllocError>
        ensures { IfOk result (λ reply. (account : Account) (life : List Item)
            → Has account machine.now.registry (set_up account machine.now.registry life) self.now
            → RepliesInQuota account machine.now.registry life (Ok (list (description_of text.now)))
            (answer_of reply)) }
    {
        reply_to_list(alloc, &self.account, machine, text)
    }

    /// Tells of what the records of an ECB are made.
    fn describe(&self, machine: &Machine, epid: u64) -> Reply
        ensures { (account : Account) (life : List Item)
            → Has account machine.now.registry (set_up account machine.now.registry life) self.now
            → RepliesInQuota account machine.now.registry life (Ok (describe epid)) (answer_of result) }
    {
        let programs = &self.programs;
        reply_to_describe(machine, &programs.clauses, &programs.ecbs, epid)
    }
}
