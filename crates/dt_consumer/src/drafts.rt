//! The drafts of a consumer's lines.
ghost use Rattle.std.specs.Prelude.{◌≡◌, ◌≤◌, ◌+◌, ◌<◌, List, Option, Result, Ok, Err, Some, None, true, false, length, map, All, IfOk, IfErr, MatchOption, is_some, vec_len};
ghost use Rattle.dt_aggstore.specs.EntryNames.{form_of_row};
ghost use Rattle.dt_aggstore.specs.TableOf.{table_of};
ghost use Rattle.dt_cred.specs.declared.account.Account.{Account};
ghost use Rattle.dt_machine.specs.Registry.{Registry};
ghost use Rattle.dt_lang.specs.Program.{form_of_program};
ghost use Rattle.dt_lang.specs.Reads as lang;
ghost use Rattle.dt_ecb.specs.Ecbs.{added};
ghost use Rattle.dt_ecb.specs.Enable as verdict;
ghost use Rattle.dt_ecb.specs.Enable.{IsVerdict};
ghost use Rattle.dt_ecb.specs.Forms.{form_of_ecb, shapes_of};
ghost use Rattle.dt_ecb.specs.declared.limits.TheConstants.{ECBS_MAX};
ghost use Rattle.dt_life.specs.Answer.{answer_of};
ghost use Rattle.dt_life.specs.Ask.{ask_of, line_asks, reading_of, description_of, agg, enable, go, snap, status, list, describe, option, stop, trunc, close};
ghost use Rattle.dt_life.specs.Options.{setting_of};
ghost use Rattle.dt_consumer.specs.Keeps.{is_quiet, tally_after};
ghost use Rattle.dt_consumer.specs.Tallies.{IsTallied};
ghost use Rattle.dt_life.specs.declared.phase.Phase.TheVariants.{Inactive};
ghost use Rattle.std.specs.String.{string_bytes};
ghost use Rattle.std.specs.Option.{option_copied};
ghost use Rattle.dt_consumer.specs.Draft.{CanApply, IsDraftOf};
ghost use Rattle.dt_life.specs.Life.{Item, set_up, phase, next_epid, is_inactive, is_readable, tracing_steps};
ghost use Rattle.dt_life.specs.Refusal.{IsNoCommand};
ghost use Rattle.dt_life.specs.Reply.{Accepted, all_aggdrops, all_dyndrops, all_errors, all_specdrops, seen_firings};
ghost use Rattle.dt_life.specs.Variables.{specfails_in};
ghost use Rattle.dt_life.specs.Stores.{stores_in};
ghost use Rattle.dt_consumer.specs.StandsFor.{StandsFor, MayAsk};
ghost use Rattle.dt_life.specs.declared.reply.Reply.{Reply};

use crate::consumer::Consumer;
use crate::draft::{Change, Draft};
use crate::processor::Processor;
use crate::tracing::Tracing;
use dt_aggstore::{AggStore, Aggregation, Row, drops_go_on};
use dt_buffer::one_shown;
use dt_ecb::{Ecb, enable, one_verdict};
use dt_lang::{ParseProgram, Program, one_reading};
use dt_life::{
    Command, LINES_MAX, NamedAggregation, OptionValue, Phase, Refusal, Reply, end_reserve,
    placed_after, reply_to_describe, reply_to_list,
};
use dt_machine::Machine;
use std::alloc::{AllocError, Global};

impl Consumer {
    /// Whether tracing began, or the session was closed, so that nothing more is enabled.
    fn is_late(&self) -> bool
        ensures late { (account : Account) (registry : Registry) (life : List Item)
            → StandsFor account registry self.now life → result ≡ true
            → is_inactive (phase account registry life) ≡ false }
        ensures early { (account : Account) (registry : Registry) (life : List Item)
            → StandsFor account registry self.now life → result ≡ false → phase account registry life ≡ Inactive }
        ensures untraced { result ≡ false → self.now.tracing ≡ None }
    {
        self.tracing.is_some() || self.closed
    }

    /// The reply to a line and all that the line will change. The call itself changes nothing, and takes all the
    /// memory that the change needs: an error, which comes when memory runs out, leaves everything as it was.
    ///
    /// The line is a command, or the refusal of a line that is none: [`Refusal::Json`], [`Refusal::Request`] or
    /// [`Refusal::LineLong`], and no other. The machine is the one that the consumer was made for.
    pub fn draft(
        &self,
        alloc: Global,
        machine: &Machine,
        line: &Result<Command, Refusal>,
    ) -> Result<Draft, AllocError>
        requires { IfErr line.now IsNoCommand }
        ensures drafted { IfOk result (λ draft. (account : Account) (life : List Item)
            → StandsFor account machine.now.registry self.now life
            → IsDraftOf account machine.now.registry life (line_asks line.now) draft) }
        ensures fits { IfOk result (λ draft. CanApply self.now draft) }
    {
        // a line over the quota is answered before anything else is asked of it
        if self.lines >= LINES_MAX {
            return Ok(Draft::over());
        }
        match line {
            Err(refusal) => Ok(Draft::refused(*refusal)),
            Ok(command) => self.draft_command(alloc, machine, command),
        }
    }

    /// The draft of a command within the quota.
    fn draft_command(
        &self,
        alloc: Global,
        machine: &Machine,
        command: &Command,
    ) -> Result<Draft, AllocError>
        ensures drafted { IfOk result (λ draft. (account : Account) (life : List Item)
            → MayAsk account machine.now.registry self.now life
            → IsDraftOf account machine.now.registry life (Ok (ask_of command.now)) draft) }
        ensures fits { IfOk result (λ draft. CanApply self.now draft) }
    {
        match command {
            Command::Option { name, value } => Ok(self.draft_option(name, value)),
            Command::Enable { text } => self.draft_enable(alloc, machine, text.as_bytes()),
            Command::Go => self.draft_go(alloc, machine),
            Command::Stop => Ok(self.draft_stop()),
            Command::Snap { cpu } => self.draft_snap(alloc, machine, *cpu),
            Command::Agg { name } => self.draft_agg(alloc, name.as_bytes()),
            Command::Trunc { name } => Ok(self.draft_trunc(name.as_bytes())),
            Command::Status => self.draft_status(alloc, machine),
            Command::List { probe } => self.draft_list(alloc, machine, probe.as_bytes()),
            Command::Describe { epid } => Ok(self.draft_describe(machine, *epid)),
            Command::Close => Ok(self.draft_close()),
        }
    }

    /// The draft of an `option`.
    fn draft_option(&self, name: &String, value: &OptionValue) -> Draft
        ensures drafted { (account : Account) (registry : Registry) (life : List Item) → MayAsk account registry self.now life
            → IsDraftOf account registry life
            (Ok (option (setting_of (string_bytes name.now) value.now))) result }
        ensures fits { CanApply self.now result }
    {
        // options hold for the whole of tracing
        if self.is_late() {
            return Draft::refused(Refusal::Busy);
        }
        match self.options.set(name.as_str(), value) {
            Some(options) => Draft {
                reply: Reply::Done,
                change: Change::Set { options },
            },
            None => Draft::refused(Refusal::Option),
        }
    }

    /// The draft of an `enable`.
    fn draft_enable(
        &self,
        alloc: Global,
        machine: &Machine,
        text: &[u8],
    ) -> Result<Draft, AllocError>
        ensures drafted { IfOk result (λ draft. (account : Account) (life : List Item)
            → MayAsk account machine.now.registry self.now life
            → IsDraftOf account machine.now.registry life (Ok (enable (reading_of text.now))) draft) }
        ensures fits { IfOk result (λ draft. CanApply self.now draft) }
    {
        // after tracing began nothing more is enabled, and the text isn't even read
        if self.is_late() {
            return Ok(Draft::refused(Refusal::Busy));
        }
        one_reading();
        match Program::parse(alloc, text) {
            Ok(program) => self.draft_program(alloc, machine, program),
            Err(fault) => match Refusal::of_text(fault) {
                Some(refusal) => Ok(Draft::refused(refusal)),
                None => Err(AllocError),
            },
        }
    }

    /// The draft of an `enable` of a program, asked in time.
    fn draft_program(
        &self,
        alloc: Global,
        machine: &Machine,
        program: Program,
    ) -> Result<Draft, AllocError>
        requires { self.now.tracing ≡ None }
        // for each life after which it may ask and is inactive: the draft of an `enable` of this program
        ensures drafted { IfOk result (λ draft. (account : Account) (life : List Item)
            → MayAsk account machine.now.registry self.now life
            → phase account machine.now.registry life ≡ Inactive
            → IsDraftOf account machine.now.registry life (Ok (enable (lang.program (form_of_program program))))
            draft) }
        ensures fits { IfOk result (λ draft. CanApply self.now draft) }
    {
        one_verdict();
        let first = self.programs.ecbs().len() as u32 + 1;
        let shapes = &self.programs.shapes;
        match enable(alloc, &self.account, machine, &program, shapes, first) {
            Ok(ecbs) => self.draft_enabled(alloc, program, ecbs, first),
            Err(fault) => match Refusal::of_program(fault) {
                Some(refusal) => Ok(Draft::refused(refusal)),
                None => Err(AllocError),
            },
        }
    }

    /// The draft of an `enable` that makes these ECBs. They are made beside the consumer's own, so a program that is
    /// refused, also where memory runs out, leaves nothing enabled.
    fn draft_enabled(
        &self,
        alloc: Global,
        program: Program,
        ecbs: Vec<Ecb>,
        first: u32,
    ) -> Result<Draft, AllocError>
        requires untraced { self.now.tracing ≡ None }
        requires each { length program.clauses.items ≤ length ecbs.items }
        requires room { vec_len self.now.programs.ecbs + length ecbs.items ≤ ECBS_MAX }
        requires placed { All (λ ecb. ecb.clause < length program.clauses.items) ecbs.items }
        // for each life of which it stands inactive: where the program is accepted, and these are the ECBs that it adds
        ensures drafted { IfOk result (λ draft. (account : Account) (registry : Registry) (life : List Item)
            → MayAsk account registry self.now life
            → phase account registry life ≡ Inactive
            → first ≡ next_epid account registry (set_up account registry life)
            → IsVerdict account registry (shapes_of self.now.programs.shapes) first
            (form_of_program program) verdict.enabled
            → map (form_of_ecb (form_of_program program)) ecbs.items
            ≡ added account registry first (form_of_program program)
            → IsDraftOf account registry life (Ok (enable (lang.program (form_of_program program))))
            draft) }
        ensures fits { IfOk result (λ draft. CanApply self.now draft) }
    {
        let shapes = self.programs.shapes.after(alloc, &program)?;
        let room = self
            .programs
            .room_for(alloc, program.clauses.len(), ecbs.len())?;
        let ecbs = placed_after(alloc, self.programs.clauses().len(), &ecbs)?;
        let Program { clauses } = program;
        Ok(Draft {
            reply: Reply::Enabled {
                count: ecbs.len() as u32,
                first,
            },
            change: Change::Enable {
                clauses,
                ecbs,
                shapes,
                room,
            },
        })
    }

    /// The draft of a `go`: the room for tracing, and what is taken at BEGIN.
    fn draft_go(&self, alloc: Global, machine: &Machine) -> Result<Draft, AllocError>
        ensures drafted { IfOk result (λ draft. (account : Account) (life : List Item)
            → MayAsk account machine.now.registry self.now life
            → IsDraftOf account machine.now.registry life (Ok go) draft) }
        ensures fits { IfOk result (λ draft. CanApply self.now draft) }
    {
        // tracing begins once
        if self.is_late() {
            return Ok(Draft::refused(Refusal::Busy));
        }
        // under fill END's records always fit: a `go` without room for them on processor 0 is refused
        let (account, options) = (&self.account, self.options);
        let (clauses, ecbs) = (self.programs.clauses(), self.programs.ecbs());
        let Some(reserve) = end_reserve(options, clauses, ecbs) else {
            return Ok(Draft::refused(Refusal::Limit));
        };
        let begun = Tracing::begin(alloc, account, machine, options, &self.programs, reserve)?;
        let tracing = Box::new(alloc, begun)?;
        Ok(Draft {
            reply: Reply::Done,
            change: Change::Go { tracing },
        })
    }

    /// The draft of a `stop`.
    fn draft_stop(&self) -> Draft
        ensures drafted { (account : Account) (registry : Registry) (life : List Item) → MayAsk account registry self.now life
            → IsDraftOf account registry life (Ok stop) result }
        ensures fits { CanApply self.now result }
    {
        match self.phase() {
            Phase::Active => Draft {
                reply: Reply::Done,
                change: Change::Stop,
            },
            Phase::Inactive | Phase::Stopped(_) => Draft::refused(Refusal::Busy),
        }
    }

    /// The draft of a `snap`.
    fn draft_snap(&self, alloc: Global, machine: &Machine, cpu: u64) -> Result<Draft, AllocError>
        ensures drafted { IfOk result (λ draft. (account : Account) (life : List Item)
            → MayAsk account machine.now.registry self.now life
            → IsDraftOf account machine.now.registry life (Ok (snap cpu)) draft) }
        ensures fits { IfOk result (λ draft. CanApply self.now draft) }
    {
        // that there is no such processor is told in every phase
        if cpu >= u64::from(machine.cpus()) {
            return Ok(Draft::refused(Refusal::NoCpu));
        }
        let cpu = cpu as u32;
        // before `go` there is nothing to read, and a ring isn't read while it is written
        if !self.options.is_readable(self.phase()) {
            return Ok(Draft::refused(Refusal::Busy));
        }
        Ok(Draft {
            reply: self.shown(alloc, cpu)?,
            change: Change::Snap { cpu: cpu as usize },
        })
    }

    /// What the buffer of a processor shows: nothing where the session was closed before tracing began.
    fn shown(&self, alloc: Global, cpu: u32) -> Result<Reply, AllocError>
        ensures { IfOk result (λ reply. (account : Account) (registry : Registry) (life : List Item)
            → StandsFor account registry self.now life → cpu < registry.cpus
            → Accepted account registry life (snap cpu) (answer_of reply)) }
    {
        // closed before its `go`, the consumer has no buffer, and a `snap` tells of an empty one
        let Some(processor) = self.processor(cpu) else {
            return Ok(Reply::Snapped {
                cpu,
                data: Vec::new(alloc),
                drops: 0,
                filled: false,
            });
        };
        one_shown();
        Ok(Reply::Snapped {
            cpu,
            data: processor.buffer.content(alloc)?,
            drops: processor.buffer.drops(),
            filled: processor.buffer.filled(),
        })
    }

    /// What the consumer has of a processor, where tracing began.
    fn processor(&self, cpu: u32) -> Option<&Processor>
        ensures { (account : Account) (registry : Registry) (life : List Item)
            → StandsFor account registry self.now life → cpu < registry.cpus
            → MatchOption (option_copied result) (is_quiet (set_up account registry life).since ≡ true)
            (IsTallied (tally_after account registry (set_up account registry life)
            (tracing_steps account registry (set_up account registry life)) cpu)) }
    {
        self.tracing.as_ref()?.processors.all.get(cpu as usize)
    }

    /// The draft of an `agg`.
    fn draft_agg(&self, alloc: Global, name: &[u8]) -> Result<Draft, AllocError>
        ensures drafted { IfOk result (λ draft. (account : Account) (registry : Registry) (life : List Item)
            → MayAsk account registry self.now life
            → IsDraftOf account registry life (Ok (agg name.now)) draft) }
        ensures fits { IfOk result (λ draft. CanApply self.now draft) }
    {
        // only a name that an accepted program uses is an aggregation's, whatever the phase
        let Some(named) = NamedAggregation::of(&self.programs.shapes, name) else {
            return Ok(Draft::refused(Refusal::NoAgg));
        };
        let reply = Reply::Aggregated {
            name: named.name,
            function: named.aggregation.function,
            rows: self.table(alloc, named.aggregation)?,
        };
        Ok(Draft {
            reply,
            change: Change::Counted,
        })
    }

    /// The table of an aggregation: without rows where the consumer never traced.
    fn table(&self, alloc: Global, aggregation: Aggregation) -> Result<Vec<Row>, AllocError>
        ensures { IfOk result (λ rows. (account : Account) (registry : Registry) (life : List Item)
            → StandsFor account registry self.now life
            → map form_of_row rows.items ≡ table_of (stores_in account registry
            (set_up account registry life)) aggregation) }
    {
        match &self.tracing {
            Some(tracing) => AggStore::merge_all(alloc, &tracing.processors.stores, aggregation),
            None => Ok(Vec::new(alloc)),
        }
    }

    /// The draft of a `trunc`.
    fn draft_trunc(&self, name: &[u8]) -> Draft
        ensures drafted { (account : Account) (registry : Registry) (life : List Item) → MayAsk account registry self.now life
            → IsDraftOf account registry life (Ok (trunc name.now)) result }
        ensures fits { CanApply self.now result }
    {
        // as for an `agg`, the name must be one that an accepted program uses, in whatever phase
        let Some(named) = NamedAggregation::of(&self.programs.shapes, name) else {
            return Draft::refused(Refusal::NoAgg);
        };
        // before tracing begins nothing was given
        if self.phase() == Phase::Inactive {
            return Draft {
                reply: Reply::Done,
                change: Change::Counted,
            };
        }
        Draft {
            reply: Reply::Done,
            change: Change::Trunc {
                aggregation: named.aggregation,
            },
        }
    }

    /// The draft of a `status`.
    fn draft_status(&self, alloc: Global, machine: &Machine) -> Result<Draft, AllocError>
        ensures drafted { IfOk result (λ draft. (account : Account) (life : List Item)
            → MayAsk account machine.now.registry self.now life
            → IsDraftOf account machine.now.registry life (Ok status) draft) }
        ensures fits { IfOk result (λ draft. CanApply self.now draft) }
    {
        let reply = Reply::Status {
            phase: self.phase(),
            seen: self.seen(),
            errors: self.errors(alloc, machine)?,
            aggdrops: self.aggdrops(alloc, machine)?,
            dyndrops: self.dyndrops(alloc, machine)?,
            specdrops: self.specdrops(alloc, machine)?,
            specfails: self.specfails(),
        };
        Ok(Draft {
            reply,
            change: Change::Counted,
        })
    }

    /// How many firings were seen.
    fn seen(&self) -> u64
        ensures { (account : Account) (registry : Registry) (life : List Item)
            → StandsFor account registry self.now life → result ≡ seen_firings account registry life }
    {
        match &self.tracing {
            Some(tracing) => u64::from(tracing.seen),
            None => 0,
        }
    }

    /// How many clauses a division by zero ended on each processor, since tracing began: none before that.
    fn errors(&self, alloc: Global, machine: &Machine) -> Result<Vec<u64>, AllocError>
        ensures { IfOk result (λ errors. (account : Account) (life : List Item)
            → MayAsk account machine.now.registry self.now life
            → errors.items ≡ all_errors account machine.now.registry life) }
    {
        match &self.tracing {
            Some(tracing) => tracing.errors(alloc),
            None => Ok(vec![in alloc; 0; machine.cpus() as usize]?),
        }
    }

    /// How many values the store of each processor did not keep, since tracing began: none before that.
    fn aggdrops(&self, alloc: Global, machine: &Machine) -> Result<Vec<u64>, AllocError>
        ensures { IfOk result (λ aggdrops. (account : Account) (life : List Item)
            → MayAsk account machine.now.registry self.now life
            → aggdrops.items ≡ all_aggdrops account machine.now.registry life) }
    {
        match &self.tracing {
            Some(tracing) => tracing.processors.aggdrops(alloc),
            None => {
                drops_go_on();
                Ok(vec![in alloc; 0; machine.cpus() as usize]?)
            }
        }
    }

    /// How many assignments to variables found no room on each processor, since tracing began: none before that.
    fn dyndrops(&self, alloc: Global, machine: &Machine) -> Result<Vec<u64>, AllocError>
        ensures { IfOk result (λ dyndrops. (account : Account) (life : List Item)
            → MayAsk account machine.now.registry self.now life
            → dyndrops.items ≡ all_dyndrops account machine.now.registry life) }
    {
        match &self.tracing {
            Some(tracing) => tracing.dyndrops(alloc),
            None => Ok(vec![in alloc; 0; machine.cpus() as usize]?),
        }
    }

    /// How many records speculations dropped on each processor, since tracing began: none before that.
    fn specdrops(&self, alloc: Global, machine: &Machine) -> Result<Vec<u64>, AllocError>
        ensures { IfOk result (λ specdrops. (account : Account) (life : List Item)
            → MayAsk account machine.now.registry self.now life
            → specdrops.items ≡ all_specdrops account machine.now.registry life) }
    {
        match &self.tracing {
            Some(tracing) => tracing.specdrops(alloc),
            None => Ok(vec![in alloc; 0; machine.cpus() as usize]?),
        }
    }

    /// How many draws found all identifiers in use.
    fn specfails(&self) -> u64
        ensures { (account : Account) (registry : Registry) (life : List Item)
            → StandsFor account registry self.now life
            → result ≡ specfails_in account registry (set_up account registry life) }
    {
        match &self.tracing {
            Some(tracing) => tracing.processors.specs.fails(),
            None => 0,
        }
    }

    /// The draft of a `list`.
    fn draft_list(&self, alloc: Global, machine: &Machine, text: &[u8]) -> Result<Draft, AllocError>
        ensures drafted { IfOk result (λ draft. (account : Account) (life : List Item)
            → MayAsk account machine.now.registry self.now life
            → IsDraftOf account machine.now.registry life (Ok (list (description_of text.now))) draft) }
        ensures fits { IfOk result (λ draft. CanApply self.now draft) }
    {
        Ok(Draft {
            reply: reply_to_list(alloc, &self.account, machine, text)?,
            change: Change::Counted,
        })
    }

    /// The draft of a `describe`.
    fn draft_describe(&self, machine: &Machine, epid: u64) -> Draft
        ensures drafted { (account : Account) (life : List Item) → MayAsk account machine.now.registry self.now life
            → IsDraftOf account machine.now.registry life (Ok (describe epid)) result }
        ensures fits { CanApply self.now result }
    {
        let (clauses, ecbs) = (self.programs.clauses(), self.programs.ecbs());
        Draft {
            reply: reply_to_describe(machine, clauses, ecbs, epid),
            change: Change::Counted,
        }
    }

    /// The draft of a `close`: it is accepted in every phase.
    fn draft_close(&self) -> Draft
        ensures drafted { (account : Account) (registry : Registry) (life : List Item) → MayAsk account registry self.now life
            → IsDraftOf account registry life (Ok close) result }
        ensures fits { CanApply self.now result }
    {
        Draft {
            reply: Reply::Done,
            change: Change::Close,
        }
    }
}
