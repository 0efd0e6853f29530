//! The machine, and the reading of its file.
ghost use Rattle.std.specs.Prelude.{◌≡◌, ◌≢◌, None, IfOk, IfErr, MatchOption};
ghost use Rattle.std.specs.Option.{option_copied};
ghost use Rattle.serde_json.specs.Data.{Data};
ghost use Rattle.serde_json.specs.View.{view};
ghost use Rattle.dt_machine.specs.Reading.{IsJson, NowhereIfMemory};

use crate::belonging::first_foreign;
use crate::context::Context;
use crate::fault::{FaultNumber, MachineFault};
use crate::found::{FileKey, Part};
use crate::keys::list_at;
use crate::scripts::read_scripts;
use crate::sections::Sections;
use dt_cred::{Account, Firing, Probe, Process};
use serde_json::Value;
use std::alloc::Global;
use std::marker::Model;

/// A machine as its file describes it: its processors, accounts, processes and probes, and for each processor the
/// script of the firings that it will make.
///
/// Contracts see a machine as its `Contents`: the registry, and the scripts. No reader takes memory.
#[derive(Drop)]
pub struct Machine {
    sections: Sections,
    scripts: Vec<Vec<Firing>>,
}

impl Model for Machine {
    ghost use Rattle.dt_machine.specs.Registry.{Contents};

    ghost Value = { Contents };

    ghost use Rattle.dt_machine.specs.Inside.{contents_of, IsSoundInside};

    ghost view = { contents_of };

    ghost invariant = { IsSoundInside };
}

impl Machine {
    ghost use Rattle.dt_machine.specs.Context.{IsContext};
    ghost use Rattle.dt_machine.specs.Registry.{Belongs, IsSound, IsForeign, account_of, process_of, probe_of, firing_at};
    ghost use Rattle.dt_machine.specs.Reading.{IsDescribed, IsFaultOf, UnlessMemory};
    ghost use Rattle.dt_machine.specs.Sections.{IsReady, registry_of, contents_with};

    /// Reads a machine file: a JSON object with the keys `cpus`, `accounts`, `processes`, `probes` and `scripts`.
    ///
    /// The machine is the one that the text describes, and a fault is the first that the text shows: the least
    /// [`FaultNumber`], at the least processor and there the first row, with the first key that is wrong there.
    /// [`FaultNumber::Memory`] alone may come in place of either, where memory is refused. Memory is taken for the JSON
    /// value, which is let go before the last test, and for the machine, which has each firing once, in 240 bytes.
    pub fn read(alloc: Global, text: &[u8]) -> Result<Machine, MachineFault>
        ensures ok { IfOk result (λ machine. IsDescribed text.now machine) }
        ensures sound { IfOk result (λ machine. IsSound machine) }
        ensures memory { IfErr result NowhereIfMemory }
        ensures fault { IfErr result (λ fault. UnlessMemory fault (IsFaultOf text.now fault)) }
    {
        let file = parse(alloc, text)?;
        let sections = Sections::read(alloc, &file)?;
        let scripts = read_scripts(alloc, &sections, list_at(&file, "scripts"))?;
        drop(file);
        match first_foreign(&sections, scripts.as_slice()) {
            Some((cpu, row)) => {
                let firing = Part::Firing {
                    cpu: cpu as usize,
                    row: row as usize,
                };
                Err(MachineFault {
                    number: FaultNumber::Foreign,
                    cpu,
                    row,
                    found: Some(firing.has(FileKey::Pid)),
                })
            }
            None => Ok(Machine::new(sections, scripts)),
        }
    }

    fn new(sections: Sections, scripts: Vec<Vec<Firing>>) -> Machine
        requires sound { IsSound (contents_with (registry_of sections) scripts.items) }
        requires ready { IsReady sections }
        ensures { result ≡ contents_with (registry_of sections) scripts.items }
    {
        Machine { sections, scripts }
    }

    /// How many processors there are, from 1 to [`CPUS_MAX`](crate::CPUS_MAX). They are numbered from 0 on.
    pub fn cpus(&self) -> u32
        ensures value { result ≡ self.now.registry.cpus }
        ensures sound { IsSound self.now }
    {
        self.sections.cpus
    }

    /// The probe of an identifier, if there is one: 1 is `BEGIN`, 2 is `END`, and those of the file follow in its
    /// order.
    pub fn probe(&self, id: u32) -> Option<&Probe>
        ensures value { option_copied result ≡ probe_of self.now.registry id }
        ensures sound { IsSound self.now }
    {
        self.sections.probe(id)
    }

    /// The probes, in the order of their identifiers.
    pub fn probes(&self) -> &[Probe]
        ensures value { result.now ≡ self.now.registry.probes }
        ensures sound { IsSound self.now }
    {
        self.sections.probes.as_slice()
    }

    /// The process of a number, if there is one. It is found in a table.
    pub fn process(&self, pid: u32) -> Option<&Process>
        ensures value { option_copied result ≡ process_of self.now.registry pid }
        ensures sound { IsSound self.now }
    {
        self.sections.process(pid)
    }

    /// The accounts, in the file's order.
    pub fn accounts(&self) -> &[Account]
        ensures value { result.now ≡ self.now.registry.accounts }
        ensures sound { IsSound self.now }
    {
        self.sections.accounts.as_slice()
    }

    /// The account of a name, if there is one.
    pub fn account(&self, name: &[u8]) -> Option<&Account>
        ensures value { option_copied result ≡ account_of self.now.registry name.now }
        ensures sound { IsSound self.now }
    {
        self.sections
            .accounts
            .iter()
            .find(|account| account.name.as_bytes() == name)
    }

    /// The firing at a place of a processor's script, both from 0 on, if there is one.
    pub fn firing(&self, cpu: u32, place: u32) -> Option<&Firing>
        ensures value { option_copied result ≡ firing_at self.now.scripts cpu place }
        ensures sound { IsSound self.now }
    {
        self.scripts.get(cpu as usize)?.get(place as usize)
    }

    /// A firing that belongs to the machine, with the probe and the process that it names: its processor is there, its probe
    /// is one of the file's, its process is there, and it is the process that the probe's `pid` provider names, where the
    /// probe has such a provider. `None` for any other firing.
    pub fn context<'a>(&'a self, firing: &'a Firing) -> Option<Context<'a>>
        ensures value { MatchOption result (IsForeign self.now.registry firing.now)
            (λ context. IsContext self.now.registry context × (context.firing.now ≡ firing.now)) }
        ensures sound { IsSound self.now }
    {
        self.sections.context(firing)
    }

    /// The same of a firing that is known to belong to the machine, as each firing of its scripts does: nothing is asked again, and it costs what the probe and the process cost
    /// to find.
    pub fn context_of<'a>(&'a self, firing: &'a Firing) -> Context<'a>
        requires { Belongs self.now.registry firing.now }
        ensures value { IsContext self.now.registry result × (result.firing.now ≡ firing.now) }
        ensures sound { IsSound self.now }
    {
        self.sections.context_of(firing)
    }
}

/// The value of a text.
fn parse(alloc: Global, text: &[u8]) -> Result<Value, MachineFault>
    ensures ok { IfOk result (λ value. IsJson text.now (view value)) }
    ensures memory { IfErr result NowhereIfMemory }
    ensures fault { IfErr result (λ fault. fault.number ≢ FaultNumber.Memory
        → ((d : Data) → IsJson text.now d → ⊥) × (fault ≡ record { number = FaultNumber.Json; cpu = 0; row = 0; found = None })) }
{
    match Value::from_slice(alloc, text) {
        Ok(value) => Ok(value),
        Err(error) => {
            if error.is_memory() {
                Err(FaultNumber::Memory.nowhere())
            } else {
                Err(FaultNumber::Json.nowhere())
            }
        }
    }
}
