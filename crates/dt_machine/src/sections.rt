//! What the file says but for its scripts: the registry of a machine, and what is found in it.
ghost use Rattle.std.specs.Prelude.{◌≡◌, ◌↔◌, ◌≤◌, ℕ, IsTrue, IfOk, IfErr, Some, MatchOption, map, length};
ghost use Rattle.std.specs.Option.{option_copied};
ghost use Rattle.serde_json.specs.View.{view};
ghost use Rattle.dt_machine.specs.Reading.{cpus_in, Passes, IsFirstFinding, IsScriptFault, IsFoundOfScripts, AllRightIn};
ghost use Rattle.dt_machine.specs.Rows.{HasRoom, script_rows};
ghost use Rattle.dt_cred.specs.declared.class.Class.TheVariants.{Pid};

use crate::accounts::read_accounts;
use crate::by_pid::ByPid;
use crate::context::Context;
use crate::fault::{FaultNumber, MachineFault};
use crate::found::{FileKey, Part};
use crate::keys::{list_at, unsigned_at};
use crate::limits::{CPUS_MAX, FIRST_PROBE_ID, SCRIPT_MAX};
use crate::probes::read_probes;
use crate::processes::read_processes;
use crate::scripts::first_long;
use crate::shape::shape_fault;
use dt_cred::{Account, Class, Firing, Probe, Process};
use serde_json::Value;
use std::alloc::Global;

/// What the file says but for its scripts.
#[derive(Drop)]
pub(crate) struct Sections {
    pub(crate) cpus: u32,
    pub(crate) accounts: Vec<Account>,
    pub(crate) processes: Vec<Process>,
    pub(crate) by_pid: ByPid,
    pub(crate) probes: Vec<Probe>,
}

impl Sections {
    ghost use Rattle.dt_machine.specs.Context.{IsContext};
    ghost use Rattle.dt_machine.specs.Registry.{Belongs, IsForeign, probe_of, process_of};
    ghost use Rattle.dt_machine.specs.Sections.{AreSections, IsReady, registry_of};
    ghost use Rattle.dt_machine.specs.Reading.{NowhereIfMemory, UnlessMemory};

    /// The sections of a file, or the first fault of those that go before the firings.
    pub(crate) fn read(alloc: Global, file: &Value) -> Result<Sections, MachineFault>
        ensures ok { IfOk result (λ sections. AreSections (view file.now) sections) }
        ensures memory { IfErr result NowhereIfMemory }
        ensures fault { IfErr result (λ fault. UnlessMemory fault (IsFirstFinding (view file.now) fault)) }
    {
        // in the order of the faults' numbers: the first that is found decides
        if let Some(fault) = shape_fault(file) {
            return Err(fault);
        }
        let Some(cpus) = cpus_of(file) else {
            return Err(FaultNumber::Cpus.at_row(0, Part::File.has(FileKey::Cpus)));
        };
        let accounts = read_accounts(alloc, list_at(file, "accounts"))?;
        let (processes, by_pid) = read_processes(alloc, list_at(file, "processes"))?;
        let probes = read_probes(alloc, list_at(file, "probes"), processes.as_slice())?;
        match script_fault(cpus, list_at(file, "scripts")) {
            Some(fault) => Err(fault),
            None => Ok(Sections {
                cpus,
                accounts,
                processes,
                by_pid,
                probes,
            }),
        }
    }

    /// The probe of an identifier: 1 is `BEGIN`, 2 is `END`, and those of the file follow in its order.
    pub(crate) fn probe(&self, id: u32) -> Option<&Probe>
        ensures { option_copied result ≡ probe_of (registry_of self.now) id }
    {
        let probes = self.probes.as_slice();
        // identifiers count from 1, which is `BEGIN`
        if id == 0 {
            return None;
        }
        probes.get(id as usize - 1)
    }

    /// The process of a number.
    pub(crate) fn process(&self, pid: u32) -> Option<&Process>
        requires { IsReady self.now }
        ensures { option_copied result ≡ process_of (registry_of self.now) pid }
    {
        let place = self.by_pid.place_of(pid)?;
        self.processes.as_slice().get(place)
    }

    /// A firing that names a processor, a probe of the file and a process that are here, and at a `pid` provider's probe
    /// the process that this names.
    pub(crate) fn context<'a>(&'a self, firing: &'a Firing) -> Option<Context<'a>>
        requires { IsReady self.now }
        ensures { MatchOption result (IsForeign (registry_of self.now) firing.now)
            (λ context. IsContext (registry_of self.now) context × (context.firing.now ≡ firing.now)) }
    {
        // the machine has that processor, and BEGIN and END are no probes of scripts
        if firing.cpu >= self.cpus || firing.probe < FIRST_PROBE_ID {
            return None;
        }
        let probe = self.probe(firing.probe)?;
        let process = self.process(firing.pid)?;
        if may_fire_in(probe.class, firing.pid) {
            Some(Context {
                probe,
                process,
                firing,
            })
        } else {
            None
        }
    }

    /// The same of a firing that belongs to the machine.
    pub(crate) fn context_of<'a>(&'a self, firing: &'a Firing) -> Context<'a>
        requires ready { IsReady self.now }
        requires belongs { Belongs (registry_of self.now) firing.now }
        ensures { IsContext (registry_of self.now) result × (result.firing.now ≡ firing.now) }
    {
        let place = self.by_pid.known_place(firing.pid);
        Context {
            // identifiers count from 1, which is `BEGIN`
            probe: &self.probes[firing.probe as usize - 1],
            process: &self.processes[place],
            firing,
        }
    }
}

/// Whether a probe of this class can fire in a process: at a `pid` provider only in the one that it names.
fn may_fire_in(class: Class, pid: u32) -> bool
    ensures { IsTrue result ↔ ((traced : ℕ) → class ≡ Pid traced → pid ≡ traced) }
{
    match class {
        Class::Pid(traced) => traced == u128::from(pid),
        Class::Dtrace | Class::Syscall | Class::Profile | Class::Other => true,
    }
}

/// The number of processors, if there is one at least and not too many.
fn cpus_of(file: &Value) -> Option<u32>
    ensures { MatchOption result (Passes FaultNumber.Cpus (view file.now) → ⊥)
        (λ cpus. Passes FaultNumber.Cpus (view file.now) × (cpus_in (view file.now) ≡ Some cpus)) }
{
    match unsigned_at(file, "cpus", None) {
        Some(cpus) if cpus >= 1 && cpus <= u64::from(CPUS_MAX) => Some(cpus as u32),
        _ => None,
    }
}

/// The fault of scripts that are not one for each processor, or of the first that is too long.
fn script_fault(cpus: u32, scripts: &[Value]) -> Option<MachineFault>
    requires { cpus ≤ CPUS_MAX }
    ensures { MatchOption result
        ((cpus ≡ length scripts.now) × AllRightIn HasRoom (map script_rows (map view scripts.now)))
        (λ fault. (fault.number ≡ FaultNumber.Script)
        × IsScriptFault cpus (map script_rows (map view scripts.now)) fault.cpu fault.row
        × IsFoundOfScripts cpus (map script_rows (map view scripts.now)) fault.cpu fault.found) }
{
    // how many scripts there are goes before how long one is, and names no processor
    if scripts.len() != cpus as usize {
        return Some(FaultNumber::Script.at_row(0, Part::File.has(FileKey::Scripts)));
    }
    match first_long(scripts) {
        Some(cpu) => Some(MachineFault {
            number: FaultNumber::Script,
            cpu,
            row: SCRIPT_MAX as u32,
            found: Some(Part::Script(cpu as usize).has(FileKey::Scripts)),
        }),
        None => None,
    }
}
