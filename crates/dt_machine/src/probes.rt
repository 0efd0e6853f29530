//! The probes of a machine: `BEGIN`, `END` and those of the file.
ghost use Rattle.std.specs.Prelude.{◌≡◌, ◌≢◌, ◌↔◌, ◌<◌, ◌+◌, [], ◌∷◌, All, List, ℕ, Some, IsTrue, IfOk, IfErr, MatchResult, MatchBool, codes, length, slice_get, ◌==◌};
ghost use Rattle.std.specs.List.{list_any};
ghost use Rattle.dt_names.specs.Tuple.{SpellsTuple};
ghost use Rattle.dt_cred.specs.Class.{IsClassOf};
ghost use Rattle.dt_cred.specs.declared.probe.Probe.{Probe};
ghost use Rattle.dt_machine.specs.declared.limits.TheConstants.{FIRST_PROBE_ID};
ghost use Rattle.dt_machine.specs.Rows.{AreProbes, IsRightProbe};
ghost use Rattle.dt_machine.specs.Found.{IsFoundOfProbe};
ghost use Rattle.dt_machine.specs.Reading.{AllRight, NowhereIfMemory, UnlessMemory};
ghost use Rattle.dt_machine.specs.Sections.{IsMiss, IsTraced, eq_tuples, texts};

use crate::fault::{FaultNumber, MachineFault};
use crate::found::{FileKey, Found, Part};
use crate::keys::text_of;
use crate::limits::{FIRST_PROBE_ID, PROBES_MAX};
use dt_cred::{Class, Probe, Process};
use dt_names::ProbeTuple;
use serde_json::Value;
use std::alloc::{AllocError, Global};

/// `BEGIN`, `END` and the file's probes, or the first of these that is not right.
pub(crate) fn read_probes(
    alloc: Global,
    rows: &[Value],
    processes: &[Process],
) -> Result<Vec<Probe>, MachineFault>
    ensures right { IfOk result (λ _. AllRight (IsRightProbe processes.now) (texts rows.now)) }
    ensures probes { IfOk result (λ probes.
        AreProbes 1 (codes "dtrace:::BEGIN" ∷ codes "dtrace:::END" ∷ texts rows.now) probes.items) }
    ensures memory { IfErr result NowhereIfMemory }
    ensures fault { IfErr result (λ fault.
        UnlessMemory fault
        (IsMiss FaultNumber.Probe (IsRightProbe processes.now) (IsFoundOfProbe processes.now) (texts rows.now) fault)) }
{
    let mut probes = own_probes(alloc)?;
    for value in rows {
        match probe_of(
            &probes.as_slice()[2..],
            processes,
            text_of(value).as_bytes(),
        ) {
            Ok(probe) => probes.push(probe)?,
            // the first row that isn't right decides; `BEGIN` and `END` are no rows of the file
            Err(found) => return Err(FaultNumber::Probe.at_row(probes.len() as u32 - 2, found)),
        }
    }
    Ok(probes)
}

/// The probes that every machine has: `BEGIN` and `END`.
fn own_probes(alloc: Global) -> Result<Vec<Probe>, AllocError>
    ensures { IfOk result (λ probes. AreProbes 1 (codes "dtrace:::BEGIN" ∷ codes "dtrace:::END" ∷ []) probes.items) }
{
    let mut probes = Vec::new(alloc);
    probes.push(Probe::new(1, ProbeTuple::parse(b"dtrace:::BEGIN").unwrap()))?;
    probes.push(Probe::new(2, ProbeTuple::parse(b"dtrace:::END").unwrap()))?;
    Ok(probes)
}

/// The probe of a row, if it is right after these of the file, or what is wrong with it.
fn probe_of(before: &[Probe], processes: &[Process], text: &[u8]) -> Result<Probe, Found>
    // the probe of a right row has the next identifier, and its provider's class
    ensures { (rows : List (List ℕ)) → AreProbes FIRST_PROBE_ID rows before.now
        → MatchResult result
        (λ probe. IsRightProbe processes.now rows text.now
        × (probe.id ≡ length before.now + FIRST_PROBE_ID) × SpellsTuple text.now probe.tuple
        × IsClassOf probe.tuple.provider probe.class)
        (IsFoundOfProbe processes.now (length before.now) rows text.now) }
{
    // one probe more than a machine may have isn't right, whatever its text says
    if before.len() >= PROBES_MAX {
        return Err(Part::File.has(FileKey::Probes));
    }
    let this = Part::Probe(before.len());
    let tuple = ProbeTuple::parse(text).ok_or(this.has(FileKey::Text))?;
    // no two probes are alike: a repeated one is told at its later row
    if is_taken(before, &tuple) {
        return Err(this.has(FileKey::Text));
    }
    let probe = Probe::new(before.len() as u32 + FIRST_PROBE_ID, tuple);
    // the provider `dtrace` has `BEGIN` and `END` alone, and a `pid` provider needs its process in the file
    if !is_traced(probe.class, processes) {
        return Err(this.has(FileKey::Provider));
    }
    Ok(probe)
}

fn is_taken(probes: &[Probe], tuple: &ProbeTuple) -> bool
    ensures { MatchBool result
        ((k : ℕ) × (probe : Probe) × (slice_get probes.now k ≡ Some probe) × (probe.tuple ≡ tuple.now))
        (All (λ probe. probe.tuple ≢ tuple.now) probes.now) }
{
    for probe in probes {
        // one probe with these four names takes them: no other needs to be asked
        if is_same(&probe.tuple, tuple) {
            return true;
        }
    }
    false
}

fn is_same(a: &ProbeTuple, b: &ProbeTuple) -> bool
    ensures { result ≡ eq_tuples a.now b.now }
{
    a.provider.as_bytes() == b.provider.as_bytes()
        && a.module.as_bytes() == b.module.as_bytes()
        && a.function.as_bytes() == b.function.as_bytes()
        && a.name.as_bytes() == b.name.as_bytes()
}

/// Whether a probe of the file may have this class: its process is there, and it is not of `dtrace`.
fn is_traced(class: Class, processes: &[Process]) -> bool
    ensures { IsTrue result ↔ IsTraced processes.now class }
{
    match class {
        Class::Dtrace => false,
        Class::Pid(pid) => is_process(processes, pid),
        Class::Syscall | Class::Profile | Class::Other => true,
    }
}

fn is_process(processes: &[Process], pid: u128) -> bool
    ensures { result ≡ list_any (λ process. process.pid == pid) processes.now }
{
    processes
        .iter()
        .any(|process| u128::from(process.pid) == pid)
}
