//! The scripts of the file, each a list of firings.
ghost use Rattle.std.specs.Prelude.{◌≡◌, ◌^◌, ◌≤◌, ◌<◌, List, Some, None, IsSome, IsSomeAnd, IfOk, IfErr, MatchOption, MatchResult, map, length, pos};
ghost use Rattle.serde_json.specs.View.{view};
ghost use Rattle.dt_machine.specs.Given.{items_of};
ghost use Rattle.dt_machine.specs.Found.{IsFoundOfFiring, IsFoundAt, IsFoundIn};
ghost use Rattle.dt_machine.specs.Registry.{process_of};
ghost use Rattle.dt_machine.specs.Rows.{FiringRow, firing_row, firing, script, scripts as scripts_of, mode, number_in, IsGivenBelow, IsMode, HasRoom, IsGivenProbe, IsRightFiring};
ghost use Rattle.dt_machine.specs.Reading.{AllRight, AllRightIn, IsFirstWrong, IsFirstWrongIn, NowhereIfMemory, UnlessMemory};
ghost use Rattle.dt_machine.specs.Sections.{IsReady, firing_rows, scripts_rows, registry_of};

use crate::fault::{FaultNumber, MachineFault};
use crate::found::{FileKey, Found, Part};
use crate::keys::{items_of, list_at, text_at, u32_of, unsigned_at};
use crate::limits::{CPUS_MAX, FIRST_PROBE_ID, SCRIPT_MAX};
use crate::numbers::{arguments_of, frames_of};
use crate::sections::Sections;
use dt_cred::{Firing, Mode};
use serde_json::Value;
use std::alloc::Global;

/// The first processor whose script has too many firings.
pub(crate) fn first_long(scripts: &[Value]) -> Option<u32>
    requires { length scripts.now ≤ CPUS_MAX }
    ensures { MatchOption result (AllRightIn HasRoom (scripts_rows scripts.now))
        (λ cpu. IsFirstWrongIn HasRoom (scripts_rows scripts.now) cpu SCRIPT_MAX) }
{
    for (cpu, script) in scripts.iter().enumerate() {
        // the fault names the least processor whose script is too long
        if items_of(script).len() > SCRIPT_MAX {
            return Some(cpu as u32);
        }
    }
    None
}

/// The scripts, or the first firing that is not right.
pub(crate) fn read_scripts(
    alloc: Global,
    sections: &Sections,
    scripts: &[Value],
) -> Result<Vec<Vec<Firing>>, MachineFault>
    requires few { length scripts.now ≤ CPUS_MAX }
    requires short { AllRightIn HasRoom (scripts_rows scripts.now) }
    requires ready { IsReady sections.now }
    ensures right { IfOk result (λ _.
        AllRightIn (IsRightFiring (registry_of sections.now)) (scripts_rows scripts.now)) }
    ensures scripts { IfOk result (λ found. map (λ s. s.items) found.items ≡ scripts_of 0 (scripts_rows scripts.now)) }
    ensures memory { IfErr result NowhereIfMemory }
    ensures fault { IfErr result (λ fault. UnlessMemory fault ((fault.number ≡ FaultNumber.Firing)
        × IsFirstWrongIn (IsRightFiring (registry_of sections.now)) (scripts_rows scripts.now) fault.cpu fault.row
        × IsFoundIn (λ cpu at _. IsFoundOfFiring (registry_of sections.now) cpu at) (scripts_rows scripts.now) fault.cpu
        fault.row fault.found)) }
{
    let mut found = Vec::new(alloc);
    for (cpu, script) in scripts.iter().enumerate() {
        let firings = read_script(alloc, sections, cpu as u32, items_of(script))?;
        found.push(firings)?;
    }
    Ok(found)
}

/// The script of a processor, or the first firing that is not right.
fn read_script(
    alloc: Global,
    sections: &Sections,
    cpu: u32,
    rows: &[Value],
) -> Result<Vec<Firing>, MachineFault>
    requires short { length rows.now ≤ SCRIPT_MAX }
    requires ready { IsReady sections.now }
    ensures right { IfOk result (λ _. AllRight (IsRightFiring (registry_of sections.now)) (firing_rows rows.now)) }
    ensures script { IfOk result (λ found. found.items ≡ script cpu 0 (firing_rows rows.now)) }
    ensures memory { IfErr result NowhereIfMemory }
    ensures fault { IfErr result (λ fault. UnlessMemory fault ((fault.number ≡ FaultNumber.Firing) × (fault.cpu ≡ cpu)
        × IsFirstWrong (IsRightFiring (registry_of sections.now)) (firing_rows rows.now) fault.row
        × IsFoundAt (λ at _. IsFoundOfFiring (registry_of sections.now) cpu at) (firing_rows rows.now) fault.row
        fault.found)) }
{
    let mut found = Vec::with_capacity(alloc, rows.len())?;
    for (place, row) in rows.iter().enumerate() {
        match firing_of(sections, cpu, place as u32, row) {
            Ok(firing) => found.push(firing)?,
            Err(wrong) => {
                // the first firing that isn't right decides: no later one is read
                return Err(MachineFault {
                    number: FaultNumber::Firing,
                    cpu,
                    row: place as u32,
                    found: Some(wrong),
                });
            }
        }
    }
    Ok(found)
}

/// The firing of a row, if it is right by itself, or what is wrong with it.
fn firing_of(sections: &Sections, cpu: u32, place: u32, row: &Value) -> Result<Firing, Found>
    requires { IsReady sections.now }
    ensures { MatchResult result
        (λ found. ((before : List FiringRow) → IsRightFiring (registry_of sections.now) before (firing_row (view row.now)))
        × (found ≡ firing cpu place (firing_row (view row.now))))
        (IsFoundOfFiring (registry_of sections.now) cpu place (firing_row (view row.now))) }
{
    let this = Part::Firing {
        cpu: cpu as usize,
        row: place as usize,
    };
    let probe = probe_of(sections, unsigned_at(row, "probe", None)).ok_or(this.has(
        FileKey::Probe,
    ))?;
    let pid = pid_of(sections, unsigned_at(row, "pid", None)).ok_or(this.has(FileKey::Pid))?;
    let tid = u32_of(unsigned_at(row, "tid", Some(1))).ok_or(this.has(FileKey::Tid))?;
    let mode = mode_of(text_at(row, "mode", "user")).ok_or(this.has(FileKey::Mode))?;
    let timestamp = timestamp_of(unsigned_at(row, "timestamp", Some(0))).ok_or(this.has(
        FileKey::Timestamp,
    ))?;
    let args = arguments_of(list_at(row, "args")).ok_or(this.has(FileKey::Args))?;
    let kstack = frames_of(list_at(row, "kstack")).ok_or(this.has(FileKey::Kstack))?;
    let ustack = frames_of(list_at(row, "ustack")).ok_or(this.has(FileKey::Ustack))?;
    Ok(Firing {
        cpu,
        place,
        probe,
        pid,
        tid,
        mode,
        timestamp,
        args,
        kstack,
        ustack,
    })
}

fn probe_of(sections: &Sections, number: Option<u64>) -> Option<u32>
    requires { IsReady sections.now }
    ensures { MatchOption result (IsSomeAnd number (IsGivenProbe (registry_of sections.now)) → ⊥)
        (λ id. IsSomeAnd number (IsGivenProbe (registry_of sections.now)) × (id ≡ number_in number)) }
{
    let number = number?;
    // `BEGIN` and `END` fire for one consumer alone and stand in no script; past the last there is no probe
    if number < u64::from(FIRST_PROBE_ID) || number > sections.probes.len() as u64 {
        return None;
    }
    Some(number as u32)
}

fn pid_of(sections: &Sections, number: Option<u64>) -> Option<u32>
    requires { IsReady sections.now }
    ensures { MatchOption result
        (IsSomeAnd number (λ pid. IsSome (process_of (registry_of sections.now) pid)) → ⊥)
        (λ pid. IsSomeAnd number (λ pid. IsSome (process_of (registry_of sections.now) pid))
        × (pid ≡ number_in number)) }
{
    let pid = u32_of(number)?;
    match sections.process(pid) {
        Some(_) => Some(pid),
        None => None,
    }
}

fn mode_of(text: &str) -> Option<Mode>
    ensures { MatchOption result (IsMode text.now → ⊥) (λ found. IsMode text.now × (found ≡ mode text.now)) }
{
    match text {
        "user" => Some(Mode::User),
        "kernel" => Some(Mode::Kernel),
        _ => None,
    }
}

fn timestamp_of(number: Option<u64>) -> Option<i64>
    ensures { MatchOption result (IsGivenBelow (2 ^ 63) number → ⊥)
        (λ found. IsGivenBelow (2 ^ 63) number × (found ≡ pos (number_in number))) }
{
    match number {
        Some(number) if number <= 0x7fff_ffff_ffff_ffff => Some(number as i64),
        _ => None,
    }
}
