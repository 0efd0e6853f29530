//! Whether a machine file would be read.

use crate::fault::Trouble;
use crate::output::{reason_of, tell, tell_path, write_answer};
use dt_machine::{FaultNumber, Found, Machine, MachineFault};
use std::alloc::Global;
use std::fs;
use std::rt::Files;

/// Says whether a machine file would be read, and if not, which key is wrong where, with the refusal's number. Gives the status.
pub(crate) fn judge_machine<R: Files + Print + Eprint + AllocGlobal>(
    rt: &R,
    path: &str,
) -> Result<u8, Trouble> {
    let Some(machine) = read_machine(rt, path)? else {
        return Ok(1);
    };
    answer_machine(rt, &machine)?;
    Ok(0)
}

/// Says what a machine has.
fn answer_machine<R: Print + AllocGlobal>(rt: &R, machine: &Machine) -> Result<(), Trouble> {
    let told = format!(in rt.alloc();
        "a machine of {} processors and {} accounts\n",
        machine.cpus(),
        machine.accounts().len()
    )?;
    write_answer(rt, told.as_bytes())
}

/// The machine of a file. Where it is refused, that is told, and there is none.
pub(crate) fn read_machine<R: Files + Eprint + AllocGlobal>(
    rt: &R,
    path: &str,
) -> Result<Option<Machine>, Trouble> {
    let text = read_file(rt, path)?;
    match Machine::read(rt.alloc(), &text) {
        Ok(machine) => Ok(Some(machine)),
        Err(fault) => {
            tell_fault(rt, fault)?;
            Ok(None)
        }
    }
}

/// The bytes of a file. Where it can't be read, that is told.
pub(crate) fn read_file<R: Files + Eprint + AllocGlobal>(
    rt: &R,
    path: &str,
) -> Result<Vec<u8>, Trouble> {
    match fs::read(rt, path) {
        Ok(bytes) => Ok(bytes),
        Err(fault) => Err(tell_path(rt, "can't read", path, reason_of(fault.kind()))),
    }
}

/// Tells why a machine file is refused.
fn tell_fault<R: Eprint + AllocGlobal>(rt: &R, fault: MachineFault) -> Result<(), Trouble> {
    let told = match fault.found {
        Some(found) => refusal_of_key(rt.alloc(), fault.number, found)?,
        None => refusal_of_file(rt.alloc(), fault.number)?,
    };
    tell(rt, told.as_bytes());
    Ok(())
}

/// The line that tells which key of a machine file is wrong.
fn refusal_of_key(alloc: Global, number: FaultNumber, found: Found) -> Result<String, Trouble> {
    let why = rule_of(number);
    Ok(format!(in alloc; "dtr: machine refused {number}: {found} is wrong: {why}\n")?)
}

/// The line that tells why a machine file is refused, where no key is told.
fn refusal_of_file(alloc: Global, number: FaultNumber) -> Result<String, Trouble> {
    let why = rule_of(number);
    Ok(format!(in alloc; "dtr: machine refused {number}: {why}\n")?)
}

/// What the part of a machine file has to be that is refused by this number.
fn rule_of(number: FaultNumber) -> &'static str {
    match number {
        FaultNumber::Json => "the file is no JSON, or no UTF-8",
        FaultNumber::Shape => "a wanted key is missing, or a value is of the wrong kind",
        FaultNumber::Cpus => "there are 1 to 64 processors",
        FaultNumber::Account =>
            "an account has a name of 1 to 31 of a-z 0-9 _ -, its own, a uid of 32 bits, and known privileges; 16 at most",
        FaultNumber::Process =>
            "a process has a pid up to 999999, its own, a uid of 32 bits, and a name of up to 31 visible bytes or blanks; 1,024 at most",
        FaultNumber::Probe =>
            "a probe is four names with : between them, its own, not of the provider dtrace, and a pid provider's process is in the list; 4,096 at most",
        FaultNumber::Script => "there is one script for each processor, of 65,536 firings at most",
        FaultNumber::Firing =>
            "a firing names a probe and a process that are there, and its numbers are in their ranges",
        FaultNumber::Foreign => "a pid provider's probe fires in its own process alone",
        FaultNumber::Memory => "memory ran out",
    }
}
