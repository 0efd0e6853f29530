//! The processes of the file.
ghost use Rattle.std.specs.Prelude.{◌≡◌, ◌^◌, ◌+◌, ◌<◌, All, List, Some, None, IsSome, IfOk, IfErr, MatchOption, MatchResult, map, length, find, ◌==◌};
ghost use Rattle.serde_json.specs.View.{view};
ghost use Rattle.dt_machine.specs.Rows.{ProcessRow, process_row, process, number_in, IsGivenBelow, IsExecname, IsRightProcess};
ghost use Rattle.dt_machine.specs.Found.{IsFoundOfProcess};
ghost use Rattle.dt_machine.specs.Reading.{AllRight, NowhereIfMemory, UnlessMemory};
ghost use Rattle.dt_machine.specs.Sections.{IsMiss, Indexes, process_rows};

use crate::by_pid::ByPid;
use crate::fault::{FaultNumber, MachineFault};
use crate::found::{FileKey, Found, Part};
use crate::keys::{text_at, u32_of, unsigned_at};
use crate::limits::{PID_MAX, PROCESSES_MAX};
use dt_cred::Process;
use dt_names::ShortText;
use serde_json::Value;
use std::alloc::Global;

/// The processes in the file's order, and the place of each by its number, or the first that is not right.
pub(crate) fn read_processes(
    alloc: Global,
    rows: &[Value],
) -> Result<(Vec<Process>, ByPid), MachineFault>
    ensures right { IfOk result (λ _. AllRight IsRightProcess (process_rows rows.now)) }
    ensures processes { IfOk result (λ found. found.0.items ≡ map process (process_rows rows.now)) }
    ensures small { IfOk result (λ found. All (λ process. process.pid < 2 ^ 32) found.0.items) }
    ensures by_pid { IfOk result (λ found. Indexes found.1 found.0.items) }
    ensures memory { IfErr result NowhereIfMemory }
    ensures fault { IfErr result (λ fault.
        UnlessMemory fault (IsMiss FaultNumber.Process IsRightProcess IsFoundOfProcess (process_rows rows.now) fault)) }
{
    let mut processes = Vec::new(alloc);
    let mut by_pid = ByPid::new(alloc);
    for value in rows {
        match process_of(processes.len(), &by_pid, value) {
            Ok(process) => {
                by_pid.insert(process.pid, processes.len() as u16)?;
                processes.push(process)?;
            }
            // the first row that isn't right decides: no later one is read
            Err(found) => return Err(FaultNumber::Process.at_row(processes.len() as u32, found)),
        }
    }
    Ok((processes, by_pid))
}

/// The process of a row, if it is right after this many processes, of which the map gives the places, or what is wrong
/// with it.
fn process_of(before: usize, by_pid: &ByPid, row: &Value) -> Result<Process, Found>
    // the process of a right row has a number that no earlier one has
    ensures { (rows : List ProcessRow) → before ≡ length rows → All (λ r. IsSome r.pid) rows
        → Indexes by_pid.now (map process rows)
        → MatchResult result
        (λ found. IsRightProcess rows (process_row (view row.now))
        × (found ≡ process (process_row (view row.now)))
        × (find (λ earlier. earlier.pid == found.pid) (map process rows) ≡ None))
        (IsFoundOfProcess before rows (process_row (view row.now))) }
{
    // one process more than a machine may have isn't right, whatever its row says
    if before >= PROCESSES_MAX {
        return Err(Part::File.has(FileKey::Processes));
    }
    let this = Part::Process(before);
    let pid = pid_of(unsigned_at(row, "pid", None)).ok_or(this.has(FileKey::Pid))?;
    // a firing names its process by the number, so no two may have one
    if by_pid.place_of(pid).is_some() {
        return Err(this.has(FileKey::Pid));
    }
    let uid = u32_of(unsigned_at(row, "uid", None)).ok_or(this.has(FileKey::Uid))?;
    let execname = execname_of(text_at(row, "execname", "").as_bytes()).ok_or(this.has(
        FileKey::Execname,
    ))?;
    Ok(Process { pid, uid, execname })
}

fn pid_of(number: Option<u64>) -> Option<u32>
    ensures { MatchOption result (IsGivenBelow (PID_MAX + 1) number → ⊥)
        (λ found. IsGivenBelow (PID_MAX + 1) number × (found ≡ number_in number)) }
{
    match number {
        Some(number) if number <= u64::from(PID_MAX) => Some(number as u32),
        _ => None,
    }
}

fn execname_of(text: &[u8]) -> Option<ShortText>
    ensures { MatchOption result (IsExecname text.now → ⊥) (λ found. IsExecname text.now × (found ≡ text.now)) }
{
    // an execname is a text of visible ASCII characters and spaces
    if !text.iter().all(|byte| *byte >= b' ' && *byte <= b'~') {
        return None;
    }
    ShortText::new(text)
}
