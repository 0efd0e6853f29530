//! A session that traces: when it is looked at, and when it ends.

use crate::enabling::accepted;
use crate::fault::Trouble;
use crate::learning::Learnt;
use crate::output::{tell, write_out};
use crate::session::Session;
use crate::snapping::{RowShape, keep, snap};
use dt_front::{number_field, signed_in, text_field};
use dt_life::{HISTORY_MAX, LINES_MAX};
use serde_json::Value;
use std::io::Write;
use std::rt::Clock;
use std::sync::atomic::{AtomicBool, Ordering};
use std::thread;
use std::time::{Duration, Instant};

/// How many milliseconds the program sleeps at once: then it looks whether its time is over, or standard input has ended.
const NAP: u64 = 50;

/// How a session is followed.
#[derive(Drop)]
pub(crate) struct Plan<'a> {
    /// How long there is between two looks at least.
    pub(crate) every: Duration,
    /// For how long it is traced.
    pub(crate) length: Option<Duration>,
    /// Whether a clause may leave records.
    pub(crate) records: bool,
    /// Whether buffers can be read while it traces.
    pub(crate) readable: bool,
    /// Set once standard input has ended.
    pub(crate) ended: &'a AtomicBool,
    /// How rows are written.
    pub(crate) shape: RowShape,
}

impl Plan<'_> {
    /// Whether standard input has ended, or the time of tracing, of which so much is spent, is over.
    fn is_over(&self, spent: Duration) -> bool {
        self.ended.load(Ordering::SeqCst) || self.length.is_some_and(|length| spent >= length)
    }
}

/// Why the program goes on no more.
#[derive(Clone, Copy, PartialEq, Eq, Drop)]
enum Over {
    /// Its time is over, or standard input ended.
    Asked,
    /// The lines of the session are nearly spent.
    Lines,
}

/// Follows a session until its tracing has ended, and writes what was recorded. Gives the status with which a clause exited, where one did.
pub(crate) fn follow<R: Print + Eprint + AllocGlobal + Clock, F: Write>(
    rt: &R,
    session: &mut Session<'_>,
    known: &mut Learnt,
    plan: &Plan<'_>,
    file: &mut Option<F>,
) -> Result<Option<i64>, Trouble> {
    let begun = now(rt)?;
    let mut buffers = 0_u64;
    for _ in 0..u64::MAX {
        if let Some(why) = wait(rt, session, plan, buffers, known, begun)? {
            stop(rt, session, why)?;
        }
        let status = status_of(rt, session)?;
        if look(rt, session, known, plan, &status, &mut buffers, file)? {
            return Ok(exit_in(&status));
        }
    }
    Ok(None)
}

/// Tells what is new in a status, and writes what was recorded. Sets how many buffers there are to read, and gives whether tracing has ended.
fn look<R: Print + Eprint + AllocGlobal, F: Write>(
    rt: &R,
    session: &mut Session<'_>,
    known: &mut Learnt,
    plan: &Plan<'_>,
    status: &Value,
    buffers: &mut u64,
    file: &mut Option<F>,
) -> Result<bool, Trouble> {
    let stopped = text_field(status, "phase") == Some("stopped");
    let cpus = tell_errors(rt, known, status)?;
    *buffers = if plan.records { cpus } else { 0 };
    let Some(seen) = number_field(status, "seen") else {
        return Err(Trouble::Strange);
    };
    // BEGIN leaves records, and isn't counted as seen
    if stopped || (plan.readable && known.seen != Some(seen)) {
        known.seen = Some(seen);
        take_snaps(rt, session, known, *buffers, plan.shape, file)?;
    }
    if stopped {
        tell_history(rt, status)?;
    }
    Ok(stopped)
}

/// Tells that the history is full, where tracing ended for that.
fn tell_history<R: Eprint + AllocGlobal>(rt: &R, status: &Value) -> Result<(), Trouble> {
    if text_field(status, "cause") == Some("history") {
        let told = format!(in rt.alloc();
            "dtr: the history is full, so tracing ended; -x histsize takes up to {HISTORY_MAX}\n"
        )?;
        tell(rt, told.as_bytes());
    }
    Ok(())
}

/// The number with which a clause exited, where one did.
fn exit_in(status: &Value) -> Option<i64> {
    match status.get("exit") {
        Some(exit) => signed_in(exit),
        None => None,
    }
}

/// Ends tracing. Where it has just ended by itself, that is as well.
fn stop<R: Print + Eprint + AllocGlobal>(
    rt: &R,
    session: &mut Session<'_>,
    why: Over,
) -> Result<(), Trouble> {
    if why == Over::Lines {
        tell(
            rt,
            b"dtr: the session's 1,024 lines are nearly spent, so tracing ends here\n",
        );
    }
    let _reply = session.ask(rt.alloc(), "{\"cmd\":\"stop\"}")?;
    Ok(())
}

/// How far the session has come.
fn status_of<R: Print + Eprint + AllocGlobal>(
    rt: &R,
    session: &mut Session<'_>,
) -> Result<Value, Trouble> {
    let reply = session.ask(rt.alloc(), "{\"cmd\":\"status\"}")?;
    accepted(rt, &reply, "the session doesn't say how far it is", None)?;
    Ok(reply)
}

/// Reads so many buffers, and writes what was recorded.
fn take_snaps<R: Print + Eprint + AllocGlobal, F: Write>(
    rt: &R,
    session: &mut Session<'_>,
    known: &mut Learnt,
    buffers: u64,
    shape: RowShape,
    file: &mut Option<F>,
) -> Result<(), Trouble> {
    let mut out = Vec::new(rt.alloc());
    for cpu in 0..buffers {
        snap(rt, session, known, cpu, shape, &mut out)?;
        write_out(rt, file, &mut out)?;
    }
    Ok(())
}

/// Tells which errors and drops are new on each processor, and which draws failed, and gives how many processors there are.
fn tell_errors<R: Print + Eprint + AllocGlobal>(
    rt: &R,
    known: &mut Learnt,
    status: &Value,
) -> Result<u64, Trouble> {
    let cpus = tell_each(
        rt,
        &mut known.errors,
        status.get("errors"),
        "errors (a division by zero)",
    )?;
    tell_each(
        rt,
        &mut known.aggdrops,
        status.get("aggdrops"),
        "values dropped by aggregations",
    )?;
    tell_each(
        rt,
        &mut known.dyndrops,
        status.get("dyndrops"),
        "assignments to variables dropped",
    )?;
    tell_each(
        rt,
        &mut known.specdrops,
        status.get("specdrops"),
        "records dropped by speculations",
    )?;
    tell_fails(rt, &mut known.specfails, status.get("specfails"))?;
    Ok(cpus)
}

/// Tells how much each processor's number has grown, and gives how many processors there are.
fn tell_each<R: Print + Eprint + AllocGlobal>(
    rt: &R,
    told: &mut Vec<u64>,
    numbers: Option<&Value>,
    what: &str,
) -> Result<u64, Trouble> {
    let Some(numbers) = numbers.and_then(|numbers| numbers.as_array()) else {
        return Err(Trouble::Strange);
    };
    let mut cpu = 0_u64;
    for number in numbers {
        tell_more(rt, told, cpu, number, what)?;
        cpu = cpu.saturating_add(1);
    }
    Ok(cpu)
}

/// Tells how many draws failed, since all identifiers were in use, beyond those that were told.
fn tell_fails<R: Print + Eprint + AllocGlobal>(
    rt: &R,
    told: &mut u64,
    number: Option<&Value>,
) -> Result<(), Trouble> {
    let Some(number) = number.and_then(|number| number.as_u64()) else {
        return Err(Trouble::Strange);
    };
    if number > *told {
        let line = format!(in rt.alloc(); "dtr: {} speculations not begun\n", number - *told)?;
        tell(rt, line.as_bytes());
    }
    *told = number;
    Ok(())
}

/// Tells how much a number of a processor has grown, where it has.
fn tell_more<R: Print + Eprint + AllocGlobal>(
    rt: &R,
    told: &mut Vec<u64>,
    cpu: u64,
    number: &Value,
    what: &str,
) -> Result<(), Trouble> {
    let Some(number) = number.as_u64() else {
        return Err(Trouble::Strange);
    };
    let before = told.get(cpu as usize).copied().unwrap_or(0);
    if number > before {
        let line = format!(in rt.alloc(); "dtr: {} {what} on CPU {cpu}\n", number - before)?;
        tell(rt, line.as_bytes());
    }
    keep(told, cpu, number)
}

/// Waits for the next look, and says whether tracing is to end, and why.
fn wait<R: Clock>(
    rt: &R,
    session: &Session<'_>,
    plan: &Plan<'_>,
    buffers: u64,
    known: &Learnt,
    begun: Instant,
) -> Result<Option<Over>, Trouble> {
    let looks = looks_left(session, plan, buffers, known);
    if looks == 0 {
        return Ok(Some(Over::Lines));
    }
    let asked = now(rt)?;
    let spent = asked.saturating_duration_since(begun);
    let rest = plan.length.map(|length| length.saturating_sub(spent));
    let pause = pause_before_look(plan.every, rest, looks, session.left);
    for _ in 0..u64::MAX {
        if plan.is_over(since(rt, begun)?) {
            return Ok(Some(Over::Asked));
        }
        if since(rt, asked)? >= pause {
            return Ok(None);
        }
        thread::sleep(rt, Duration::from_millis(NAP));
    }
    Ok(None)
}

/// What the clock tells.
fn now<R: Clock>(rt: &R) -> Result<Instant, Trouble> {
    Instant::now(rt).map_err(|_| Trouble::Clock)
}

/// How long ago something was.
fn since<R: Clock>(rt: &R, earlier: Instant) -> Result<Duration, Trouble> {
    earlier.elapsed(rt).map_err(|_| Trouble::Clock)
}

/// How many looks there are lines for. A look takes a line, and one for each buffer that it may read. Kept for the end are `stop` and `status`, then a line for each buffer and for each
/// layout that isn't known, and those that the session keeps.
fn looks_left(session: &Session<'_>, plan: &Plan<'_>, buffers: u64, known: &Learnt) -> u64 {
    let unknown = if plan.records { known.unknown() } else { 0 };
    let last = buffers.saturating_add(unknown).saturating_add(2);
    let spare = session
        .left
        .saturating_sub(session.kept)
        .saturating_sub(last);
    let read = if plan.readable { buffers } else { 0 };
    spare / read.saturating_add(1)
}

/// How long to wait for the next look, `every` at least. Where the rest of the time of tracing is known, the looks that there are lines for are spread over it.
/// Else there are so many times `every` as the lines that are left go into those of a session: the fewer are left, the longer it waits.
fn pause_before_look(every: Duration, rest: Option<Duration>, looks: u64, left: u64) -> Duration {
    match rest {
        Some(rest) => {
            let looks = u32::try_from(looks).unwrap_or(u32::MAX);
            every.max(rest.checked_div(looks).unwrap_or(rest))
        }
        None => {
            let times = u64::from(LINES_MAX) / left.max(1);
            every.saturating_mul(u32::try_from(times).unwrap_or(u32::MAX))
        }
    }
}
