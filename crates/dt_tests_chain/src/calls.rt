//! The calls that are tested, each in one function that promises nothing.
use dt_chain::{ChainReader, ChainWriter, Entries, Seat, SeatMask, Site, Write};
use dt_machine::{Firing, Machine};
use std::alloc::{AllocError, Global};
use std::sync::{Mutex, MutexGuard, Wait};
use std::test::Fail;

/// Probes 3 to 6; the firings of processor 0 are numbered from 0. The last is in kernel mode.
const MACHINE: &str = r#"{"cpus":1,
"accounts":[{"name":"root","uid":0,"privs":["dtrace_kernel"]},{"name":"ann","uid":501,"privs":["dtrace_user"]}],
"processes":[{"pid":100,"uid":501,"execname":"sh"},{"pid":200,"uid":0,"execname":"cron"}],
"probes":["syscall::read:entry","profile:::tick-1sec","fbt:genunix:kmem_alloc:entry","pid100:a:f:entry"],
"scripts":[[{"probe":3,"pid":100},{"probe":3,"pid":200},{"probe":4,"pid":100},{"probe":5,"pid":200},{"probe":6,"pid":100},
{"probe":4,"pid":100,"mode":"kernel"}]]}"#;

/// How many firings the script has.
pub(crate) const FIRINGS: u32 = 6;

pub(crate) fn machine(alloc: Global) -> Result<Machine, Fail> {
    Ok(Machine::read(alloc, MACHINE.as_bytes())?)
}

pub(crate) fn firing(machine: &Machine, place: u32) -> Result<Firing, Fail> {
    Ok(*machine.firing(0, place).ok_or("no firing")?)
}

pub(crate) fn seat_numbered(number: u32) -> Result<Seat, Fail> {
    Ok(Seat::new(number).ok_or("no seat")?)
}

/// The life that a seat is named with.
pub(crate) fn life_of(mask: &SeatMask, number: u32) -> Option<u64> {
    mask.life_of(Seat::new(number)?)
}

/// Publishes under the lock.
pub(crate) fn published<J: Site, R: Wait>(
    rt: &R,
    writer: &Mutex<ChainWriter<J>>,
    write: Write,
) -> Result<(), AllocError> {
    let mut guard = writer.lock(rt);
    let result = guard.publish(rt, write);
    MutexGuard::unlock(guard);
    result
}

/// Withdraws under the lock.
pub(crate) fn withdrawn<J: Site, R: Wait>(
    rt: &R,
    writer: &Mutex<ChainWriter<J>>,
    seat: Seat,
) -> Result<(), AllocError> {
    let mut guard = writer.lock(rt);
    let result = guard.withdraw(rt, seat);
    MutexGuard::unlock(guard);
    result
}

/// Tells a reader of all that is published, and answers how many writes these are.
pub(crate) fn told<J: Site, R: Wait>(
    rt: &R,
    writer: &Mutex<ChainWriter<J>>,
    reader: &mut ChainReader<J>,
) -> u64 {
    let guard = writer.lock(rt);
    let front = guard.published();
    MutexGuard::unlock(guard);
    reader.tell(&front);
    front.len()
}

/// Looks, and answers how many writes were published, or `None` where there was no entry.
pub(crate) fn looked<J: Site>(
    reader: &mut ChainReader<J>,
    machine: &Machine,
    firing: &Firing,
    mask: &mut SeatMask,
) -> Option<u64> {
    match reader.look_into(machine, firing, mask) {
        Ok(_context) => Some(reader.seen().len()),
        Err(_) => None,
    }
}

/// Looks into a new mask.
pub(crate) fn looked_anew<J: Site>(
    reader: &mut ChainReader<J>,
    machine: &Machine,
    firing: &Firing,
) -> Option<SeatMask> {
    reader.look(machine, firing)
}

pub(crate) fn applied(entries: &mut Entries, write: &Write) -> Result<(), Fail> {
    Ok(entries.apply(write)?)
}

pub(crate) fn named_by_entries(entries: &Entries, machine: &Machine, firing: &Firing) -> SeatMask {
    entries.look(machine, firing)
}
