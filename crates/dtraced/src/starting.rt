//! How a service starts, and ends.

use crate::account_sockets::{MadePath, make_sockets};
use crate::commanding::obey_input;
use crate::fault::Fault;
use dt_hub::NoGate;
use dt_machine::Machine;
use dt_proto::Lines;
use dt_server::{Desk, Shared, serve_machine};
use dt_world::write_whole;
use std::alloc::Global;
use std::net::Net;
use std::rt::{Clock, Files};
use std::sync::{Arc, Wait};
use std::thread::Threads;
use std::{fs, io, thread};

/// Serves a machine until `quit` or the end of standard input: a socket for each account in the folder, and a line `ready` when all listen. The sockets' paths
/// are removed at the end, and where the service can't start; the end of the process ends its threads.
pub(crate) fn serve<
    R: Files + Net + Input + Print + AllocGlobal,
    T: Threads + Wait + Clock + Send + Sync + Copy + Drop + 'static,
>(rt: &R, threads: T, machine: &str, folder: &str) -> Result<(), Fault> {
    let text = fs::read(rt, machine).map_err(|_| Fault::Device)?;
    let machine = Machine::read(rt.alloc(), &text).map_err(Fault::Machine)?;
    drop(text);
    let mut made = Vec::new(rt.alloc());
    let result = bind_and_run(rt, threads, machine, folder, &mut made);
    for path in &made {
        path.remove(rt);
    }
    result
}

/// Makes the sockets, starts the service, and obeys the lines of standard input. The paths of the sockets are added.
fn bind_and_run<
    R: Files + Net + Input + Print + AllocGlobal,
    T: Threads + Wait + Clock + Send + Sync + Copy + Drop + 'static,
>(
    rt: &R,
    threads: T,
    machine: Machine,
    folder: &str,
    made: &mut Vec<MadePath>,
) -> Result<(), Fault> {
    let sockets = make_sockets(rt, &machine, folder, made)?;
    let mut desks = Vec::new(rt.alloc());
    for _ in 0..machine.cpus() {
        desks.push(Desk::new()).map_err(|_| Fault::Device)?;
    }
    let Ok(shared) = Arc::new(rt.alloc(), Shared::new(desks, sockets)) else {
        return Err(Fault::Device);
    };
    // the room for commands is made before anyone is told that the service is there
    let Ok(mut lines) = Lines::new(rt.alloc()) else {
        return Err(Fault::Device);
    };
    start(&threads, threads, rt.alloc(), machine, &shared)?;
    let mut out = io::writer(rt);
    write_whole(&mut out, b"ready\n").map_err(|_| Fault::Device)?;
    obey_input(rt, &threads, &shared, &mut lines, &mut out)
}

/// Starts the service's thread, and waits until all its threads run.
fn start<R: Threads + Wait, T: Threads + Wait + Clock + Send + Sync + Copy + Drop + 'static>(
    rt: &R,
    threads: T,
    alloc: Global,
    machine: Machine,
    shared: &Arc<Shared>,
) -> Result<(), Fault> {
    let Ok(theirs) = Arc::try_clone(shared) else {
        return Err(Fault::Device);
    };
    let spawned = thread::spawn(rt, move || {
        serve_machine(&threads, alloc, machine, &NoGate, &theirs)
    });
    match spawned {
        Ok(handle) => drop(handle),
        Err(_) => return Err(Fault::Device),
    }
    if shared.is_ready(rt) {
        Ok(())
    } else {
        Err(Fault::Device)
    }
}
