//! A service: a hub, with its processors and its clients' connections on threads of their own.
ghost use Rattle.std.specs.Prelude.{◌≡◌};

use crate::desk::Desk;
use crate::listening::accept_all;
use crate::shared::{AccountSocket, Shared};
use crate::working::work;
use dt_hub::{CpuSeat, Gate, Hub, HubParts, HubSite};
use dt_machine::Machine;
use std::alloc::Global;
use std::marker::Brand;
use std::rt::Clock;
use std::sync::Wait;
use std::thread;
use std::thread::{Scope, Threads};

/// Serves a machine: a thread for each processor that has a desk, one for each socket, and one for each client that connects. It tells through `shared` whether
/// all of these were started, and doesn't return once it has started a thread.
pub fn serve_machine<R: Threads + Wait + Clock + Sync, G: Gate + Sync>(
    rt: &R,
    alloc: Global,
    machine: Machine,
    gate: &G,
    shared: &Shared,
) {
    match HubParts::new(alloc, machine) {
        Ok(parts) => serve_hub::<Brand, R, G>(rt, alloc, parts, gate, shared),
        Err(_) => shared.tell(rt, false),
    }
}

/// Makes the hub, and runs its threads.
fn serve_hub<J: HubSite + Send + Sync, R: Threads + Wait + Clock + Sync, G: Gate + Sync>(
    rt: &R,
    alloc: Global,
    parts: HubParts,
    gate: &G,
    shared: &Shared,
)
    requires contents { parts.contents ≡ J.contents }
    requires chains { parts.book ≡ J.book }
    requires facts { parts.word ≡ J.word }
{
    match Hub::<J>::new(rt, alloc, parts) {
        Ok((hub, cpu_seats)) => {
            run(rt, alloc, &hub, cpu_seats, gate, shared);
            hub.end(rt);
        }
        Err(_) => shared.tell(rt, false),
    }
}

/// Starts a processor's thread, and says whether it runs.
fn start_worker<'s, 'e: 's, J: HubSite + Send + Sync, R: Threads + Wait + Sync, G: Gate + Sync>(
    rt: &'s R,
    hub: &'s Hub<J>,
    cpu_seat: CpuSeat<J>,
    gate: &'s G,
    desk: &'s Desk,
    scope: &'s Scope<'s, &'e ()>,
) -> bool {
    scope
        .spawn(move || work(rt, hub, cpu_seat, gate, desk))
        .is_ok()
}

/// Starts the thread of an account's socket, and says whether it runs.
fn start_listener<'s, 'e: 's, J: HubSite + Send + Sync, R: Threads + Wait + Clock + Sync>(
    rt: &'s R,
    alloc: Global,
    hub: &'s Hub<J>,
    shared: &'s Shared,
    socket: &'s AccountSocket,
    scope: &'s Scope<'s, &'e ()>,
) -> bool {
    scope
        .spawn(move || accept_all(rt, alloc, hub, shared, socket, scope))
        .is_ok()
}

/// Starts the threads of all processors, and says whether all of them run.
fn start_workers<'s, 'e: 's, J: HubSite + Send + Sync, R: Threads + Wait + Sync, G: Gate + Sync>(
    rt: &'s R,
    hub: &'s Hub<J>,
    cpu_seats: Vec<CpuSeat<J>>,
    gate: &'s G,
    shared: &'s Shared,
    scope: &'s Scope<'s, &'e ()>,
) -> bool {
    let mut all = true;
    for (cpu_seat, desk) in cpu_seats.into_iter().zip(shared.desks.iter()) {
        let runs = start_worker(rt, hub, cpu_seat, gate, desk, scope);
        all = all && runs;
    }
    all
}

/// Starts the threads of all sockets, and says whether all of them run.
fn start_listeners<'s, 'e: 's, J: HubSite + Send + Sync, R: Threads + Wait + Clock + Sync>(
    rt: &'s R,
    alloc: Global,
    hub: &'s Hub<J>,
    shared: &'s Shared,
    scope: &'s Scope<'s, &'e ()>,
) -> bool {
    let mut all = true;
    for socket in shared.sockets.iter() {
        let listens = start_listener(rt, alloc, hub, shared, socket, scope);
        all = all && listens;
    }
    all
}

/// Starts the threads of processors and sockets, and says whether all of them run.
fn run<J: HubSite + Send + Sync, R: Threads + Wait + Clock + Sync, G: Gate + Sync>(
    rt: &R,
    alloc: Global,
    hub: &Hub<J>,
    cpu_seats: Vec<CpuSeat<J>>,
    gate: &G,
    shared: &Shared,
) {
    thread::scope(thread::scope_env(), rt, |scope| {
        let work = start_workers(rt, hub, cpu_seats, gate, shared, scope);
        let listen = start_listeners(rt, alloc, hub, shared, scope);
        shared.tell(rt, work && listen);
    });
}
