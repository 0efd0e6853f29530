//! Connections of an account's clients.
use crate::colour::colour;
use crate::device::Counted;
use crate::ended::Ended;
use crate::session::serve_session;
use crate::shared::{AccountSocket, Shared};
use dt_hub::{Hub, HubSite, OpenFault};
use dt_proto::memory_line;
use std::alloc::Global;
use std::io::Write;
use std::os::unix::net::UnixStream;
use std::rt::Clock;
use std::sync::Wait;
use std::thread;
use std::thread::{Builder, Scope, Threads};
use std::time::Duration;

/// How long nothing is accepted after a failure.
const PAUSE_MILLIS: u64 = 20;

/// The stack of a session's thread, in bytes. What the system would give is the operator's to set, and may be too little to read a line of JSON to its last level, the 127th.
const SESSION_STACK: usize = 1 << 20;

/// What a client is told that finds no free seat.
const FULL_LINE: &[u8] = b"{\"error\":17,\"name\":\"Full\"}\n";

/// What a client is told whose account has no dtrace privilege.
const NO_PRIVILEGE_LINE: &[u8] = b"{\"error\":18,\"name\":\"NoPrivilege\"}\n";

/// Accepts the connections of an account's clients, for ever, each with a thread of its own.
pub(crate) fn accept_all<'s, 'e: 's, J: HubSite + Send + Sync, R: Threads + Wait + Clock + Sync>(
    rt: &'s R,
    alloc: Global,
    hub: &'s Hub<J>,
    shared: &'s Shared,
    socket: &'s AccountSocket,
    scope: &'s Scope<'s, &'e ()>,
) {
    for _ in rt.forever() {
        match socket.listener.accept() {
            Ok((stream, _)) => begin(rt, alloc, hub, shared, socket, stream, scope),
            // there are no descriptors, or there is no memory: the next one would fail at once, too
            Err(_) => thread::sleep(rt, Duration::from_millis(PAUSE_MILLIS)),
        }
    }
}

/// Starts a session's thread, or tells the client that there was no memory for it.
fn begin<'s, 'e: 's, J: HubSite + Send + Sync, R: Threads + Wait + Sync>(
    rt: &'s R,
    alloc: Global,
    hub: &'s Hub<J>,
    shared: &'s Shared,
    socket: &'s AccountSocket,
    stream: UnixStream,
    scope: &'s Scope<'s, &'e ()>,
) {
    let spare = stream.try_clone();
    let started = Builder::new().stack_size(SESSION_STACK).spawn_scoped(
        scope,
        move || serve_stream(rt, alloc, hub, shared, socket, stream),
    );
    if started.is_err() {
        if let Ok(mut stream) = spare {
            let _told = stream.write_all(memory_line());
        }
    }
}

/// Serves a client of an account on its connection, which ends with its session; or tells it, in one line, why it gets none.
fn serve_stream<J: HubSite, R: Wait>(
    rt: &R,
    alloc: Global,
    hub: &Hub<J>,
    shared: &Shared,
    socket: &AccountSocket,
    stream: UnixStream,
) {
    let room = colour(alloc, shared.next_client());
    match hub.open(rt, alloc, socket.name.as_bytes()) {
        Ok(session) => {
            let seat = session.seat();
            let mut source = Counted::new(&stream);
            let mut sink = Counted::new(&stream);
            let (ended, _receipt) = serve_session(rt, alloc, hub, session, &mut source, &mut sink);
            shared.session_ended(rt, seat);
            // its lines had no buffer, so it was told nothing
            if ended == Ended::Memory {
                let _told = (&stream).write_all(memory_line());
            }
        }
        Err(fault) => {
            let _told = (&stream).write_all(refusal_line(fault));
        }
    }
    drop(room);
}

/// What a client is told that gets no session.
fn refusal_line(fault: OpenFault) -> &'static [u8] {
    match fault {
        OpenFault::NoPrivilege => NO_PRIVILEGE_LINE,
        OpenFault::Full => FULL_LINE,
        OpenFault::Memory => memory_line(),
    }
}
