//! What the thread of a service and the thread that commands it share.
use crate::desk::Desk;
use dt_chain::Seat;
use dt_names::Name;
use std::os::unix::net::UnixListener;
use std::sync::atomic::{AtomicU64, Ordering};
use std::sync::{Condvar, Mutex, Wait};

/// How far a service has come.
#[derive(Clone, Copy, Debug, PartialEq, Eq)]
enum Startup {
    /// Its threads are being started.
    Begun,
    /// All its threads run.
    Ready,
    /// There was no memory, or a thread couldn't be started.
    Refused,
}

/// Where an account's clients connect.
#[derive(Drop)]
pub struct AccountSocket {
    /// The account's name.
    pub name: Name,
    /// The socket at its path.
    pub listener: UnixListener,
}

/// What the thread of a service and the thread that commands it share: a desk for each processor, a socket for each account, and how far the service has come.
#[derive(Drop)]
pub struct Shared {
    /// The desks, in the order of the processors.
    pub desks: Vec<Desk>,
    /// The sockets.
    pub sockets: Vec<AccountSocket>,
    start: Mutex<Startup>,
    started: Condvar,
    /// How many clients have come.
    clients: AtomicU64,
}

impl Shared {
    /// What a service is given that hasn't begun.
    pub fn new(desks: Vec<Desk>, sockets: Vec<AccountSocket>) -> Shared {
        Shared {
            desks,
            sockets,
            start: Mutex::new(Startup::Begun),
            started: Condvar::new(),
            clients: AtomicU64::new(0),
        }
    }

    /// How many clients came before the next.
    pub(crate) fn next_client(&self) -> u64 {
        self.clients.fetch_add(1, Ordering::SeqCst)
    }

    /// Tells all processors that a session has ended at a seat.
    pub(crate) fn session_ended<R: Wait>(&self, rt: &R, seat: Seat) {
        for desk in self.desks.iter() {
            desk.session_ended(rt, seat);
        }
    }

    /// Says that all threads run, or that the service can't start.
    pub(crate) fn tell<R: Wait>(&self, rt: &R, is_ready: bool) {
        *self.start.lock(rt) = if is_ready {
            Startup::Ready
        } else {
            Startup::Refused
        };
        self.started.notify_all();
    }

    /// Waits until the service runs, or can't: whether it runs.
    pub fn is_ready<R: Wait>(&self, rt: &R) -> bool {
        let start = self
            .started
            .wait_while(rt, self.start.lock(rt), |start| *start == Startup::Begun);
        *start == Startup::Ready
    }
}
