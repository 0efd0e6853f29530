//! Where work is put for a processor's thread, and what it did is taken.
use dt_chain::{Seat, SeatSet};
use std::sync::{Condvar, Mutex, Wait};

/// What was asked of a processor.
#[derive(Clone, Copy, Debug, PartialEq, Eq)]
enum Task {
    /// Nothing: the processor waits for work.
    Idle,
    /// So many firings are to be made.
    Asked(u32),
    /// So many were made.
    Done(u32),
}

/// What lies on a desk.
#[derive(Clone, Copy)]
struct Orders {
    task: Task,
    /// The seats at which sessions have ended since the processor let go of such.
    ended: SeatSet,
}

/// What a processor's thread does next.
#[derive(Clone, Copy, PartialEq, Eq)]
pub(crate) enum Duty {
    /// It makes so many firings.
    Fire(u32),
    /// It lets go of sessions that have ended at a seat.
    LetGo(Seat),
}

/// Where one thread asks a processor's thread for firings, and waits until they are made. One thread asks at a time. Any thread tells it that a session has ended.
#[derive(Drop)]
pub struct Desk {
    orders: Mutex<Orders>,
    turned: Condvar,
}

impl Desk {
    /// A desk with nothing on it.
    pub fn new() -> Desk {
        Desk {
            orders: Mutex::new(Orders {
                task: Task::Idle,
                ended: SeatSet::new(),
            }),
            turned: Condvar::new(),
        }
    }

    /// Asks for so many firings, and waits until the processor says how many it made.
    pub fn step<R: Wait>(&self, rt: &R, count: u32) -> u32 {
        self.orders.lock(rt).task = Task::Asked(count);
        self.turned.notify_all();
        let mut orders = self.orders.lock(rt);
        for _ in rt.forever() {
            if let Task::Done(made) = orders.task {
                orders.task = Task::Idle;
                return made;
            }
            orders = self.turned.wait(rt, orders);
        }
        unreachable!()
    }

    /// Tells that a session has ended at a seat.
    pub(crate) fn session_ended<R: Wait>(&self, rt: &R, seat: Seat) {
        self.orders.lock(rt).ended.insert(seat);
        self.turned.notify_all();
    }

    /// Waits until there is something to do, and says what. Firings come first: to let go of a session that has ended takes the lock of its seat, which a later session may have
    /// for a long line.
    pub(crate) fn next<R: Wait>(&self, rt: &R) -> Duty {
        let mut orders = self.orders.lock(rt);
        for _ in rt.forever() {
            if let Task::Asked(count) = orders.task {
                return Duty::Fire(count);
            }
            if let Some(seat) = orders.ended.first() {
                orders.ended.remove(seat);
                return Duty::LetGo(seat);
            }
            orders = self.turned.wait(rt, orders);
        }
        unreachable!()
    }

    /// Says how many firings were made.
    pub(crate) fn done<R: Wait>(&self, rt: &R, made: u32) {
        self.orders.lock(rt).task = Task::Done(made);
        self.turned.notify_all();
    }
}
