//! Where a test may hold a processor.

/// When a processor passes the gate of a seat that it offers a firing to.
#[derive(Clone, Copy, Debug, PartialEq, Eq)]
pub enum Moment {
    /// Before it asks for the seat's lock. Where another has that, the processor goes on to the other seats, and passes this one's `Locked` as it comes back: not this once more.
    Before,
    /// As it has the lock, and has offered nothing yet.
    Locked,
    /// When it has let the lock go.
    After,
}

/// What a processor passes, at each seat that a firing of its is offered to: a test may hold it there. A service takes [`NoGate`].
pub trait Gate {
    /// A processor passes a seat. It goes on when this returns.
    fn at(&self, cpu: u32, seat: u32, moment: Moment);
}

/// Holds nobody.
#[derive(Clone, Copy, Debug)]
pub struct NoGate;

impl Gate for NoGate {
    fn at(&self, _cpu: u32, _seat: u32, _moment: Moment) {}
}
