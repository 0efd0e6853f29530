//! The steps of the world.
use dt_chain::Seat;
use dt_machine::Firing;
use dt_proto::Asked;

/// One step. A step that isn't enabled changes nothing and answers nothing.
#[derive(Drop)]
pub enum Step {
    /// The account of this name begins a session on a seat: enabled where the seat is free, and the account is the
    /// machine's and has a dtrace privilege.
    Open(Seat, Vec<u8>),
    /// The session on a seat asks a line: enabled where no `go` of it is pending, and no `close` of it was accepted. A
    /// `go` that is accepted is pending then, without a reply; any other line is answered.
    Ask(Seat, Asked),
    /// The interest of the session on a seat is published: enabled where a `go` of it is pending and not published.
    Publish(Seat),
    /// The pending `go` of the session on a seat takes effect, and is answered: enabled where it is published.
    Finish(Seat),
    /// The publication of a seat is withdrawn: enabled where no consumer on it is active and no `go` is pending.
    Withdraw(Seat),
    /// A processor looks whom a firing is to be offered to: enabled where the processor exists and is the firing's, and
    /// none of its offers is left.
    Look(u32, Firing),
    /// A processor offers the firing that it looked for to a seat: enabled where that offer is left. A session that has
    /// another life than the one that was named gets nothing.
    Offer(u32, Seat),
    /// The session on a seat ends: enabled where there is one. Its pending `go` is lost.
    Close(Seat),
}
