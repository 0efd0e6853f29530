//! As many sessions as there are seats, and one too many.
use crate::calls::{Play, both, run};
use crate::paths::tracing;
use dt_chain::SEATS;
use dt_hub::{Fired, NoGate, Offered, OpenFault};
use dt_hub_calls::texts::MACHINE;
use dt_hub_calls::{HubCalls, SessionCalls, at_seat};
use std::alloc::Global;
use std::process::Abort;
use std::sync::Wait;
use std::test::Fail;

/// No further session is had.
fn has_no_seat<H: HubCalls, R: Wait + Abort>(rt: &R, alloc: Global, hub: &H) {
    match hub.open(rt, alloc, "root") {
        Ok(session) => {
            hub.close(rt, session);
            assert!(rt; false, "a session too many");
        }
        Err(fault) => assert_eq!(rt; fault, OpenFault::Full),
    }
}

/// A processor's only firing is kept at each seat.
fn keeps_at_all<H: HubCalls, R: Wait + Abort>(rt: &R, hub: &H, token: &mut H::Token) {
    assert_eq!(rt; hub.fire(rt, token, &NoGate), Fired::At(0));
    for number in 0..SEATS as u32 {
        assert_eq!(rt; at_seat(token, number), Offered::Kept);
    }
}

/// Opens sessions that trace on the seats from this one on, looks that no further one is had and that a firing is kept by all, and closes them.
fn opens_from<H: HubCalls, R: Wait + Abort>(
    rt: &R,
    alloc: Global,
    hub: &H,
    token: &mut H::Token,
    seat: u32,
    left: u32,
) {
    if left == 0 {
        has_no_seat(rt, alloc, hub);
        keeps_at_all(rt, hub, token);
        return;
    }
    let session = tracing(rt, alloc, hub, "root");
    assert_eq!(rt; session.seat().number(), seat);
    opens_from(rt, alloc, hub, token, seat + 1, left - 1);
    hub.close(rt, session);
}

/// All seats are taken, and trace, twice.
struct AllSeats;

impl Play for AllSeats {
    fn play<H: HubCalls, R: Wait + Abort>(
        &self,
        rt: &R,
        alloc: Global,
        hub: &H,
        tokens: Vec<H::Token>,
    ) -> Result<(), Fail> {
        let (mut one, mut other) = both(rt, tokens)?;
        opens_from(rt, alloc, hub, &mut one, 0, SEATS as u32);
        opens_from(rt, alloc, hub, &mut other, 0, SEATS as u32);
        Ok(())
    }
}

#[test]
fn there_is_no_seat_for_one_more(rt: HostRuntime) -> Result<(), Fail> {
    run(&rt, rt.alloc(), MACHINE, &AllSeats)
}

/// Who may not trace, and that a refused session takes no seat.
struct NoPrivilege;

impl Play for NoPrivilege {
    fn play<H: HubCalls, R: Wait + Abort>(
        &self,
        rt: &R,
        alloc: Global,
        hub: &H,
        tokens: Vec<H::Token>,
    ) -> Result<(), Fail> {
        drop(tokens);
        for name in ["joe", "nobody", ""] {
            match hub.open(rt, alloc, name) {
                Ok(session) => {
                    hub.close(rt, session);
                    assert!(rt; false, "a session without a privilege");
                }
                Err(fault) => assert_eq!(rt; fault, OpenFault::NoPrivilege),
            }
        }
        let session = tracing(rt, alloc, hub, "ann");
        assert_eq!(rt; session.seat().number(), 0);
        hub.close(rt, session);
        Ok(())
    }
}

#[test]
fn an_account_without_a_privilege_may_not_trace(rt: HostRuntime) -> Result<(), Fail> {
    run(&rt, rt.alloc(), MACHINE, &NoPrivilege)
}
