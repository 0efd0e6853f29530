//! A processor whose firing found a life gone, and the session that was opened on its seat then.
use crate::calls::{Play, both, run};
use crate::met::{Firing, GOES, MACHINE, comes_to, meet};
use crate::paths::tracing;
use dt_hub::{Fired, Gate, Moment, Offered};
use dt_hub_calls::{HubCalls, SessionCalls, at_seat};
use std::alloc::{AllocError, Global};
use std::process::Abort;
use std::sync::{Mutex, MutexGuard, Wait};
use std::test::Fail;

/// A gate at which a session closes and another is opened, before the processor takes the lock of their seat.
struct Change<'a, H: HubCalls, R: Wait + Abort> {
    rt: &'a R,
    alloc: Global,
    hub: &'a H,
    session: Mutex<Option<H::Session>>,
}

impl<H: HubCalls, R: Wait + Abort> Change<'_, H, R> {
    /// The session closes, and another is opened.
    fn next(&self, session: H::Session) -> H::Session {
        self.hub.close(self.rt, session);
        tracing(self.rt, self.alloc, self.hub, "root")
    }
}

impl<H: HubCalls, R: Wait + Abort> Gate for Change<'_, H, R> {
    fn at(&self, _cpu: u32, _seat: u32, moment: Moment) {
        if moment != Moment::Before {
            return;
        }
        let mut session = self.session.lock(self.rt);
        if let Some(old) = session.take() {
            let next = self.next(old);
            if let Some(other) = session.replace(next) {
                self.hub.close(self.rt, other);
            }
        }
        MutexGuard::unlock(session);
    }
}

/// A processor fires as a session closes and another is opened: the life that was named is gone. Answers the session that is open then.
fn finds_gone<H: HubCalls, R: Wait + Abort>(
    rt: &R,
    alloc: Global,
    hub: &H,
    session: H::Session,
    firing: &mut Firing<H::Token>,
) -> Result<H::Session, Fail> {
    let gate = Change {
        rt,
        alloc,
        hub,
        session: Mutex::new(Some(session)),
    };
    let came = hub.fire(rt, &mut firing.token, &gate);
    let Change {
        rt: _rt,
        alloc: _alloc,
        hub: _hub,
        session,
    } = gate;
    assert_eq!(rt; came, Fired::At(0));
    assert_eq!(rt; at_seat(&firing.token, 0), Offered::Gone);
    Ok(session.into_inner().ok_or("no session")?)
}

/// The processor meets the session, fires for it, and meets it again.
fn meets_the_next<H: HubCalls, R: Wait + Abort>(
    rt: &R,
    alloc: Global,
    hub: &H,
    session: &mut H::Session,
    firing: &mut Firing<H::Token>,
) -> Result<(), AllocError> {
    assert_eq!(rt; (session.seat().number(), session.life()), (0, 1));
    firing.found_gone(alloc, session)?;
    assert_eq!(rt; meet(rt, alloc, hub, session, firing, GOES)?, 2);
    comes_to(rt, hub, firing, Offered::Kept)?;
    assert_eq!(rt; meet(rt, alloc, hub, session, firing, GOES)?, 3);
    Ok(())
}

/// A session closes as a firing is offered to it.
struct Closing;

impl Play for Closing {
    fn play<H: HubCalls, R: Wait + Abort>(
        &self,
        rt: &R,
        alloc: Global,
        hub: &H,
        tokens: Vec<H::Token>,
    ) -> Result<(), Fail> {
        let (one, _other) = both(rt, tokens)?;
        let session = tracing(rt, alloc, hub, "root");
        let mut firing = Firing::new(alloc, one, &session);
        let mut session = finds_gone(rt, alloc, hub, session, &mut firing)?;
        let met = meets_the_next(rt, alloc, hub, &mut session, &mut firing);
        hub.close(rt, session);
        met?;
        Ok(())
    }
}

#[test]
fn who_found_a_life_gone_meets_the_next(rt: HostRuntime) -> Result<(), Fail> {
    run(&rt, rt.alloc(), MACHINE, &Closing)
}
