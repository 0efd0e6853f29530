//! The first path, with and without an early look, and what ends a script.
use crate::calls::{Play, both, only_at, opened, run, says};
use crate::met;
use dt_chain::Seat;
use dt_hub::{Fired, Looked, NoGate, Offered};
use dt_hub_calls::texts::{DONE, ENABLE, ENABLED, GO, MACHINE, STOP};
use dt_hub_calls::{HubCalls, SessionCalls};
use std::alloc::Global;
use std::process::Abort;
use std::sync::Wait;
use std::test::Fail;

pub(crate) const SNAP: &str = r#"{"cmd":"snap","cpu":0}"#;

pub(crate) const ONE_RECORD: &str =
    "{\"cpu\":0,\"data\":\"00000001\",\"drops\":0,\"filled\":false,\"ok\":true}\n";

/// A session of an account's that traces.
pub(crate) fn tracing<H: HubCalls, R: Wait + Abort>(
    rt: &R,
    alloc: Global,
    hub: &H,
    name: &str,
) -> H::Session {
    let mut session = opened(rt, alloc, hub, name);
    says(rt, alloc, hub, &mut session, ENABLE, ENABLED);
    says(rt, alloc, hub, &mut session, GO, DONE);
    session
}

/// A processor's first firing is kept on the first seat, and named no other.
pub(crate) fn keeps_first<H: HubCalls, R: Wait + Abort>(rt: &R, hub: &H, token: &mut H::Token) {
    assert_eq!(rt; hub.fire(rt, token, &NoGate), Fired::At(0));
    only_at(rt, token, 0, Offered::Kept);
}

/// A firing is recorded, and its session sees it.
struct FirstPath;

impl Play for FirstPath {
    fn play<H: HubCalls, R: Wait + Abort>(
        &self,
        rt: &R,
        alloc: Global,
        hub: &H,
        tokens: Vec<H::Token>,
    ) -> Result<(), Fail> {
        let (mut one, _other) = both(rt, tokens)?;
        let mut session = tracing(rt, alloc, hub, "root");
        keeps_first(rt, hub, &mut one);
        assert_eq!(rt; hub.seen(&mut session), 3);
        says(rt, alloc, hub, &mut session, SNAP, ONE_RECORD);
        assert_eq!(rt; hub.fire(rt, &mut one, &NoGate), Fired::End);
        hub.close(rt, session);
        Ok(())
    }
}

#[test]
fn a_firing_is_kept(rt: HostRuntime) -> Result<(), Fail> {
    run(&rt, rt.alloc(), MACHINE, &FirstPath)
}

/// The next firing of a processor would be offered to this life of a seat, and to nobody else.
pub(crate) fn looks<H: HubCalls, R: Abort>(
    rt: &R,
    hub: &H,
    token: &mut H::Token,
    named: u32,
    life: u64,
) {
    let Looked::At { place, mask } = hub.look(token) else {
        assert!(rt; false, "no look");
        return;
    };
    assert_eq!(rt; place, 0);
    for number in 0..256 {
        let Some(seat) = Seat::new(number) else {
            assert!(rt; false, "no seat");
            return;
        };
        let expected = if number == named { Some(life) } else { None };
        assert_eq!(rt; mask.life_of(seat), expected);
    }
}

/// Looks take nothing from the script.
struct LooksFirst;

impl Play for LooksFirst {
    fn play<H: HubCalls, R: Wait + Abort>(
        &self,
        rt: &R,
        alloc: Global,
        hub: &H,
        tokens: Vec<H::Token>,
    ) -> Result<(), Fail> {
        let (mut one, _other) = both(rt, tokens)?;
        let session = tracing(rt, alloc, hub, "root");
        looks(rt, hub, &mut one, 0, 0);
        looks(rt, hub, &mut one, 0, 0);
        keeps_first(rt, hub, &mut one);
        assert!(rt; matches!(hub.look(&mut one), Looked::End));
        hub.close(rt, session);
        Ok(())
    }
}

#[test]
fn looks_take_nothing(rt: HostRuntime) -> Result<(), Fail> {
    run(&rt, rt.alloc(), MACHINE, &LooksFirst)
}

/// A look names nobody on the first seat.
pub(crate) fn names_nobody<H: HubCalls, R: Abort>(rt: &R, hub: &H, token: &mut H::Token) {
    match (hub.look(token), Seat::new(0)) {
        (Looked::At { mask, .. }, Some(seat)) => assert_eq!(rt; mask.life_of(seat), None),
        _ => assert!(rt; false, "no look"),
    }
}

/// What has stopped or closed is named no more.
struct Withdrawn;

impl Play for Withdrawn {
    fn play<H: HubCalls, R: Wait + Abort>(
        &self,
        rt: &R,
        alloc: Global,
        hub: &H,
        tokens: Vec<H::Token>,
    ) -> Result<(), Fail> {
        let (mut one, _other) = both(rt, tokens)?;
        let mut session = tracing(rt, alloc, hub, "root");
        looks(rt, hub, &mut one, 0, 0);
        says(rt, alloc, hub, &mut session, STOP, DONE);
        names_nobody(rt, hub, &mut one);
        hub.close(rt, session);
        let session = tracing(rt, alloc, hub, "root");
        looks(rt, hub, &mut one, 0, 1);
        hub.close(rt, session);
        names_nobody(rt, hub, &mut one);
        Ok(())
    }
}

#[test]
fn a_publication_goes_with_its_tracing(rt: HostRuntime) -> Result<(), Fail> {
    run(&rt, rt.alloc(), MACHINE, &Withdrawn)
}

/// A processor fires what it fired before, once a session has closed, and once more as another traces.
struct ClosedBetween;

impl Play for ClosedBetween {
    fn play<H: HubCalls, R: Wait + Abort>(
        &self,
        rt: &R,
        alloc: Global,
        hub: &H,
        tokens: Vec<H::Token>,
    ) -> Result<(), Fail> {
        let (mut one, _other) = both(rt, tokens)?;
        let session = tracing(rt, alloc, hub, "root");
        keeps_first(rt, hub, &mut one);
        // nobody asks a line between the close and the firing
        hub.close(rt, session);
        assert_eq!(rt; hub.fire(rt, &mut one, &NoGate), Fired::At(1));
        only_at(rt, &one, 0, Offered::NotNamed);
        let session = tracing(rt, alloc, hub, "root");
        assert_eq!(rt; hub.fire(rt, &mut one, &NoGate), Fired::At(2));
        only_at(rt, &one, 0, Offered::Kept);
        hub.close(rt, session);
        Ok(())
    }
}

#[test]
fn a_firing_names_what_is_published_by_then(rt: HostRuntime) -> Result<(), Fail> {
    run(&rt, rt.alloc(), met::MACHINE, &ClosedBetween)
}

/// A session on the second seat that traces what the first one does.
fn traces_too<H: HubCalls, R: Wait + Abort>(rt: &R, alloc: Global, hub: &H) -> H::Session {
    let session = tracing(rt, alloc, hub, "root");
    assert_eq!(rt; session.seat().number(), 1);
    session
}

/// Where a session stops or closes, its own publication goes, and no other's.
struct OthersStay;

impl Play for OthersStay {
    fn play<H: HubCalls, R: Wait + Abort>(
        &self,
        rt: &R,
        alloc: Global,
        hub: &H,
        tokens: Vec<H::Token>,
    ) -> Result<(), Fail> {
        let (mut one, _other) = both(rt, tokens)?;
        let session = tracing(rt, alloc, hub, "root");
        let mut other = traces_too(rt, alloc, hub);
        says(rt, alloc, hub, &mut other, STOP, DONE);
        looks(rt, hub, &mut one, 0, 0);
        hub.close(rt, other);
        let other = traces_too(rt, alloc, hub);
        hub.close(rt, other);
        looks(rt, hub, &mut one, 0, 0);
        keeps_first(rt, hub, &mut one);
        hub.close(rt, session);
        Ok(())
    }
}

#[test]
fn no_other_publication_goes(rt: HostRuntime) -> Result<(), Fail> {
    run(&rt, rt.alloc(), MACHINE, &OthersStay)
}
