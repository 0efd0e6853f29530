//! What was published goes, though its `go` was refused for memory.
use crate::calls::{Play, both, opened, run, says};
use crate::endings::CLOSE;
use crate::met;
use crate::met::{Firing, MANY, comes, comes_to, meet};
use crate::paths::looks;
use dt_hub::{LineAnswer, Offered};
use dt_hub_calls::texts::{DONE, ENABLE, ENABLE_WRITES, ENABLED, GO, MACHINE, STOP};
use dt_hub_calls::{HubCalls, Sight, answered};
use std::alloc::{AllocError, Global};
use std::process::Abort;
use std::sync::Wait;
use std::test::Fail;

/// A session that has enabled a probe and doesn't trace yet.
fn enabled<H: HubCalls, R: Wait + Abort>(rt: &R, alloc: Global, hub: &H) -> H::Session {
    let mut session = opened(rt, alloc, hub, "root");
    says(rt, alloc, hub, &mut session, ENABLE, ENABLED);
    session
}

/// The session on the second seat traces, and it alone is named.
fn traces_alone<H: HubCalls, R: Wait + Abort>(
    rt: &R,
    alloc: Global,
    hub: &H,
    second: &mut H::Session,
    token: &mut H::Token,
) {
    says(rt, alloc, hub, second, GO, DONE);
    looks(rt, hub, token, 1, 0);
}

/// What a session does once it has asked a `go`.
#[derive(Clone, Copy)]
enum Then {
    /// It is closed.
    Closes,
    /// It asks a `close`, which stops it before it has traced, if its `go` was refused.
    AsksClose,
    /// It asks the `go` again, and then a `stop`.
    GoesAgain,
}

/// A session asks a `go`, whose publication is the first write of its hub: for that one alone the chains take memory when it stands in the list of all writes, and
/// `rt try --test --fail-alloc` can have that refused. Whether or not it is, once the session has stopped, or has closed, nothing of it stays published.
#[derive(Clone, Copy)]
struct AfterGo {
    then: Then,
}

impl Play for AfterGo {
    fn play<H: HubCalls, R: Wait + Abort>(
        &self,
        rt: &R,
        alloc: Global,
        hub: &H,
        tokens: Vec<H::Token>,
    ) -> Result<(), Fail> {
        let (mut one, _other) = both(rt, tokens)?;
        let mut first = enabled(rt, alloc, hub);
        let mut second = enabled(rt, alloc, hub);
        drop(answered(rt, alloc, hub, &mut first, GO));
        match self.then {
            Then::Closes => {
                hub.close(rt, first);
                traces_alone(rt, alloc, hub, &mut second, &mut one);
            }
            Then::AsksClose => {
                drop(answered(rt, alloc, hub, &mut first, CLOSE));
                traces_alone(rt, alloc, hub, &mut second, &mut one);
                hub.close(rt, first);
            }
            Then::GoesAgain => {
                drop(answered(rt, alloc, hub, &mut first, GO));
                drop(answered(rt, alloc, hub, &mut first, STOP));
                traces_alone(rt, alloc, hub, &mut second, &mut one);
                hub.close(rt, first);
            }
        }
        hub.close(rt, second);
        Ok(())
    }
}

/// A processor fires what a session wants that has asked its `go` once: it is kept, or isn't seen yet, or named, where that `go` was refused for memory.
fn comes_early<H: HubCalls, R: Wait + Abort>(
    rt: &R,
    hub: &H,
    one: &mut Firing<H::Token>,
    refused: bool,
) -> Result<(), AllocError> {
    let came = comes(rt, hub, one)?;
    if refused {
        assert!(rt;
            matches!(came, Offered::Unseen { known: 2 } | Offered::NotNamed),
            "kept before its go"
        );
    } else {
        assert_eq!(rt; came, Offered::Kept);
    }
    Ok(())
}

/// A session asks its `go`, enables another probe and asks it again, as a processor fires. Where the first `go` was refused for memory, its publication, which has one
/// probe, may come with the next write, and the second `go` publishes both.
fn goes_twice<H: HubCalls, R: Wait + Abort>(
    rt: &R,
    alloc: Global,
    hub: &H,
    first: &mut H::Session,
    second: &mut H::Session,
    one: &mut Firing<H::Token>,
) -> Result<(), AllocError> {
    let refused = matches!(answered(rt, alloc, hub, first, GO), LineAnswer::Memory);
    one.wants_writes = refused;
    let (go, stop) = if refused { (2, 3) } else { (1, 4) };
    drop(answered(rt, alloc, hub, first, ENABLE_WRITES));
    says(rt, alloc, hub, second, GO, DONE);
    comes_early(rt, hub, one, refused)?;
    comes_early(rt, hub, one, refused)?;
    comes_early(rt, hub, one, refused)?;
    comes_to(rt, hub, one, Offered::NotNamed)?;
    drop(answered(rt, alloc, hub, first, GO));
    comes_to(rt, hub, one, Offered::Kept)?;
    let write = if refused {
        Offered::Kept
    } else {
        Offered::NotNamed
    };
    comes_to(rt, hub, one, write)?;
    let sight = Sight {
        go,
        stop: Some(stop),
        history: MANY,
    };
    meet(rt, alloc, hub, first, one, sight)?;
    says(rt, alloc, hub, first, STOP, DONE);
    comes_to(rt, hub, one, Offered::NotNamed)?;
    meet(rt, alloc, hub, first, one, sight)?;
    Ok(())
}

/// A session that asks its `go` twice meets a processor.
struct GoesTwice;

impl Play for GoesTwice {
    fn play<H: HubCalls, R: Wait + Abort>(
        &self,
        rt: &R,
        alloc: Global,
        hub: &H,
        tokens: Vec<H::Token>,
    ) -> Result<(), Fail> {
        let (one, _other) = both(rt, tokens)?;
        let mut first = enabled(rt, alloc, hub);
        let mut second = enabled(rt, alloc, hub);
        let mut one = Firing::new(alloc, one, &first);
        let met = goes_twice(rt, alloc, hub, &mut first, &mut second, &mut one);
        hub.close(rt, first);
        hub.close(rt, second);
        met?;
        Ok(())
    }
}

#[test]
fn a_refused_go_that_comes_later_is_met(rt: HostRuntime) -> Result<(), Fail> {
    run(&rt, rt.alloc(), met::MACHINE, &GoesTwice)
}

#[test]
fn a_refused_go_is_withdrawn_as_its_session_closes(rt: HostRuntime) -> Result<(), Fail> {
    run(&rt, rt.alloc(), MACHINE, &AfterGo { then: Then::Closes })
}

#[test]
fn a_refused_go_is_withdrawn_with_its_close(rt: HostRuntime) -> Result<(), Fail> {
    let then = Then::AsksClose;
    run(&rt, rt.alloc(), MACHINE, &AfterGo { then })
}

#[test]
fn a_refused_go_is_withdrawn_with_the_stop_after_the_next(rt: HostRuntime) -> Result<(), Fail> {
    let then = Then::GoesAgain;
    run(&rt, rt.alloc(), MACHINE, &AfterGo { then })
}
