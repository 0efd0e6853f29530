//! A session and a processor that meet.
use crate::calls::{Play, both, opened, run, says};
use crate::paths::{ONE_RECORD, SNAP, tracing};
use dt_hub::{Fired, NoGate, Offered};
use dt_hub_calls::texts::{DONE, ENABLE, ENABLED, GO, STATUS, STOP};
use dt_hub_calls::{HubCalls, LifeHeard, SessionCalls, Sight, TokenCalls, meet_heard};
use std::alloc::{AllocError, Global};
use std::process::Abort;
use std::sync::Wait;
use std::test::Fail;

/// Processor 0 fires another probe at two places.
pub(crate) const MACHINE: &str = r#"{"cpus":2,
"accounts":[{"name":"root","uid":0,"privs":["dtrace_kernel"]}],
"processes":[{"pid":100,"uid":501,"execname":"sh"}],
"probes":["syscall::read:entry","syscall::write:entry"],
"scripts":[[{"probe":3,"pid":100},{"probe":3,"pid":100},{"probe":3,"pid":100},{"probe":4,"pid":100},{"probe":3,"pid":100},
{"probe":4,"pid":100},{"probe":3,"pid":100}],
[{"probe":3,"pid":100},{"probe":3,"pid":100},{"probe":3,"pid":100}]]}"#;

/// Whether a firing of a processor is of that probe.
fn is_write(cpu: u32, place: u32) -> bool {
    cpu == 0 && (place == 3 || place == 5)
}

const TWO_FIRINGS: &str = r#"{"cmd":"option","name":"histsize","value":2}"#;

const ENDED: &str =
    "{\"aggdrops\":[0,0],\"cause\":\"history\",\"dyndrops\":[0,0],\"errors\":[0,0],\"exit\":null,\"ok\":true,\"phase\":\"stopped\",\"seen\":2,\"specdrops\":[0,0],\"specfails\":0}\n";

/// More firings than any session of these tests sees.
pub(crate) const MANY: u64 = 1_000;

/// A session whose second line is its `go`.
pub(crate) const GOES: Sight = Sight {
    go: 1,
    stop: None,
    history: MANY,
};

/// A processor, and what it was answered of the life of a session.
#[derive(Drop)]
pub(crate) struct Firing<T: TokenCalls> {
    pub(crate) token: T,
    heard: LifeHeard,
    /// Whether the session has enabled the other probe.
    pub(crate) wants_writes: bool,
}

impl<T: TokenCalls> Firing<T> {
    /// A processor that fired nothing.
    pub(crate) fn new<S: SessionCalls>(alloc: Global, token: T, session: &S) -> Firing<T> {
        let heard = LifeHeard::new(alloc, session);
        Firing {
            token,
            heard,
            wants_writes: false,
        }
    }

    /// Its firing, which was offered to the session before on the seat of this one, found that life gone: nothing of it came to this session.
    pub(crate) fn found_gone<S: SessionCalls>(
        &mut self,
        alloc: Global,
        session: &S,
    ) -> Result<(), AllocError> {
        self.heard.fired(&self.token, true)?;
        self.heard = self.heard.next(alloc, session)?;
        Ok(())
    }
}

/// A processor fires: what comes of it at the life of a session.
pub(crate) fn comes<H: HubCalls, R: Wait + Abort>(
    rt: &R,
    hub: &H,
    firing: &mut Firing<H::Token>,
) -> Result<Offered, AllocError> {
    let Fired::At(place) = hub.fire(rt, &mut firing.token, &NoGate) else {
        assert!(rt; false, "no firing");
        return Ok(Offered::Gone);
    };
    let is_wanted = firing.wants_writes || !is_write(firing.token.cpu(), place);
    firing.heard.fired(&firing.token, is_wanted)
}

/// A processor fires, and this comes of it.
pub(crate) fn comes_to<H: HubCalls, R: Wait + Abort>(
    rt: &R,
    hub: &H,
    firing: &mut Firing<H::Token>,
    came: Offered,
) -> Result<(), AllocError> {
    assert_eq!(rt; comes(rt, hub, firing)?, came);
    Ok(())
}

/// A session and a processor meet. The session then knows so many items, which are all, and the processor's firings stand with these in one row.
pub(crate) fn meet<H: HubCalls, R: Wait + Abort>(
    rt: &R,
    alloc: Global,
    hub: &H,
    session: &mut H::Session,
    firing: &mut Firing<H::Token>,
    sight: Sight,
) -> Result<u64, AllocError> {
    let Firing { token, heard, .. } = firing;
    let met = meet_heard(rt, alloc, hub, session, token, heard, sight)?;
    Ok(met.expect(rt, "no row in common"))
}

/// One of a machine's two processors.
#[derive(Clone, Copy)]
enum Which {
    One,
    Other,
}

/// The two processors, and what each was answered.
#[derive(Drop)]
struct Processors<T: TokenCalls> {
    one: Firing<T>,
    other: Firing<T>,
}

impl<T: TokenCalls> Processors<T> {
    fn at(&mut self, which: Which) -> &mut Firing<T> {
        match which {
            Which::One => &mut self.one,
            Which::Other => &mut self.other,
        }
    }
}

/// What a session and a processor do.
#[derive(Clone, Copy)]
enum Act {
    /// The session asks a line, and is answered so.
    Asks {
        line: &'static str,
        reply: &'static str,
    },
    /// The processor fires, and this comes of it.
    Fires {
        which: Which,
        came: Offered,
    },
    /// The processor has no more to fire.
    Ends {
        which: Which,
    },
    /// The processor is told what the session knows, which are so many items.
    Tells {
        which: Which,
        items: u64,
    },
    /// They meet: the session then knows so many items.
    Meets {
        which: Which,
        items: u64,
        sight: Sight,
    },
}

const ENABLES: Act = Act::Asks {
    line: ENABLE,
    reply: ENABLED,
};

const BEGINS: Act = Act::Asks {
    line: GO,
    reply: DONE,
};

const STOPS: Act = Act::Asks {
    line: STOP,
    reply: DONE,
};

const SNAPS: Act = Act::Asks {
    line: SNAP,
    reply: ONE_RECORD,
};

const ONE_KEPT: Act = Act::Fires {
    which: Which::One,
    came: Offered::Kept,
};

const ONE_NOT_NAMED: Act = Act::Fires {
    which: Which::One,
    came: Offered::NotNamed,
};

/// The session that is full had seen this much of the trail.
const ONE_UNSEEN: Act = Act::Fires {
    which: Which::One,
    came: Offered::Unseen { known: 5 },
};

const OTHER_KEPT: Act = Act::Fires {
    which: Which::Other,
    came: Offered::Kept,
};

const OTHER_NOT_NAMED: Act = Act::Fires {
    which: Which::Other,
    came: Offered::NotNamed,
};

/// A session that stops by its fourth line, and by its third.
const STOPPED_LATER: Sight = Sight {
    go: 1,
    stop: Some(3),
    history: MANY,
};

const STOPPED: Sight = Sight {
    go: 1,
    stop: Some(2),
    history: MANY,
};

/// A session whose third line is its `go`, with a history of two firings.
const FULL: Sight = Sight {
    go: 2,
    stop: None,
    history: 2,
};

/// A processor fires before a session goes, before it is told of it and after; then they meet, and go on, and meet again.
const GOES_ON: [Act; 17] = [
    ONE_NOT_NAMED,
    ENABLES,
    BEGINS,
    ONE_KEPT,
    SNAPS,
    Act::Tells {
        which: Which::One,
        items: 4,
    },
    OTHER_KEPT,
    ONE_KEPT,
    ONE_NOT_NAMED,
    OTHER_KEPT,
    Act::Meets {
        which: Which::One,
        items: 7,
        sight: GOES,
    },
    ONE_KEPT,
    ONE_NOT_NAMED,
    STOPS,
    ONE_NOT_NAMED,
    Act::Meets {
        which: Which::Other,
        items: 9,
        sight: STOPPED_LATER,
    },
    Act::Meets {
        which: Which::One,
        items: 9,
        sight: STOPPED_LATER,
    },
];

/// A firing ends the life of a session; then its processors fire as it is named, and once it isn't.
const FILLS_UP: [Act; 16] = [
    Act::Asks {
        line: TWO_FIRINGS,
        reply: DONE,
    },
    ENABLES,
    BEGINS,
    ONE_KEPT,
    OTHER_KEPT,
    ONE_UNSEEN,
    ONE_UNSEEN,
    ONE_NOT_NAMED,
    Act::Meets {
        which: Which::One,
        items: 5,
        sight: FULL,
    },
    ONE_UNSEEN,
    ONE_NOT_NAMED,
    Act::Asks {
        line: STATUS,
        reply: ENDED,
    },
    ONE_NOT_NAMED,
    OTHER_NOT_NAMED,
    Act::Meets {
        which: Which::Other,
        items: 6,
        sight: FULL,
    },
    Act::Meets {
        which: Which::One,
        items: 6,
        sight: FULL,
    },
];

/// A processor fires before a session goes, as it traces, and once it has stopped; then they meet.
const KEEPS_ONE: [Act; 8] = [
    ENABLES,
    OTHER_NOT_NAMED,
    BEGINS,
    OTHER_KEPT,
    STOPS,
    OTHER_NOT_NAMED,
    Act::Ends {
        which: Which::Other,
    },
    Act::Meets {
        which: Which::Other,
        items: 4,
        sight: STOPPED,
    },
];

/// The same, where the processor was told of the `go`.
const KEEPS_ONE_TOLD: [Act; 9] = [
    ENABLES,
    OTHER_NOT_NAMED,
    BEGINS,
    Act::Tells {
        which: Which::Other,
        items: 2,
    },
    OTHER_KEPT,
    STOPS,
    OTHER_NOT_NAMED,
    Act::Ends {
        which: Which::Other,
    },
    Act::Meets {
        which: Which::Other,
        items: 4,
        sight: STOPPED,
    },
];

/// The first life of a seat: one processor takes its note, and the other is told of it.
const LIVES_FIRST: [Act; 4] = [
    ONE_KEPT,
    SNAPS,
    Act::Tells {
        which: Which::Other,
        items: 4,
    },
    Act::Meets {
        which: Which::One,
        items: 4,
        sight: GOES,
    },
];

/// The next life of the seat: the processors meet its session before they fire for it, and after.
const LIVES_NEXT: [Act; 7] = [
    ONE_KEPT,
    Act::Meets {
        which: Which::Other,
        items: 3,
        sight: GOES,
    },
    OTHER_KEPT,
    Act::Meets {
        which: Which::One,
        items: 4,
        sight: GOES,
    },
    ONE_KEPT,
    Act::Meets {
        which: Which::One,
        items: 5,
        sight: GOES,
    },
    Act::Meets {
        which: Which::Other,
        items: 5,
        sight: GOES,
    },
];

/// A processor is told what a session knows, which are so many items.
fn tells<H: HubCalls>(
    hub: &H,
    session: &mut H::Session,
    firing: &mut Firing<H::Token>,
    count: u64,
) {
    let receipt = hub.receipt(session);
    hub.tell(&mut firing.token, receipt);
    firing.heard.learns(count);
}

/// A session and its processors do this, and what comes of it is as it says.
fn does<H: HubCalls, R: Wait + Abort>(
    rt: &R,
    alloc: Global,
    hub: &H,
    session: &mut H::Session,
    processors: &mut Processors<H::Token>,
    act: Act,
) -> Result<(), AllocError> {
    match act {
        Act::Asks { line, reply } => says(rt, alloc, hub, session, line, reply),
        Act::Fires { which, came } => comes_to(rt, hub, processors.at(which), came)?,
        Act::Ends { which } => {
            let end = hub.fire(rt, &mut processors.at(which).token, &NoGate);
            assert_eq!(rt; end, Fired::End);
        }
        Act::Tells { which, items } => tells(hub, session, processors.at(which), items),
        Act::Meets {
            which,
            items,
            sight,
        } => {
            let met = meet(rt, alloc, hub, session, processors.at(which), sight)?;
            assert_eq!(rt; (met, hub.seen(session)), (items, items));
        }
    }
    Ok(())
}

/// The same, of one act after the other.
fn plays<H: HubCalls, R: Wait + Abort>(
    rt: &R,
    alloc: Global,
    hub: &H,
    session: &mut H::Session,
    processors: &mut Processors<H::Token>,
    acts: &[Act],
) -> Result<(), AllocError> {
    for act in acts {
        does(rt, alloc, hub, session, processors, *act)?;
    }
    Ok(())
}

/// How a session and two processors go on until they meet.
#[derive(Clone, Copy)]
struct Course {
    acts: &'static [Act],
}

impl Play for Course {
    fn play<H: HubCalls, R: Wait + Abort>(
        &self,
        rt: &R,
        alloc: Global,
        hub: &H,
        tokens: Vec<H::Token>,
    ) -> Result<(), Fail> {
        let (one, other) = both(rt, tokens)?;
        let mut session = opened(rt, alloc, hub, "root");
        let mut processors = Processors {
            one: Firing::new(alloc, one, &session),
            other: Firing::new(alloc, other, &session),
        };
        let met = plays(rt, alloc, hub, &mut session, &mut processors, self.acts);
        hub.close(rt, session);
        met?;
        Ok(())
    }
}

#[test]
fn the_firing_between_go_and_stop_is_kept(rt: HostRuntime) -> Result<(), Fail> {
    run(&rt, rt.alloc(), MACHINE, &Course { acts: &KEEPS_ONE })?;
    let told = Course {
        acts: &KEEPS_ONE_TOLD,
    };
    run(&rt, rt.alloc(), MACHINE, &told)
}

#[test]
fn met_session_and_processor_know_the_same(rt: HostRuntime) -> Result<(), Fail> {
    run(&rt, rt.alloc(), MACHINE, &Course { acts: &GOES_ON })
}

#[test]
fn a_session_is_met_whose_history_is_full(rt: HostRuntime) -> Result<(), Fail> {
    run(&rt, rt.alloc(), MACHINE, &Course { acts: &FILLS_UP })
}

/// The processors' next life of the seat is that of another session.
fn follow<S: SessionCalls, T: TokenCalls, R: Abort>(
    rt: &R,
    alloc: Global,
    session: &S,
    processors: &mut Processors<T>,
) -> Result<(), AllocError> {
    assert_eq!(rt; (session.seat().number(), session.life()), (0, 1));
    processors.one.heard = processors.one.heard.next(alloc, session)?;
    processors.other.heard = processors.other.heard.next(alloc, session)?;
    Ok(())
}

/// A seat that is closed and opened between two firings.
struct Followed;

impl Play for Followed {
    fn play<H: HubCalls, R: Wait + Abort>(
        &self,
        rt: &R,
        alloc: Global,
        hub: &H,
        tokens: Vec<H::Token>,
    ) -> Result<(), Fail> {
        let (one, other) = both(rt, tokens)?;
        let mut session = tracing(rt, alloc, hub, "root");
        let mut processors = Processors {
            one: Firing::new(alloc, one, &session),
            other: Firing::new(alloc, other, &session),
        };
        let met = plays(rt, alloc, hub, &mut session, &mut processors, &LIVES_FIRST);
        let old = hub.receipt(&mut session);
        hub.close(rt, session);
        met?;
        let mut session = tracing(rt, alloc, hub, "root");
        hub.tell(&mut processors.one.token, old);
        let followed = follow(rt, alloc, &session, &mut processors);
        let met = plays(rt, alloc, hub, &mut session, &mut processors, &LIVES_NEXT);
        hub.close(rt, session);
        followed?;
        met?;
        Ok(())
    }
}

#[test]
fn the_next_session_of_a_seat_is_met(rt: HostRuntime) -> Result<(), Fail> {
    run(&rt, rt.alloc(), MACHINE, &Followed)
}
