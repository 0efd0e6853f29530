//! Sessions that trace, and processors that fire.
use crossbeam_utils::CachePadded;
use dt_hub::{Fired, LineAnswer, NoGate};
use dt_hub_calls::texts::STATUS;
use dt_hub_calls::{HubCalls, answered};
use std::alloc::Global;
use std::fmt;
use std::rt::Clock;
use std::sync::Wait;
use std::thread::{Threads, join};
use std::time::Instant;

/// What is measured.
#[derive(Clone, Copy, Debug)]
pub(crate) struct Scene {
    /// How many sessions enable the probe that fires.
    pub(crate) interested: u64,
    /// How many enable another.
    pub(crate) others: u64,
    /// Both processors fire at the same time, each on a thread of its own.
    pub(crate) is_together: bool,
    /// How many firings each processor makes at most.
    pub(crate) most: u64,
}

/// What each session sets, so that it records all firings.
const OPTIONS: [&str; 2] = [
    r#"{"cmd":"option","name":"histsize","value":1048576}"#,
    r#"{"cmd":"option","name":"bufpolicy","value":"ring"}"#,
];

const INTERESTED: &str = r#"{"cmd":"enable","text":"syscall::read:entry{trace(arg0)}"}"#;

const OTHER: &str = r#"{"cmd":"enable","text":"fbt:genunix:f1:entry{trace(arg0)}"}"#;

/// How many lines a session asks of which the time is taken: fewer than its quota.
const LINES: u64 = 1_000;

/// What was measured of firings.
#[derive(Clone, Copy, Debug)]
pub(crate) struct Measured {
    /// How many were made.
    pub(crate) firings: u64,
    /// The nanoseconds that the threads took for them together. On a machine that does nothing else, that is their processor time.
    pub(crate) spent: u64,
    /// The nanoseconds from the first to the last.
    pub(crate) elapsed: u64,
}

impl Measured {
    /// No firing.
    fn none() -> Measured {
        Measured {
            firings: 0,
            spent: 0,
            elapsed: 0,
        }
    }

    /// These firings, and then others.
    fn then(self, later: Measured) -> Measured {
        Measured {
            firings: self.firings.wrapping_add(later.firings),
            spent: self.spent.wrapping_add(later.spent),
            elapsed: self.elapsed.wrapping_add(later.elapsed),
        }
    }

    /// These firings, and others at the same time.
    fn beside(self, other: Measured) -> Measured {
        Measured {
            elapsed: self.elapsed.max(other.elapsed),
            ..self.then(other)
        }
    }
}

impl fmt::Display for Measured {
    fn fmt<W: fmt::Write>(&self, f: &mut fmt::Formatter<W>) -> fmt::Result {
        let (firings, spent, elapsed) = (self.firings, self.spent, self.elapsed);
        write!(
            f,
            "{firings} firings, {spent} ns of their threads, {elapsed} ns in all"
        )
    }
}

/// A processor fires its script, so many times at most. Answers how many firings it made.
fn fires_most<H: HubCalls, R: Wait>(rt: &R, hub: &H, token: &mut H::Token, most: u64) -> u64 {
    let mut made = 0u64;
    for _ in 0..most {
        match hub.fire(rt, token, &NoGate) {
            Fired::End => break,
            Fired::Refused => {}
            Fired::At(_) => made = made.wrapping_add(1),
        }
    }
    made
}

/// The same, measured. Where the clock can't be read no firing is told.
fn fires<H: HubCalls, R: Wait + Clock>(
    rt: &R,
    hub: &H,
    token: &mut H::Token,
    most: u64,
) -> Measured {
    let begun = Instant::now(rt);
    let firings = fires_most(rt, hub, token, most);
    match begun.ok().and_then(|begun| nanoseconds_since(rt, begun)) {
        Some(nanoseconds) => Measured {
            firings,
            spent: nanoseconds,
            elapsed: nanoseconds,
        },
        None => Measured::none(),
    }
}

/// How many nanoseconds went by since then. `None`: the clock can't be read.
fn nanoseconds_since<R: Clock>(rt: &R, begun: Instant) -> Option<u64> {
    u64::try_from(begun.elapsed(rt).ok()?.as_nanos()).ok()
}

/// Two processors fire their whole scripts at the same time, each on a thread of its own.
fn fire_together<H: HubCalls + Sync, R: Threads + Wait + Clock + Sync>(
    rt: &R,
    hub: &H,
    one: &mut H::Token,
    other: &mut H::Token,
) -> Measured
where
    H::Session: Send,
    H::Token: Send,
    H::Receipt: Send,
{
    let (first, second) = join(
        rt,
        || fires(rt, hub, one, u64::MAX),
        || fires(rt, hub, other, u64::MAX),
    );
    first.beside(second)
}

/// Two processors fire their scripts: the whole ones at the same time or one after the other, and so many places of them one after the other.
fn both_fire<H: HubCalls + Sync, R: Threads + Wait + Clock + Sync>(
    rt: &R,
    hub: &H,
    tokens: &mut Vec<H::Token>,
    scene: &Scene,
) -> Measured
where
    H::Session: Send,
    H::Token: Send,
    H::Receipt: Send,
{
    let Some(one) = tokens.pop() else {
        return Measured::none();
    };
    // each on cache lines of its own, as it would be on the stack of its own thread
    let mut one = CachePadded::new(one);
    let Some(other) = tokens.pop() else {
        return fires(rt, hub, &mut one, scene.most);
    };
    let mut other = CachePadded::new(other);
    if scene.is_together && scene.most == u64::MAX {
        return fire_together(rt, hub, &mut one, &mut other);
    }
    let first = fires(rt, hub, &mut other, scene.most);
    first.then(fires(rt, hub, &mut one, scene.most))
}

/// Asks a line, whatever is answered.
fn says<H: HubCalls, R: Wait>(
    rt: &R,
    alloc: Global,
    hub: &H,
    session: &mut H::Session,
    line: &str,
) {
    let _answer = answered(rt, alloc, hub, session, line);
}

/// A session traces: the probe that fires, or another.
fn traces<H: HubCalls, R: Wait>(
    rt: &R,
    alloc: Global,
    hub: &H,
    session: &mut H::Session,
    is_interested: bool,
) {
    for line in OPTIONS {
        says(rt, alloc, hub, session, line);
    }
    says(
        rt,
        alloc,
        hub,
        session,
        if is_interested { INTERESTED } else { OTHER },
    );
    says(rt, alloc, hub, session, r#"{"cmd":"go"}"#);
}

/// Opens a session that traces, and so on until none is left to open, the others last; then the processors fire. The last closes first.
pub(crate) fn opens<H: HubCalls + Sync, R: Threads + Wait + Clock + Sync>(
    rt: &R,
    alloc: Global,
    hub: &H,
    tokens: &mut Vec<H::Token>,
    scene: &Scene,
    left: u64,
) -> Measured
where
    H::Session: Send,
    H::Token: Send,
    H::Receipt: Send,
{
    if left == 0 {
        return both_fire(rt, hub, tokens, scene);
    }
    let Ok(mut session) = hub.open(rt, alloc, "root") else {
        return Measured::none();
    };
    traces(rt, alloc, hub, &mut session, left > scene.others);
    let measured = opens(rt, alloc, hub, tokens, scene, left - 1);
    hub.close(rt, session);
    measured
}

/// What was measured of lines.
#[derive(Clone, Copy, Debug)]
pub(crate) struct Replied {
    /// How many were replied to.
    pub(crate) lines: u64,
    /// The nanoseconds that they took.
    pub(crate) spent: u64,
}

impl fmt::Display for Replied {
    fn fmt<W: fmt::Write>(&self, f: &mut fmt::Formatter<W>) -> fmt::Result {
        let (lines, spent) = (self.lines, self.spent);
        write!(f, "{lines} lines, {spent} ns in all")
    }
}

/// A session asks its `status` again and again. Answers how many replies came.
fn asks<H: HubCalls, R: Wait>(rt: &R, alloc: Global, hub: &H, session: &mut H::Session) -> u64 {
    let mut replies: u64 = 0;
    for _ in 0..LINES {
        if let LineAnswer::Reply(_) = answered(rt, alloc, hub, session, STATUS) {
            replies = replies.saturating_add(1);
        }
    }
    replies
}

/// So many sessions, one after the other, ask their `status`. `None`: one couldn't be opened, or the clock not be read.
pub(crate) fn ask_in_turn<H: HubCalls, R: Wait + Clock>(
    rt: &R,
    alloc: Global,
    hub: &H,
    sessions: u64,
) -> Option<Replied> {
    let mut replied = Replied { lines: 0, spent: 0 };
    for _ in 0..sessions {
        let Ok(mut session) = hub.open(rt, alloc, "root") else {
            return None;
        };
        let begun = Instant::now(rt);
        let lines = asks(rt, alloc, hub, &mut session);
        let spent = begun.ok().and_then(|begun| nanoseconds_since(rt, begun));
        hub.close(rt, session);
        replied.lines = replied.lines.saturating_add(lines);
        replied.spent = replied.spent.saturating_add(spent?);
    }
    Some(replied)
}
