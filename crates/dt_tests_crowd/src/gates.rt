//! A processor that is held at the gate of a seat, while the session there goes on.
use crate::calls::{both, opened, says, tracing};
use crate::flag::Flag;
use crate::scenes::{Scene, run};
use dt_chain::SEATS;
use dt_hub::{Fired, Gate, Looked, Moment, Offered};
use dt_hub_calls::texts::{DONE, MACHINE, STOP};
use dt_hub_calls::{HubCalls, SessionCalls, at_seat};
use std::alloc::Global;
use std::process::Abort;
use std::sync::Wait;
use std::test::Fail;
use std::thread::{self, Threads, join};
use std::time::{Clock, Duration};

/// How many milliseconds the processor stays once it may go on, so that who doesn't wait for it is seen to be early.
const PAUSE: u64 = 200;

/// A place where the processor is held, until it is let go.
#[derive(Drop)]
struct Stop {
    /// The processor is there.
    held: Flag,
    /// It may go on.
    let_go: Flag,
    /// It goes on.
    goes_on: Flag,
}

impl Stop {
    fn new() -> Stop {
        Stop {
            held: Flag::new(),
            let_go: Flag::new(),
            goes_on: Flag::new(),
        }
    }

    /// The processor comes there, and is held.
    fn pass<R: Clock + Abort>(&self, rt: &R) {
        self.held.raise();
        self.let_go.wait(rt);
        thread::sleep(rt, Duration::from_millis(PAUSE));
        self.goes_on.raise();
    }
}

/// Processor 0 is held in a firing, until it is let go.
#[derive(Drop)]
struct Hold<'a, R: Clock + Abort> {
    rt: &'a R,
    meanwhile: Meanwhile,
    /// The session traces, and the processor may fire.
    traces: Flag,
    /// Before it takes the seat's lock.
    before: Stop,
    /// As it has the lock.
    locked: Stop,
    /// It has fired.
    fired: Flag,
}

impl<'a, R: Clock + Abort> Hold<'a, R> {
    fn new(rt: &'a R, meanwhile: Meanwhile) -> Hold<'a, R> {
        Hold {
            rt,
            meanwhile,
            traces: Flag::new(),
            before: Stop::new(),
            locked: Stop::new(),
            fired: Flag::new(),
        }
    }
}

impl<R: Clock + Abort> Gate for Hold<'_, R> {
    fn at(&self, cpu: u32, _seat: u32, moment: Moment) {
        if cpu != 0 {
            return;
        }
        match moment {
            Moment::Before if self.meanwhile.is_before() => self.before.pass(self.rt),
            Moment::Locked if self.meanwhile.is_locked() => self.locked.pass(self.rt),
            _ => {}
        }
    }
}

/// What happens on the thread of a session, while a firing of processor 0 is held.
#[derive(Clone, Copy)]
pub(crate) enum Meanwhile {
    /// Tracing stops.
    Stops,
    /// The session closes.
    Closes,
    /// The session closes, and another is opened on its seat, and traces.
    Changes,
    /// Another processor looks and is told, and the session sees its trail.
    LooksOn,
    /// The session asks a line.
    Asks,
    /// The session closes, and then the processor has the lock of its seat, while all others are taken and one more session is opened.
    Opens,
}

impl Meanwhile {
    /// Whether the processor is held before the lock.
    fn is_before(self) -> bool {
        !matches!(self, Meanwhile::LooksOn | Meanwhile::Asks)
    }

    /// Whether it is held with the lock.
    fn is_locked(self) -> bool {
        matches!(
            self,
            Meanwhile::LooksOn | Meanwhile::Asks | Meanwhile::Opens
        )
    }

    /// What its firing comes to then.
    fn comes_to(self) -> Offered {
        match self {
            Meanwhile::Stops => Offered::Unseen { known: 3 },
            Meanwhile::Closes | Meanwhile::Changes | Meanwhile::Opens => Offered::Gone,
            Meanwhile::LooksOn | Meanwhile::Asks => Offered::Kept,
        }
    }
}

/// A session that traces; then the processor comes to where it is held.
fn traces<H: HubCalls, R: Wait + Abort + Clock>(
    rt: &R,
    alloc: Global,
    hub: &H,
    hold: &Hold<R>,
    stop: &Stop,
) -> H::Session {
    let session = tracing(rt, alloc, hub, "root");
    hold.traces.raise();
    stop.held.wait(rt);
    session
}

/// Fires once the session traces.
fn fires<H: HubCalls, R: Wait + Abort + Clock>(
    rt: &R,
    hub: &H,
    token: &mut H::Token,
    hold: &Hold<R>,
) -> Fired {
    hold.traces.wait(rt);
    let came = hub.fire(rt, token, hold);
    hold.fired.raise();
    came
}

/// Tracing stops, and then the processor goes on.
fn stops<H: HubCalls, R: Wait + Abort + Clock>(rt: &R, alloc: Global, hub: &H, hold: &Hold<R>) {
    let mut session = traces(rt, alloc, hub, hold, &hold.before);
    says(rt, alloc, hub, &mut session, STOP, DONE);
    hold.before.let_go.raise();
    hold.fired.wait(rt);
    hub.close(rt, session);
}

/// The session closes, and then the processor goes on.
fn closes<H: HubCalls, R: Wait + Abort + Clock>(rt: &R, alloc: Global, hub: &H, hold: &Hold<R>) {
    let session = traces(rt, alloc, hub, hold, &hold.before);
    hub.close(rt, session);
    hold.before.let_go.raise();
}

/// Another session is opened on the seat, and then the processor goes on.
fn changes<H: HubCalls, R: Wait + Abort + Clock>(rt: &R, alloc: Global, hub: &H, hold: &Hold<R>) {
    let session = traces(rt, alloc, hub, hold, &hold.before);
    hub.close(rt, session);
    let session = tracing(rt, alloc, hub, "root");
    assert_eq!(rt; session.seat().number(), 0);
    hold.before.let_go.raise();
    hold.fired.wait(rt);
    hub.close(rt, session);
}

/// Nobody waits for the lock that the processor has: neither who looks, nor who is told, nor who sees a trail.
fn looks_on<H: HubCalls, R: Wait + Abort + Clock>(
    rt: &R,
    alloc: Global,
    hub: &H,
    hold: &Hold<R>,
    other: &mut H::Token,
) {
    let mut session = traces(rt, alloc, hub, hold, &hold.locked);
    let receipt = hub.receipt(&mut session);
    hub.tell(other, receipt);
    assert!(rt; matches!(hub.look(other), Looked::At { .. }));
    assert_eq!(rt; hub.seen(&mut session), 2);
    let newcomer = opened(rt, alloc, hub, "root");
    assert_eq!(rt; newcomer.seat().number(), 1);
    hub.close(rt, newcomer);
    hold.locked.let_go.raise();
    hub.close(rt, session);
}

/// A line is answered once the processor has let the lock go.
fn asks<H: HubCalls, R: Wait + Abort + Clock>(rt: &R, alloc: Global, hub: &H, hold: &Hold<R>) {
    let mut session = traces(rt, alloc, hub, hold, &hold.locked);
    hold.locked.let_go.raise();
    says(rt, alloc, hub, &mut session, STOP, DONE);
    assert!(rt; hold.locked.goes_on.is_raised(), "answered beside the lock");
    hub.close(rt, session);
}

/// One more session is opened on the first seat, once the processor has let its lock go.
fn waits_for_a_seat<H: HubCalls, R: Wait + Abort + Clock>(
    rt: &R,
    alloc: Global,
    hub: &H,
    hold: &Hold<R>,
) {
    hold.locked.let_go.raise();
    let session = opened(rt, alloc, hub, "root");
    assert!(rt; hold.locked.goes_on.is_raised(), "opened beside the lock");
    assert_eq!(rt; session.seat().number(), 0);
    hub.close(rt, session);
}

/// Opens so many sessions beside the seat whose lock the processor has, and then one more.
fn opens_beside<H: HubCalls, R: Wait + Abort + Clock>(
    rt: &R,
    alloc: Global,
    hub: &H,
    hold: &Hold<R>,
    left: u32,
) {
    if left == 0 {
        waits_for_a_seat(rt, alloc, hub, hold);
        return;
    }
    let session = opened(rt, alloc, hub, "root");
    opens_beside(rt, alloc, hub, hold, left - 1);
    hub.close(rt, session);
}

/// The only seat that is free is locked: who opens a session waits for it, and isn't told that no seat is free.
fn opens<H: HubCalls, R: Wait + Abort + Clock>(rt: &R, alloc: Global, hub: &H, hold: &Hold<R>) {
    let session = traces(rt, alloc, hub, hold, &hold.before);
    hub.close(rt, session);
    hold.before.let_go.raise();
    hold.locked.held.wait(rt);
    opens_beside(rt, alloc, hub, hold, SEATS as u32 - 1);
}

/// Processor 0 on a thread of its own, beside that of the session.
fn beside<H: HubCalls + Sync, R: Threads + Wait + Abort + Clock + Sync>(
    rt: &R,
    alloc: Global,
    hub: &H,
    one: &mut H::Token,
    other: &mut H::Token,
    hold: &Hold<R>,
    meanwhile: Meanwhile,
) -> Fired
where
    H::Session: Send,
    H::Token: Send,
    H::Receipt: Send,
{
    let (came, _) = join(
        rt,
        || fires(rt, hub, one, hold),
        || match meanwhile {
            Meanwhile::Stops => stops(rt, alloc, hub, hold),
            Meanwhile::Closes => closes(rt, alloc, hub, hold),
            Meanwhile::Changes => changes(rt, alloc, hub, hold),
            Meanwhile::LooksOn => looks_on(rt, alloc, hub, hold, other),
            Meanwhile::Asks => asks(rt, alloc, hub, hold),
            Meanwhile::Opens => opens(rt, alloc, hub, hold),
        },
    );
    came
}

/// Processor 0 fires, and is held while this happens.
pub(crate) fn plays<H: HubCalls + Sync, R: Threads + Wait + Abort + Clock + Sync>(
    rt: &R,
    alloc: Global,
    hub: &H,
    tokens: Vec<H::Token>,
    meanwhile: Meanwhile,
) -> Result<(), Fail>
where
    H::Session: Send,
    H::Token: Send,
    H::Receipt: Send,
{
    let (mut one, mut other) = both(rt, tokens)?;
    let hold = Hold::new(rt, meanwhile);
    let came = beside(rt, alloc, hub, &mut one, &mut other, &hold, meanwhile);
    assert_eq!(rt; came, Fired::At(0));
    assert_eq!(rt; at_seat(&one, 0), meanwhile.comes_to());
    Ok(())
}

/// What had stopped when the lock was taken doesn't see the firing, and the processor knows of the stop.
#[test]
fn a_stop_before_the_lock_is_known(rt: HostRuntime) -> Result<(), Fail> {
    run(&rt, rt.alloc(), MACHINE, Scene::Held(Meanwhile::Stops))
}

/// A life that is over when the lock is taken gets nothing, and neither does the next on that seat.
#[test]
fn a_life_that_is_over_is_gone(rt: HostRuntime) -> Result<(), Fail> {
    run(&rt, rt.alloc(), MACHINE, Scene::Held(Meanwhile::Closes))?;
    run(&rt, rt.alloc(), MACHINE, Scene::Held(Meanwhile::Changes))
}

/// Beside a lock that is held, looks, tellings and what a session sees wait for nobody.
#[test]
fn nobody_waits_for_the_lock_of_a_firing(rt: HostRuntime) -> Result<(), Fail> {
    run(&rt, rt.alloc(), MACHINE, Scene::Held(Meanwhile::LooksOn))
}

/// A line of the session whose lock a firing has is answered after it.
#[test]
fn a_line_waits_for_the_lock_of_a_firing(rt: HostRuntime) -> Result<(), Fail> {
    run(&rt, rt.alloc(), MACHINE, Scene::Held(Meanwhile::Asks))
}

/// Where the only free seat is locked, who opens a session waits for it and gets it.
#[test]
fn who_opens_waits_for_the_last_seat(rt: HostRuntime) -> Result<(), Fail> {
    run(&rt, rt.alloc(), MACHINE, Scene::Held(Meanwhile::Opens))
}
