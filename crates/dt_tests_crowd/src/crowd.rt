//! Sessions that come and go and processors that fire, each on a thread of its own.
use crate::calls::opened;
use crate::scenes::{Scene, run};
use crate::stays::{Firer, Stay, judged};
use dt_chain::SEATS;
use dt_hub::{Fired, NoGate, Offered};
use dt_hub_calls::{HubCalls, TokenCalls, answered, at_seat, with_scripts};
use dt_machine::Machine;
use std::alloc::{AllocError, Global};
use std::process::Abort;
use std::sync::Wait;
use std::sync::atomic::{AtomicU64, Ordering};
use std::test::Fail;
use std::thread::{self, Threads, map_vec};
use std::time::{Clock, Duration};

const HEAD: &str = r#"{"cpus":4,
"accounts":[{"name":"root","uid":0,"privs":["dtrace_kernel"]},{"name":"ann","uid":501,"privs":["dtrace_user"]}],
"processes":[{"pid":100,"uid":501,"execname":"sh"},{"pid":200,"uid":0,"execname":"cron"}],
"probes":["syscall::read:entry","syscall::write:entry"],"scripts":["#;

/// What each processor's script repeats.
const FIRINGS: &str =
    r#"{"probe":3,"pid":100},{"probe":4,"pid":200},{"probe":3,"pid":200},{"probe":4,"pid":100}"#;

/// How often.
const TIMES: u32 = 2_500;

/// How many firings of its script a processor makes at last, when no other thread is at work.
const LAST: u32 = 20;

/// How many it makes in each of two rounds.
const ROUND: u32 = 2 * TIMES - LAST / 2;

/// What a session asks before and while it traces.
const LINES: [&str; 3] = [
    r#"{"cmd":"option","name":"bufsize","value":64}"#,
    r#"{"cmd":"enable","text":"syscall:::entry{@c[execname]=count();trace(pid)}"}"#,
    r#"{"cmd":"go"}"#,
];

/// What it asks when it has traced for a while.
const LAST_LINES: [&str; 4] = [
    r#"{"cmd":"snap","cpu":0}"#,
    r#"{"cmd":"stop"}"#,
    r#"{"cmd":"agg","name":"c"}"#,
    r#"{"cmd":"status"}"#,
];

/// A machine of four processors whose scripts are long.
fn machine(alloc: Global) -> Result<String, Fail> {
    Ok(with_scripts(alloc, HEAD, 4, FIRINGS, TIMES)?)
}

/// What a thread does.
#[derive(Drop)]
enum Work<T: TokenCalls> {
    /// Fires a round of a script.
    Fire(Firer<T>),
    /// Opens sessions of this account, one after the other, while a processor fires.
    Trace(&'static str),
}

/// What threads have counted: the firings that were kept, as the processors were told, and those that stood on the sessions' trails.
#[derive(Clone, Copy)]
struct Tally {
    kept: u64,
    seen: u64,
}

/// What threads have counted that did nothing yet.
const NOTHING: Tally = Tally { kept: 0, seen: 0 };

impl Tally {
    /// Both together.
    fn and(self, other: Tally) -> Tally {
        Tally {
            kept: self.kept.wrapping_add(other.kept),
            seen: self.seen.wrapping_add(other.seen),
        }
    }
}

/// What the threads share beside the hub.
#[derive(Drop)]
pub(crate) struct Board {
    /// The machine again, to judge trails on.
    pub(crate) machine: Machine,
    /// How many processors still fire.
    firing: AtomicU64,
}

impl Board {
    /// The board of a machine whose processors don't fire yet.
    fn new(machine: Machine) -> Board {
        Board {
            machine,
            firing: AtomicU64::new(0),
        }
    }
}

/// How many sessions kept a processor's last firing, on whichever seats they are: who opens a session passes over a seat that is locked.
fn kept_by<T: TokenCalls>(token: &T) -> u64 {
    let mut count = 0u64;
    for seat in 0..SEATS as u32 {
        if at_seat(token, seat) == Offered::Kept {
            count = count.wrapping_add(1);
        }
    }
    count
}

/// Fires a round of a script, which takes some five seconds, and counts what was kept.
fn fires<H: HubCalls, R: Wait + Abort + Clock>(
    rt: &R,
    hub: &H,
    board: &Board,
    firer: &mut Firer<H::Token>,
) -> u64 {
    let mut count = 0u64;
    for _ in 0..ROUND {
        if let Fired::At(place) = hub.fire(rt, &mut firer.token, &NoGate) {
            count = count.wrapping_add(kept_by(&firer.token));
            assert!(rt; firer.fired(place).is_ok(), "out of memory");
        }
        thread::sleep(rt, Duration::from_millis(1));
    }
    board.firing.fetch_sub(1, Ordering::SeqCst);
    count
}

/// Asks lines, and keeps the replies.
pub(crate) fn asks<H: HubCalls, R: Wait>(
    rt: &R,
    alloc: Global,
    hub: &H,
    session: &mut H::Session,
    lines: &[&str],
    replies: &mut Vec<Vec<u8>>,
) -> Result<(), AllocError> {
    for line in lines {
        let answer = answered(rt, alloc, hub, session, line);
        replies.push(answer.text().to_vec(alloc)?)?;
    }
    Ok(())
}

/// One session that traces for a while. Its trail is judged, and its firings are counted.
fn traces<H: HubCalls, R: Wait + Abort + Clock>(
    rt: &R,
    alloc: Global,
    hub: &H,
    board: &Board,
    session: &mut H::Session,
    name: &str,
) -> Result<u64, AllocError> {
    let mut replies = Vec::new(alloc);
    asks(rt, alloc, hub, session, &LINES, &mut replies)?;
    thread::sleep(rt, Duration::from_millis(5));
    asks(rt, alloc, hub, session, &LAST_LINES, &mut replies)?;
    hub.seen(session);
    judged(rt, alloc, board, session, name, &replies)
}

/// Opens sessions, one after the other, while a processor fires.
fn come_and_go<H: HubCalls, R: Wait + Abort + Clock>(
    rt: &R,
    alloc: Global,
    hub: &H,
    board: &Board,
    name: &str,
) -> u64 {
    let mut count = 0u64;
    for _ in rt.forever() {
        if board.firing.load(Ordering::SeqCst) == 0 {
            break;
        }
        let mut session = opened(rt, alloc, hub, name);
        let firings = traces(rt, alloc, hub, board, &mut session, name);
        hub.close(rt, session);
        match firings {
            Ok(firings) => count = count.wrapping_add(firings),
            Err(_) => assert!(rt; false, "out of memory"),
        }
    }
    count
}

/// What comes of a thread's work.
#[derive(Drop)]
struct Done<T: TokenCalls> {
    tally: Tally,
    /// The processor that fired a round.
    firer: Option<Firer<T>>,
}

/// Does a thread's work.
fn does<H: HubCalls, R: Wait + Abort + Clock>(
    rt: &R,
    alloc: Global,
    hub: &H,
    board: &Board,
    work: Work<H::Token>,
) -> Done<H::Token> {
    match work {
        Work::Fire(firer) => {
            let mut firer = firer;
            let kept = fires(rt, hub, board, &mut firer);
            Done {
                tally: Tally { kept, seen: 0 },
                firer: Some(firer),
            }
        }
        Work::Trace(name) => {
            let seen = come_and_go(rt, alloc, hub, board, name);
            Done {
                tally: Tally { kept: 0, seen },
                firer: None,
            }
        }
    }
}

/// All works at once, each on a thread of its own. Answers what was counted, and the processors that fired a round.
fn all_do<H: HubCalls + Sync, R: Threads + Wait + Abort + Clock + Sync>(
    rt: &R,
    alloc: Global,
    hub: &H,
    board: &Board,
    works: Vec<Work<H::Token>>,
) -> Result<(Tally, Vec<Firer<H::Token>>), AllocError>
where
    H::Session: Send,
    H::Token: Send,
    H::Receipt: Send,
{
    let results = map_vec(rt, works, &move |work| does(rt, alloc, hub, board, work))?;
    let mut all = NOTHING;
    let mut firers = Vec::new(alloc);
    for result in results {
        let Done { tally, firer } = result;
        all = all.and(tally);
        if let Some(firer) = firer {
            firers.push(firer)?;
        }
    }
    Ok((all, firers))
}

/// A round: four processors fire, and four threads have sessions come and go.
fn round<H: HubCalls + Sync, R: Threads + Wait + Abort + Clock + Sync>(
    rt: &R,
    alloc: Global,
    hub: &H,
    board: &Board,
    firers: Vec<Firer<H::Token>>,
) -> Result<(Tally, Vec<Firer<H::Token>>), AllocError>
where
    H::Session: Send,
    H::Token: Send,
    H::Receipt: Send,
{
    board.firing.store(4, Ordering::SeqCst);
    let mut works = Vec::new(alloc);
    for firer in firers {
        works.push(Work::Fire(firer))?;
    }
    for name in ["root", "ann", "root", "ann"] {
        works.push(Work::Trace(name))?;
    }
    assert_eq!(rt; works.len(), 8);
    all_do(rt, alloc, hub, board, works)
}

/// Two rounds, through which two sessions stay, which meet each processor. Answers what was counted.
fn rounds<H: HubCalls + Sync, R: Threads + Wait + Abort + Clock + Sync>(
    rt: &R,
    alloc: Global,
    hub: &H,
    board: &Board,
    stay: &mut Stay<H>,
    tokens: Vec<H::Token>,
) -> Result<Tally, AllocError>
where
    H::Session: Send,
    H::Token: Send,
    H::Receipt: Send,
{
    let firers = stay.begins(rt, alloc, hub, tokens)?;
    let (early, mut firers) = round(rt, alloc, hub, board, firers)?;
    stay.goes_on(rt, alloc, hub, &mut firers)?;
    let (late, mut firers) = round(rt, alloc, hub, board, firers)?;
    assert!(rt;
        early.and(late).seen > 0,
        "no firing was kept by those that came and went"
    );
    let seen = stay.ends(rt, alloc, hub, board, &mut firers, LAST)?;
    let own = Tally { kept: 0, seen };
    Ok(early.and(late).and(own))
}

/// Four processors and four sessions' threads.
pub(crate) fn plays<H: HubCalls + Sync, R: Threads + Wait + Abort + Clock + Sync>(
    rt: &R,
    alloc: Global,
    hub: &H,
    tokens: Vec<H::Token>,
) -> Result<(), Fail>
where
    H::Session: Send,
    H::Token: Send,
    H::Receipt: Send,
{
    let text = machine(alloc)?;
    let board = Board::new(Machine::read(alloc, text.as_bytes())?);
    let first = opened(rt, alloc, hub, "root");
    let second = opened(rt, alloc, hub, "ann");
    let mut stay = Stay::new(alloc, first, second);
    let tally = rounds(rt, alloc, hub, &board, &mut stay, tokens);
    stay.closes(rt, hub);
    let tally = tally?;
    assert_eq!(rt; tally.kept, tally.seen);
    assert!(rt; tally.kept > 0, "no firing was kept");
    Ok(())
}

/// Each trail is answered as it is due, and has the firings that the processors were told are kept. The sessions that stayed share a row with each processor.
#[test]
fn eight_threads_agree(rt: HostRuntime) -> Result<(), Fail> {
    let machine = machine(rt.alloc())?;
    run(&rt, rt.alloc(), machine.as_str(), Scene::Crowd)
}
