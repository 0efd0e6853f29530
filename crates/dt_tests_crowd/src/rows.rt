//! Three sessions with lines of worked rows, each on a thread of its own, and two processors that were told nothing.
use crate::calls::opened;
use crate::crowd::asks;
use crate::scenes::{Scene, run};
use dt_alone::{Verdict, check};
use dt_hub::{Fired, NoGate, Offered};
use dt_hub_calls::{HubCalls, TokenCalls, at_seat, trail_text};
use dt_machine::Machine;
use std::alloc::{AllocError, Global};
use std::process::Abort;
use std::sync::atomic::{AtomicU64, Ordering};
use std::sync::{Mutex, MutexGuard, Wait};
use std::test::Fail;
use std::thread::{self, Threads, map_vec};
use std::time::{Clock, Duration};

/// All firings of the rows, of which those of processor 1 and thirteen of processor 0 are of the probe whose identifier is 3.
const MACHINE: &str = r#"{"cpus":2,
"accounts":[{"name":"root","uid":0,"privs":["dtrace_kernel"]},{"name":"ann","uid":501,"privs":["dtrace_user"]}],
"processes":[{"pid":100,"uid":501,"execname":"sh"},{"pid":200,"uid":0,"execname":"cron"}],
"probes":["syscall::read:entry","profile:::tick-1sec","fbt:genunix:kmem_alloc:entry"],
"scripts":[[{"probe":3,"pid":100,"args":[7]},{"probe":3,"pid":100,"args":[8]},{"probe":3,"pid":100,"args":[9]},{"probe":5,"pid":100},
{"probe":3,"pid":200},{"probe":3,"pid":100},{"probe":3,"pid":200},{"probe":3,"pid":200},{"probe":3,"pid":100},{"probe":3,"pid":200},
{"probe":3,"pid":200},{"probe":3,"pid":100},{"probe":3,"pid":100,"args":[1]},{"probe":3,"pid":100,"args":[2]}],
[{"probe":3,"pid":100,"args":[9]},{"probe":3,"pid":200,"args":[5]}]]}"#;

/// The place of processor 0's firing of another probe.
const OTHER: u32 = 3;

/// How many firings there are.
const FIRINGS: u64 = 16;

/// How many sessions there are, and how many processors.
const SESSIONS: u64 = 3;

const PROCESSORS: u64 = 2;

/// How many sleeps of a millisecond a thread waits for the others.
const SLEEPS: u32 = 10_000;

/// Whose lines a session asks.
#[derive(Clone, Copy)]
enum Row {
    /// A small buffer drops a record.
    Switch,
    /// A short history ends tracing.
    History,
    /// A small store drops an entry.
    Store,
}

impl Row {
    /// The number of its seat, which is free when all before it are taken.
    fn seat(self) -> u64 {
        match self {
            Row::Switch => 0,
            Row::History => 1,
            Row::Store => 2,
        }
    }

    fn account(self) -> &'static str {
        match self {
            Row::History => "ann",
            Row::Switch | Row::Store => "root",
        }
    }

    /// What it asks before the firings.
    fn first_lines(self) -> [&'static str; 3] {
        match self {
            Row::Switch => [
                r#"{"cmd":"option","name":"bufsize","value":28}"#,
                r#"{"cmd":"enable","text":"syscall::read:entry{trace(arg0)} fbt:::entry{}"}"#,
                r#"{"cmd":"go"}"#,
            ],
            Row::History => [
                r#"{"cmd":"option","name":"histsize","value":2}"#,
                r#"{"cmd":"enable","text":"syscall:::entry{trace(pid)}"}"#,
                r#"{"cmd":"go"}"#,
            ],
            Row::Store => [
                r#"{"cmd":"option","name":"aggsize","value":56}"#,
                r#"{"cmd":"enable","text":"read:entry{@a[execname]=avg(arg0)}"}"#,
                r#"{"cmd":"go"}"#,
            ],
        }
    }

    /// What it asks after them.
    fn last_lines(self) -> [&'static str; 2] {
        match self {
            Row::Switch => [r#"{"cmd":"snap","cpu":0}"#, r#"{"cmd":"snap","cpu":0}"#],
            Row::History => [r#"{"cmd":"status"}"#, r#"{"cmd":"snap","cpu":0}"#],
            Row::Store => [r#"{"cmd":"agg","name":"a"}"#, r#"{"cmd":"status"}"#],
        }
    }
}

/// What a thread does.
#[derive(Drop)]
enum Part<T: TokenCalls> {
    /// Asks a row's lines before all firings and after them, and meets each processor.
    Ask(Row),
    /// Fires a script to its end once all sessions trace.
    Fire(T),
}

/// What the threads share beside the hub.
#[derive(Drop)]
struct Board<T: TokenCalls> {
    /// The machine again, to judge trails on.
    machine: Machine,
    /// How many sessions were opened.
    opened: AtomicU64,
    /// How many of them trace.
    tracing: AtomicU64,
    /// How many firings were made.
    fired: AtomicU64,
    /// How many processors were put by, once they had fired all that they had.
    ended: AtomicU64,
    processors: Mutex<Vec<T>>,
}

/// Waits until a count has come so far.
fn wait_for<R: Abort + Clock>(rt: &R, count: &AtomicU64, wanted: u64) {
    for _ in 0..SLEEPS {
        if count.load(Ordering::SeqCst) >= wanted {
            return;
        }
        thread::sleep(rt, Duration::from_millis(1));
    }
    assert!(rt; false, "the others didn't come so far");
}

/// A session asks its row's lines: its `go` is answered before any processor fires, and its last lines come after all firings.
fn asks_row<H: HubCalls, R: Wait + Abort + Clock>(
    rt: &R,
    alloc: Global,
    hub: &H,
    board: &Board<H::Token>,
    row: Row,
    session: &mut H::Session,
) -> Result<Vec<Vec<u8>>, AllocError> {
    let mut replies = Vec::new(alloc);
    let first = asks(rt, alloc, hub, session, &row.first_lines(), &mut replies);
    board.tracing.fetch_add(1, Ordering::SeqCst);
    wait_for(rt, &board.fired, FIRINGS);
    first?;
    asks(rt, alloc, hub, session, &row.last_lines(), &mut replies)?;
    Ok(replies)
}

/// A session meets each processor, once all have fired.
fn meets_all<H: HubCalls, R: Wait + Abort + Clock>(
    rt: &R,
    hub: &H,
    board: &Board<H::Token>,
    session: &mut H::Session,
) {
    wait_for(rt, &board.ended, PROCESSORS);
    let mut processors = board.processors.lock(rt);
    for token in processors.iter_mut() {
        hub.meet(rt, session, token);
    }
    MutexGuard::unlock(processors);
}

/// A row's session, which meets each processor at last. Its trail is judged with the replies.
fn plays_row<H: HubCalls, R: Wait + Abort + Clock>(
    rt: &R,
    alloc: Global,
    hub: &H,
    board: &Board<H::Token>,
    row: Row,
) -> Result<(), AllocError> {
    wait_for(rt, &board.opened, row.seat());
    let mut session = opened(rt, alloc, hub, row.account());
    board.opened.fetch_add(1, Ordering::SeqCst);
    let replies = asks_row(rt, alloc, hub, board, row, &mut session);
    meets_all(rt, hub, board, &mut session);
    let told = match &replies {
        Ok(replies) => trail_text(alloc, &mut session, row.account(), replies),
        Err(_) => Err(AllocError),
    };
    hub.close(rt, session);
    let (text, _firings) = told?;
    assert_eq!(rt; check(alloc, &board.machine, &text), Ok(Verdict::Agree(5)));
    Ok(())
}

/// A processor that was told nothing fires once each session traces: each firing of the third probe is kept at the seats of both sessions that go on, and no life is
/// gone.
fn fires_row<H: HubCalls, R: Wait + Abort + Clock>(
    rt: &R,
    hub: &H,
    board: &Board<H::Token>,
    token: H::Token,
) -> Result<(), AllocError> {
    let mut token = token;
    wait_for(rt, &board.tracing, SESSIONS);
    let cpu = token.cpu();
    for _ in 0..FIRINGS {
        let Fired::At(place) = hub.fire(rt, &mut token, &NoGate) else {
            break;
        };
        if cpu != 0 || place != OTHER {
            assert_eq!(rt;
                (at_seat(&token, 0), at_seat(&token, 2)),
                (Offered::Kept, Offered::Kept)
            );
        }
        for seat in 0..3 {
            assert!(rt; at_seat(&token, seat) != Offered::Gone, "a life is gone");
        }
        board.fired.fetch_add(1, Ordering::SeqCst);
    }
    let mut processors = board.processors.lock(rt);
    let put = processors.push(token);
    MutexGuard::unlock(processors);
    board.ended.fetch_add(1, Ordering::SeqCst);
    put?;
    Ok(())
}

/// Does a thread's part.
fn does<H: HubCalls, R: Wait + Abort + Clock>(
    rt: &R,
    alloc: Global,
    hub: &H,
    board: &Board<H::Token>,
    part: Part<H::Token>,
) -> Result<(), AllocError> {
    match part {
        Part::Ask(row) => plays_row(rt, alloc, hub, board, row),
        Part::Fire(token) => fires_row(rt, hub, board, token),
    }
}

/// All parts at once, each on a thread of its own.
fn all_do<H: HubCalls + Sync, R: Threads + Wait + Abort + Clock + Sync>(
    rt: &R,
    alloc: Global,
    hub: &H,
    board: &Board<H::Token>,
    parts: Vec<Part<H::Token>>,
) -> Result<(), AllocError>
where
    H::Session: Send,
    H::Token: Send,
    H::Receipt: Send,
{
    let results = map_vec(rt, parts, &move |part| does(rt, alloc, hub, board, part))?;
    for result in results {
        result?;
    }
    Ok(())
}

/// Three sessions and two processors.
pub(crate) fn plays<H: HubCalls + Sync, R: Threads + Wait + Abort + Clock + Sync>(
    rt: &R,
    alloc: Global,
    hub: &H,
    tokens: Vec<H::Token>,
) -> Result<(), Fail>
where
    H::Session: Send,
    H::Token: Send,
    H::Receipt: Send,
{
    let board = Board {
        machine: Machine::read(alloc, MACHINE.as_bytes())?,
        opened: AtomicU64::new(0),
        tracing: AtomicU64::new(0),
        fired: AtomicU64::new(0),
        ended: AtomicU64::new(0),
        processors: Mutex::new(Vec::new(alloc)),
    };
    let mut parts = Vec::new(alloc);
    for token in tokens {
        parts.push(Part::Fire(token))?;
    }
    for row in [Row::Switch, Row::History, Row::Store] {
        parts.push(Part::Ask(row))?;
    }
    assert_eq!(rt; parts.len(), 5);
    all_do(rt, alloc, hub, &board, parts)?;
    Ok(())
}

/// Each trail of a row is answered as it is due, and each firing is kept where it should be, by processors that were told nothing.
#[test]
fn three_rows_agree(rt: HostRuntime) -> Result<(), Fail> {
    run(&rt, rt.alloc(), MACHINE, Scene::Rows)
}
