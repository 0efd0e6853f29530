//! A service in this process, and its clients: what they are answered, and that each processor has a thread of its own.
use dt_chain::SEATS;
use dt_hub::{Gate, Moment, NoGate};
use dt_machine::Machine;
use dt_names::Name;
use dt_server::{AccountSocket, Desk, Shared, serve_machine};
use std::alloc::Global;
use std::io::{BufRead, BufReader, Write};
use std::net::Net;
use std::os::unix::net::{UnixListener, UnixStream};
use std::path::{Path, PathBuf};
use std::process::Abort;
use std::rt::{Clock, Env, Files};
use std::sync::atomic::{AtomicBool, Ordering};
use std::sync::{Arc, Wait};
use std::test::Fail;
use std::thread::Threads;
use std::time::Duration;
use std::{env, fs, thread};

/// How many sleeps of a millisecond a processor waits for the other.
const SLEEPS: u32 = 10_000;

/// Each processor fires another probe.
const MACHINE: &str = r#"{"cpus":2,
"accounts":[{"name":"root","uid":0,"privs":["dtrace_kernel"]},{"name":"joe","uid":501,"privs":["proc_owner"]}],
"processes":[{"pid":100,"uid":501,"execname":"sh"}],
"probes":["syscall::read:entry","syscall::write:entry"],
"scripts":[[{"probe":3,"pid":100}],[{"probe":4,"pid":100}]]}"#;

const ENABLE: &[u8] = b"{\"cmd\":\"enable\",\"text\":\"syscall::read:entry{}\"}\n";

const ENABLE_OTHER: &[u8] = b"{\"cmd\":\"enable\",\"text\":\"syscall::write:entry{}\"}\n";

const ENABLED: &[u8] = b"{\"count\":1,\"first\":1,\"ok\":true}\n";

const GO: &[u8] = b"{\"cmd\":\"go\"}\n";

const DONE: &[u8] = b"{\"ok\":true}\n";

const SNAP: &[u8] = b"{\"cmd\":\"snap\",\"cpu\":0}\n";

const ONE_RECORD: &[u8] =
    b"{\"cpu\":0,\"data\":\"00000001\",\"drops\":0,\"filled\":false,\"ok\":true}\n";

const FULL: &[u8] = b"{\"error\":17,\"name\":\"Full\"}\n";

const NO_PRIVILEGE: &[u8] = b"{\"error\":18,\"name\":\"NoPrivilege\"}\n";

/// Processor 0 has the lock of its seat until processor 1 has let go of another's.
#[derive(Drop)]
struct Meeting<C: Clock> {
    clock: C,
    locked: AtomicBool,
    passed: AtomicBool,
    met: AtomicBool,
    /// One of them waited in vain.
    missed: AtomicBool,
}

impl<C: Clock> Meeting<C> {
    /// Waits until the flag is raised, and says whether it was.
    fn waits(&self, flag: &AtomicBool) -> bool {
        for _ in 0..SLEEPS {
            if flag.load(Ordering::SeqCst) {
                return true;
            }
            thread::sleep(&self.clock, Duration::from_millis(1));
        }
        false
    }
}

impl<C: Clock> Gate for Meeting<C> {
    fn at(&self, cpu: u32, _seat: u32, moment: Moment) {
        match (cpu, moment) {
            (0, Moment::Locked) => {
                self.locked.store(true, Ordering::SeqCst);
                let met = self.waits(&self.passed);
                self.met.store(met, Ordering::SeqCst);
            }
            (1, Moment::Before) => {
                let locked = self.waits(&self.locked);
                self.missed.store(!locked, Ordering::SeqCst);
            }
            (1, Moment::After) => self.passed.store(true, Ordering::SeqCst),
            _ => {}
        }
    }
}

/// A socket's path, which is of this process and this test alone.
fn path_of<R: Env + AllocGlobal>(rt: &R, process: u32, test: &str) -> Result<PathBuf, Fail> {
    let alloc = rt.alloc();
    let name = format!(in alloc; "dt_tests_server-{process}-{test}.sock")?;
    let folder = env::temp_dir(rt)?;
    Ok(folder.join(alloc, name.as_str())?)
}

/// What the threads of a service share: two desks, and the socket of an account.
fn shared_of<R: Files + Net>(
    rt: &R,
    alloc: Global,
    account: &str,
    path: Path<'_>,
) -> Result<Arc<Shared>, Fail> {
    let mut desks = Vec::new(alloc);
    desks.push(Desk::new())?;
    desks.push(Desk::new())?;
    let mut sockets = Vec::new(alloc);
    let name = Name::new(account.as_bytes()).ok_or("a name")?;
    let listener = UnixListener::bind(rt, path)?;
    sockets.push(AccountSocket { name, listener })?;
    Ok(Arc::new(alloc, Shared::new(desks, sockets))?)
}

/// A service of the machine for one account, which runs on threads of its own until the process ends.
fn started<
    R: Files + Net + Threads + Wait + Clock + Abort + Copy + Send + Sync + Drop + 'static,
    G: Gate + Send + Sync + Drop + 'static,
>(rt: R, alloc: Global, account: &str, path: Path<'_>, gate: Arc<G>) -> Result<Arc<Shared>, Fail> {
    let machine = Machine::read(alloc, MACHINE.as_bytes())?;
    let shared = shared_of(&rt, alloc, account, path)?;
    let theirs = Arc::try_clone(&shared)?;
    let runs = thread::spawn(&rt, move || {
        serve_machine(&rt, alloc, machine, &*gate, &theirs)
    })
    .is_ok();
    assert!(rt; runs && shared.is_ready(&rt));
    Ok(shared)
}

/// A client reads this line next.
fn reads<R: Abort>(rt: &R, alloc: Global, client: &UnixStream, line: &[u8]) -> Result<(), Fail> {
    let mut found = Vec::new(alloc);
    let mut replies = BufReader::new(alloc, client)?;
    replies.read_until(b'\n', &mut found)?;
    assert!(rt; found.as_slice() == line, "another line");
    Ok(())
}

/// A line is answered so.
fn says<R: Abort>(
    rt: &R,
    alloc: Global,
    client: &UnixStream,
    line: &[u8],
    reply: &[u8],
) -> Result<(), Fail> {
    let mut sink = client;
    sink.write_all(line)?;
    reads(rt, alloc, client, reply)
}

/// A client that traces what this line enables.
fn tracing<R: Net + Abort>(
    rt: &R,
    alloc: Global,
    path: Path<'_>,
    enable: &[u8],
) -> Result<UnixStream, Fail> {
    let client = UnixStream::connect(rt, path)?;
    says(rt, alloc, &client, enable, ENABLED)?;
    says(rt, alloc, &client, GO, DONE)?;
    Ok(client)
}

#[test]
fn two_workers_meet_at_the_gate(rt: HostRuntime) -> Result<(), Fail> {
    let alloc = rt.alloc();
    let path = path_of(&rt, std::process::id(rt.process()), "gate")?;
    let gate = Arc::new(
        alloc,
        Meeting {
            clock: rt,
            locked: AtomicBool::new(false),
            passed: AtomicBool::new(false),
            met: AtomicBool::new(false),
            missed: AtomicBool::new(false),
        },
    )?;
    let theirs = Arc::try_clone(&gate)?;
    let shared = started(rt, alloc, "root", path.as_path(), theirs)?;
    let _first = tracing(&rt, alloc, path.as_path(), ENABLE)?;
    let _second = tracing(&rt, alloc, path.as_path(), ENABLE_OTHER)?;
    let (Some(zero), Some(one)) = (shared.desks.get(0), shared.desks.get(1)) else {
        return Err(Fail::from("desks"));
    };
    let (a, b) = thread::join(&rt, || zero.step(&rt, 1), || one.step(&rt, 1));
    assert_eq!(rt; (a, b), (1, 1));
    assert!(rt; gate.met.load(Ordering::SeqCst) && !gate.missed.load(Ordering::SeqCst));
    fs::remove_file(&rt, path.as_path())?;
    Ok(())
}

#[test]
fn a_step_fires_what_a_client_traces(rt: HostRuntime) -> Result<(), Fail> {
    let alloc = rt.alloc();
    let path = path_of(&rt, std::process::id(rt.process()), "step")?;
    let gate = Arc::new(alloc, NoGate)?;
    let shared = started(rt, alloc, "root", path.as_path(), gate)?;
    let client = tracing(&rt, alloc, path.as_path(), ENABLE)?;
    let Some(desk) = shared.desks.get(0) else {
        return Err(Fail::from("a desk"));
    };
    assert_eq!(rt; desk.step(&rt, 1), 1);
    says(&rt, alloc, &client, SNAP, ONE_RECORD)?;
    // its script has no further firing
    assert_eq!(rt; desk.step(&rt, 1), 0);
    fs::remove_file(&rt, path.as_path())?;
    Ok(())
}

#[test]
fn one_client_too_many_is_told_so(rt: HostRuntime) -> Result<(), Fail> {
    let alloc = rt.alloc();
    let path = path_of(&rt, std::process::id(rt.process()), "full")?;
    let gate = Arc::new(alloc, NoGate)?;
    let _shared = started(rt, alloc, "root", path.as_path(), gate)?;
    let mut clients = Vec::new(alloc);
    for _ in 0..SEATS {
        clients.push(tracing(&rt, alloc, path.as_path(), ENABLE)?)?;
    }
    let late = UnixStream::connect(&rt, path.as_path())?;
    reads(&rt, alloc, &late, FULL)?;
    fs::remove_file(&rt, path.as_path())?;
    Ok(())
}

#[test]
fn an_account_without_privilege_is_told_so(rt: HostRuntime) -> Result<(), Fail> {
    let alloc = rt.alloc();
    let path = path_of(&rt, std::process::id(rt.process()), "joe")?;
    let gate = Arc::new(alloc, NoGate)?;
    let _shared = started(rt, alloc, "joe", path.as_path(), gate)?;
    let client = UnixStream::connect(&rt, path.as_path())?;
    reads(&rt, alloc, &client, NO_PRIVILEGE)?;
    fs::remove_file(&rt, path.as_path())?;
    Ok(())
}
