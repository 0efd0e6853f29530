//! What is found in a machine file that is read. What each is refused with, the built program shows; here, what
//! of it a fault tells.
use crate::asserts::same;
use dt_machine::{Firing, Interest, Machine, PROBE_ID_MAX};
use std::alloc::Global;
use std::process::Abort;
use std::test::Fail;

/// A machine with two firings on processor 1: what a firing may leave out, and all that it may say.
const MACHINE: &str = r#"{"cpus":2,
    "accounts":[{"name":"root","uid":0,"privs":["dtrace_kernel"]},{"name":"ann","uid":501,"privs":["dtrace_user"]}],
    "processes":[{"pid":100,"uid":501,"execname":"sh"},{"pid":200,"uid":0,"execname":"cron"}],
    "probes":["syscall::read:entry","profile:::tick-1sec","fbt:genunix:kmem_alloc:entry","pid100:a:f:entry"],
    "scripts":[[],[{"probe":3,"pid":100,"args":[7,-8]},{"probe":4,"pid":200,"tid":9,"mode":"kernel","timestamp":5,"kstack":[1,2],"ustack":[3]}]]}"#;

/// These firings as they are found.
const FIRST: &str =
    "Firing { cpu: 1, place: 0, probe: 3, pid: 100, tid: 1, mode: User, timestamp: 0, args: [7, -8, 0, 0, 0, 0, 0, 0, 0, 0], kstack: [0, 0, 0, 0, 0, 0, 0, 0], ustack: [0, 0, 0, 0, 0, 0, 0, 0] }";

const SECOND: &str =
    "Firing { cpu: 1, place: 1, probe: 4, pid: 200, tid: 9, mode: Kernel, timestamp: 5, args: [0, 0, 0, 0, 0, 0, 0, 0, 0, 0], kstack: [1, 2, 0, 0, 0, 0, 0, 0], ustack: [3, 0, 0, 0, 0, 0, 0, 0] }";

/// The probe of an identifier, as it is found.
fn probe(alloc: Global, machine: &Machine, id: u32) -> Result<String, Fail> {
    match machine.probe(id) {
        Some(probe) => Ok(format!(in alloc; "{}", probe.tuple)?),
        None => Ok(String::from_str(alloc, "none")?),
    }
}

/// The firing at a place, as it is found.
fn firing(alloc: Global, machine: &Machine, cpu: u32, place: u32) -> Result<String, Fail> {
    match machine.firing(cpu, place) {
        Some(firing) => Ok(format!(in alloc; "{firing:?}")?),
        None => Ok(String::from_str(alloc, "none")?),
    }
}

/// The user of an account and of a process, as they are found.
fn uids(machine: &Machine, name: &[u8], pid: u32) -> (Option<u32>, Option<u32>) {
    let account = match machine.account(name) {
        Some(account) => Some(account.uid),
        None => None,
    };
    let process = match machine.process(pid) {
        Some(process) => Some(process.uid),
        None => None,
    };
    (account, process)
}

/// Whether the firing at processor 1's place 0 would belong there with these in place of its own.
fn would_belong(machine: &Machine, cpu: u32, probe: u32, pid: u32) -> Option<bool> {
    let firing = *machine.firing(1, 0)?;
    let other = Firing {
        cpu,
        probe,
        pid,
        ..firing
    };
    Some(machine.context(&other).is_some())
}

/// What is told to be wrong in a file: a key and the part that has it, `nothing` where no key is told, and `read` where the
/// file is read.
fn wrong_in(alloc: Global, text: &str) -> Result<String, Fail> {
    match Machine::read(alloc, text.as_bytes()) {
        Ok(_) => Ok(String::from_str(alloc, "read")?),
        Err(fault) => match fault.found {
            Some(found) => Ok(format!(in alloc; "{found}")?),
            None => Ok(String::from_str(alloc, "nothing")?),
        },
    }
}

/// The machine of the text.
fn machine(alloc: Global) -> Result<Machine, Fail> {
    Ok(Machine::read(alloc, MACHINE.as_bytes())?)
}

/// Identifiers, and the probes that they find.
const PROBES: &[(u32, &str)] = &[
    (0, "none"),
    (1, "dtrace:::BEGIN"),
    (5, "fbt:genunix:kmem_alloc:entry"),
    (7, "none"),
];

#[test]
fn probes_are_found(rt: HostRuntime) -> Result<(), Fail> {
    let machine = machine(rt.alloc())?;
    assert!(rt; machine.cpus() == 2 && machine.probes().len() == 6);
    for (id, want) in PROBES {
        finds_probe(&rt, rt.alloc(), &machine, *id, want)?;
    }
    Ok(())
}

/// Compares the probe of an identifier.
fn finds_probe(
    rt: &impl Abort,
    alloc: Global,
    machine: &Machine,
    id: u32,
    want: &str,
) -> Result<(), Fail> {
    same(rt, probe(alloc, machine, id)?.as_str(), want, "the probe");
    Ok(())
}

/// Processors, places on them, and the firings there.
const FIRINGS: &[(u32, u32, &str)] = &[
    (0, 0, "none"),
    (1, 0, FIRST),
    (1, 1, SECOND),
    (1, 2, "none"),
    (2, 0, "none"),
];

#[test]
fn firings_are_found(rt: HostRuntime) -> Result<(), Fail> {
    let machine = machine(rt.alloc())?;
    for (cpu, place, want) in FIRINGS {
        finds_firing(&rt, rt.alloc(), &machine, (*cpu, *place), want)?;
    }
    Ok(())
}

/// Compares the firing at a place of a processor.
fn finds_firing(
    rt: &impl Abort,
    alloc: Global,
    machine: &Machine,
    (cpu, place): (u32, u32),
    want: &str,
) -> Result<(), Fail> {
    same(
        rt,
        firing(alloc, machine, cpu, place)?.as_str(),
        want,
        "the firing",
    );
    Ok(())
}

#[test]
fn accounts_and_processes_are_found(rt: HostRuntime) -> Result<(), Fail> {
    let machine = machine(rt.alloc())?;
    assert!(rt; uids(&machine, b"ann", 100) == (Some(501), Some(501)));
    assert!(rt; uids(&machine, b"an", 200) == (None, Some(0)));
    assert!(rt; uids(&machine, b"root", 300) == (Some(0), None));
    Ok(())
}

/// A processor, a probe and a process, and whether a firing of them would belong to the machine.
const BELONGING: &[(u32, u32, u32, bool)] = &[
    (1, 3, 200, true),
    (2, 3, 200, false),
    (0, 2, 200, false),
    (0, 7, 200, false),
    (0, 3, 300, false),
    (0, 6, 200, false),
    (0, 6, 100, true),
];

#[test]
fn a_firing_belongs_where_all_that_it_names_is(rt: HostRuntime) -> Result<(), Fail> {
    let machine = machine(rt.alloc())?;
    for (cpu, probe, pid, want) in BELONGING {
        assert!(rt; would_belong(&machine, *cpu, *probe, *pid) == Some(*want));
    }
    Ok(())
}

#[test]
fn a_set_has_what_was_taken_in(rt: HostRuntime) {
    let mut set = Interest::new();
    set.insert(3);
    set.insert(PROBE_ID_MAX);
    for (id, want) in [
        (0, false),
        (3, true),
        (4, false),
        (PROBE_ID_MAX, true),
        (PROBE_ID_MAX + 1, false),
    ] {
        assert_eq!(rt; set.contains(id), want);
    }
}

/// A text of the file with what stands in its place, and the key and the part that are wrong then.
const FAULTS: &[(&str, &str, &str)] = &[
    ("\"cpus\":2", "\"cpus\":0", "cpus of the file"),
    ("\"cpus\"", "\"cpu\"", "cpus of the file"),
    ("\"ann\"", "\"root\"", "name of account 1"),
    ("501,\"privs\"", "-1,\"privs\"", "uid of account 1"),
    (",\"privs\"", ",\"priv\"", "privs of account 0"),
    ("dtrace_user", "dtrace_all", "privs of account 1"),
    ("200,\"uid\"", "100,\"uid\"", "pid of process 1"),
    ("\"sh\"", "7", "execname of process 0"),
    ("\"syscall:", "\"", "text of probe 0"),
    ("\"pid100:", "\"pid300:", "provider of probe 3"),
    ("[[],", "[", "scripts of the file"),
    ("[[],", "[7,", "scripts of processor 0"),
    ("\"kernel\"", "\"all\"", "mode of firing 1 of processor 1"),
    ("[7,-8]", "[7,null]", "args of firing 0 of processor 1"),
    ("\"probe\":3", "\"probe\":6", "read"),
    (
        "3,\"pid\":100",
        "6,\"pid\":200",
        "pid of firing 0 of processor 1",
    ),
    ("{\"cpus\"", "{", "nothing"),
];

#[test]
fn a_fault_tells_the_first_key_that_is_wrong(rt: HostRuntime) -> Result<(), Fail> {
    for (there, other, want) in FAULTS {
        tells_fault(
            &rt,
            rt.alloc(),
            wrong_with(rt.alloc(), there, other)?.as_str(),
            want,
        )?;
    }
    tells_fault(&rt, rt.alloc(), "[]", "nothing")
}

/// Compares what is told to be wrong in a file.
fn tells_fault(rt: &impl Abort, alloc: Global, text: &str, want: &str) -> Result<(), Fail> {
    same(rt, wrong_in(alloc, text)?.as_str(), want, text);
    Ok(())
}

/// The file with another text in the place of one.
fn wrong_with(alloc: Global, there: &str, other: &str) -> Result<String, Fail> {
    let (before, after) = MACHINE.split_once(there).ok_or("no such text")?;
    Ok(format!(in alloc; "{before}{other}{after}")?)
}
