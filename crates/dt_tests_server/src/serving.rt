//! A session over a client that cuts its bytes, takes few at once, or fails.
ghost use Rattle.std.specs.Prelude.{◌≡◌};

use crate::devices::{Pieces, Taking};
use dt_hub::{CpuSeat, Hub, HubParts, HubSite};
use dt_machine::Machine;
use dt_server::{Ended, serve_session};
use std::alloc::Global;
use std::marker::Brand;
use std::process::Abort;
use std::sync::Wait;
use std::test::Fail;

/// The first processor fires one probe with 7, 8 and 9, and then another one.
const MACHINE: &str = r#"{"cpus":2,
"accounts":[{"name":"root","uid":0,"privs":["dtrace_kernel"]}],
"processes":[{"pid":100,"uid":501,"execname":"sh"}],
"probes":["syscall::read:entry","profile:::tick-1sec","fbt:genunix:kmem_alloc:entry"],
"scripts":[[{"probe":3,"pid":100,"args":[7]},{"probe":3,"pid":100,"args":[8]},{"probe":3,"pid":100,"args":[9]},{"probe":5,"pid":100}],[]]}"#;

/// What a client writes before its processor fires.
const BEFORE: &[u8] = b"{\"cmd\":\"option\",\"name\":\"bufsize\",\"value\":28}
{\"cmd\":\"enable\",\"text\":\"syscall::read:entry{trace(arg0)} fbt:::entry{}\"}
{\"cmd\":\"go\"}
";

/// What it writes after that. The rest after the last newline is no line.
const AFTER: &[u8] = b"{\"cmd\":\"snap\",\"cpu\":0}
{\"cmd\":\"snap\",\"cpu\":0}
{\"cmd\":\"sn";

/// What it is answered: the third record of 12 bytes is dropped, the one of 4 fits exactly, and both are told once.
const REPLIES: &[u8] = b"{\"ok\":true}
{\"count\":2,\"first\":1,\"ok\":true}
{\"ok\":true}
{\"cpu\":0,\"data\":\"00000001000000000000000700000001000000000000000800000002\",\"drops\":1,\"filled\":false,\"ok\":true}
{\"cpu\":0,\"data\":\"\",\"drops\":0,\"filled\":false,\"ok\":true}
";

/// How a client's devices behave.
#[derive(Clone, Copy)]
struct Devices {
    /// How many bytes it gives at once.
    gives: usize,
    /// How many reads of it go well.
    good_reads: u64,
    /// How many bytes it takes at once.
    takes: usize,
    /// How many writes to it go well.
    good_writes: u64,
}

/// Devices that don't fail.
const FINE: Devices = Devices {
    gives: 7,
    good_reads: u64::MAX,
    takes: usize::MAX,
    good_writes: u64::MAX,
};

/// Serves a session of root over such devices, and tells how it ended and what was written. Its seat is the first one, and free again after it.
fn served<R: Wait + Abort>(
    rt: &R,
    alloc: Global,
    devices: Devices,
) -> Result<(Ended, Vec<u8>), Fail> {
    let machine = Machine::read(alloc, MACHINE.as_bytes())?;
    let parts = HubParts::new(alloc, machine)?;
    on_hub::<Brand, R>(rt, alloc, parts, devices)
}

fn on_hub<J: HubSite, R: Wait + Abort>(
    rt: &R,
    alloc: Global,
    parts: HubParts,
    devices: Devices,
) -> Result<(Ended, Vec<u8>), Fail>
    requires contents { parts.contents ≡ J.contents }
    requires chains { parts.book ≡ J.book }
    requires facts { parts.word ≡ J.word }
{
    let (hub, mut tokens) = Hub::<J>::new(rt, alloc, parts)?;
    let answer = match input_of(alloc) {
        Ok(input) => session(rt, alloc, &hub, &mut tokens[0], &input, devices),
        Err(fault) => Err(fault),
    };
    hub.end(rt);
    answer
}

/// All that a client writes.
fn input_of(alloc: Global) -> Result<Vec<u8>, Fail> {
    let mut input = BEFORE.to_vec(alloc)?;
    input.extend_from_slice(AFTER)?;
    Ok(input)
}

fn session<J: HubSite, R: Wait + Abort>(
    rt: &R,
    alloc: Global,
    hub: &Hub<J>,
    token: &mut CpuSeat<J>,
    input: &[u8],
    devices: Devices,
) -> Result<(Ended, Vec<u8>), Fail> {
    let Ok(session) = hub.open(rt, alloc, b"root") else {
        return Err(Fail::from("no session"));
    };
    let seat = session.seat();
    let mut source = Pieces {
        rt,
        hub,
        token,
        rest: input,
        size: devices.gives,
        fires_at: AFTER.len(),
        good: devices.good_reads,
        failures: 0,
    };
    let mut sink = Taking {
        taken: Vec::new(alloc),
        size: devices.takes,
        good: devices.good_writes,
        failures: 0,
    };
    let (ended, _receipt) = serve_session(rt, alloc, hub, session, &mut source, &mut sink);
    assert_eq!(rt; seat.number(), 0);
    let Ok(again) = hub.open(rt, alloc, b"root") else {
        return Err(Fail::from("the seat isn't free"));
    };
    assert_eq!(rt; again.seat().number(), 0);
    hub.close(rt, again);
    Ok((ended, sink.taken))
}

/// The replies to as many lines as are whole in these bytes.
fn replies_to(input: &[u8]) -> &'static [u8] {
    let mut left = input.iter().filter(|byte| **byte == b'\n').count();
    for (place, byte) in REPLIES.iter().enumerate() {
        if left == 0 {
            return beginning(REPLIES, place);
        }
        if *byte == b'\n' {
            left -= 1;
        }
    }
    REPLIES
}

/// So many of the bytes.
fn beginning(bytes: &[u8], count: usize) -> &[u8] {
    bytes.get(..count).unwrap_or(bytes)
}

#[test]
fn bytes_are_cut_anywhere(rt: HostRuntime) -> Result<(), Fail> {
    for size in 1..21 {
        let devices = Devices {
            gives: size,
            takes: 21 - size,
            ..FINE
        };
        let (ended, written) = served(&rt, rt.alloc(), devices)?;
        assert_eq!(rt; ended, Ended::EndOfInput);
        assert!(rt; written.as_slice() == REPLIES, "other replies");
    }
    Ok(())
}

#[test]
fn each_read_fails_once(rt: HostRuntime) -> Result<(), Fail> {
    let alloc = rt.alloc();
    let input = input_of(alloc)?;
    let mut read = 0;
    let mut reads = 0_u64;
    for (place, piece) in input.chunks(FINE.gives).enumerate() {
        let devices = Devices {
            good_reads: place as u64,
            ..FINE
        };
        let (ended, written) = served(&rt, alloc, devices)?;
        assert_eq!(rt; ended, Ended::ReadFault);
        assert!(rt;
            written.as_slice() == replies_to(beginning(&input, read)),
            "other replies"
        );
        read = read.wrapping_add(piece.len());
        reads = reads.wrapping_add(1);
    }
    // the one that would find the end of the input
    let last = Devices {
        good_reads: reads,
        ..FINE
    };
    let (ended, written) = served(&rt, alloc, last)?;
    assert_eq!(rt; ended, Ended::ReadFault);
    assert!(rt; written.as_slice() == REPLIES, "other replies");
    Ok(())
}

#[test]
fn each_write_fails_once(rt: HostRuntime) -> Result<(), Fail> {
    for (place, _) in REPLIES.iter().enumerate() {
        let devices = Devices {
            takes: 1,
            good_writes: place as u64,
            ..FINE
        };
        let (ended, written) = served(&rt, rt.alloc(), devices)?;
        assert_eq!(rt; ended, Ended::WriteFault);
        assert!(rt;
            written.as_slice() == beginning(REPLIES, place),
            "other replies"
        );
    }
    Ok(())
}
