//! Two readers that look a million times each, while a writer publishes without end.
ghost use Rattle.std.specs.Prelude.{◌≡◌};

use crate::calls::{firing, life_of, looked, machine, published, seat_numbered, told};
use dt_chain::{ChainReader, ChainWriter, Chains, SeatMask, Site, Write};
use dt_cred::Account;
use dt_machine::{Firing, Interest, Machine};
use std::alloc::{AllocError, Global};
use std::marker::Brand;
use std::process::Abort;
use std::sync::atomic::{AtomicU64, Ordering};
use std::sync::{Mutex, Wait};
use std::test::Fail;
use std::thread::{Threads, join};

const LOOKS: u32 = 1_000_000;

/// The writes go to the seats below this in turn.
const SEATS_USED: u64 = 8;

/// What the threads share beside the chains.
#[derive(Drop)]
struct Scene {
    machine: Machine,
    account: Account,
    firing: Firing,
    /// How many readers still look.
    looking: AtomicU64,
}

/// Each mask is the state of the list that the reader has then seen, and that list only grows.
#[test]
fn masks_are_states_of_a_list_that_grows(rt: HostRuntime) -> Result<(), Fail> {
    let machine = machine(rt.alloc())?;
    let account = *machine.account(b"root").ok_or("no account")?;
    let firing = firing(&machine, 0)?;
    let scene = Scene {
        machine,
        account,
        firing,
        looking: AtomicU64::new(2),
    };
    looks_beside_a_writer::<Brand, _>(&rt, rt.alloc(), &scene, Chains::new())
}

fn looks_beside_a_writer<J: Site + Send + Sync, R: Threads + Wait + Abort + Sync>(
    rt: &R,
    alloc: Global,
    scene: &Scene,
    chains: Chains,
) -> Result<(), Fail>
    requires { chains ≡ J.book }
{
    let writer = chains.writer::<J>(alloc, 2)?;
    let readers = both(writer.reader(), writer.reader());
    let writer = Mutex::new(writer);
    let result = match readers {
        Ok((one, other)) => three_threads(rt, alloc, scene, &writer, one, other),
        Err(fault) => Err(fault),
    };
    writer.into_inner().end(rt);
    result
}

/// Two readers, if there were both.
fn both<J: Site>(one: Made<J>, other: Made<J>) -> Result<(ChainReader<J>, ChainReader<J>), Fail> {
    Ok((one?, other?))
}

type Made<J> = Result<ChainReader<J>, AllocError>;

fn three_threads<J: Site + Send + Sync, R: Threads + Wait + Abort + Sync>(
    rt: &R,
    alloc: Global,
    scene: &Scene,
    writer: &Mutex<ChainWriter<J>>,
    one: ChainReader<J>,
    other: ChainReader<J>,
) -> Result<(), Fail> {
    let (count, (one, other)) = join(
        rt,
        || publishes(rt, alloc, scene, writer),
        move || both_look(rt, scene, one, other),
    );
    let count = count?;
    finds_all(rt, scene, writer, one, count);
    finds_all(rt, scene, writer, other, count);
    Ok(())
}

/// Two readers look at the same time.
fn both_look<J: Site + Send + Sync, R: Threads + Wait + Abort + Sync>(
    rt: &R,
    scene: &Scene,
    one: ChainReader<J>,
    other: ChainReader<J>,
) -> (ChainReader<J>, ChainReader<J>) {
    join(
        rt,
        move || looks(rt, scene, one),
        move || looks(rt, scene, other),
    )
}

/// A reader that is told of all writes finds them.
fn finds_all<J: Site, R: Wait + Abort>(
    rt: &R,
    scene: &Scene,
    writer: &Mutex<ChainWriter<J>>,
    mut reader: ChainReader<J>,
    count: u64,
) {
    let all = told(rt, writer, &mut reader);
    assert_eq!(rt; all, count);
    let mut mask = SeatMask::new();
    let seen = looked(&mut reader, &scene.machine, &scene.firing, &mut mask);
    assert_eq!(rt; seen, Some(count));
    is_state(rt, &mask, count);
}

/// Publishes until nobody looks any more, and answers how many writes there are.
fn publishes<J: Site, R: Wait>(
    rt: &R,
    alloc: Global,
    scene: &Scene,
    writer: &Mutex<ChainWriter<J>>,
) -> Result<u64, Fail> {
    for count in 0..u64::MAX {
        if scene.looking.load(Ordering::SeqCst) == 0 {
            return Ok(count);
        }
        published(
            rt,
            writer,
            write_numbered(alloc, &scene.account, count + 1)?,
        )?;
    }
    Ok(u64::MAX)
}

/// The write of a number from 1 on: each third is a withdrawal, and the others publish the life of their number.
fn write_numbered(alloc: Global, account: &Account, number: u64) -> Result<Write, Fail> {
    let seat = seat_numbered((number % SEATS_USED) as u32)?;
    if number % 3 == 0 {
        return Ok(Write::withdrawal(seat));
    }
    let mut interest = Interest::new();
    interest.insert(3);
    Ok(Write::publication(alloc, seat, number, account, &interest)?)
}

/// The life that a seat is named with after so many writes.
fn life_after(count: u64, seat: u32) -> Option<u64> {
    if u64::from(seat) >= SEATS_USED {
        return None;
    }
    let back = count.wrapping_sub(u64::from(seat)) % SEATS_USED;
    let last = count.checked_sub(back)?;
    if last % 3 == 0 { None } else { Some(last) }
}

/// The mask is what is named after so many writes.
fn is_state(rt: &impl Abort, mask: &SeatMask, count: u64) {
    for seat in [0, 1, 2, 3, 4, 5, 6, 7, 8, 64, 255] {
        assert_eq!(rt; life_of(mask, seat), life_after(count, seat));
    }
}

/// Looks a million times.
fn looks<J: Site, R: Abort>(rt: &R, scene: &Scene, mut reader: ChainReader<J>) -> ChainReader<J> {
    let mut mask = SeatMask::new();
    let mut before = 0;
    for _ in 0..LOOKS {
        let count = looked(&mut reader, &scene.machine, &scene.firing, &mut mask);
        assert!(rt; count.is_some(), "a look was refused");
        let count = count.unwrap_or(0);
        assert!(rt; before <= count);
        is_state(rt, &mask, count);
        before = count;
    }
    scene.looking.fetch_sub(1, Ordering::SeqCst);
    reader
}
