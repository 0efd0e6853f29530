//! A publication that is refused for memory comes with the next one.
ghost use Rattle.std.specs.Prelude.{◌≡◌};

use crate::calls::{firing, life_of, looked, machine, published, seat_numbered, told};
use dt_chain::{ChainReader, ChainWriter, Chains, SeatMask, Site, Write};
use dt_cred::Account;
use dt_machine::{Interest, Machine};
use std::alloc::{AllocError, Global};
use std::marker::Brand;
use std::process::Abort;
use std::sync::{Mutex, Wait};
use std::test::Fail;

/// After two publications both are published, whether or not the first of them was refused. The first is the one for which the chains
/// take memory, so `rt try --test --fail-alloc` can have it refused; nothing of it is seen then until the second one.
#[test]
fn a_refused_publication_comes_with_the_next(rt: HostRuntime) -> Result<(), Fail> {
    let machine = machine(rt.alloc())?;
    publishes_twice::<Brand, _>(&rt, rt.alloc(), &machine, Chains::new())
}

fn publishes_twice<J: Site, R: Wait + Abort>(
    rt: &R,
    alloc: Global,
    machine: &Machine,
    chains: Chains,
) -> Result<(), Fail>
    requires { chains ≡ J.book }
{
    let writer = chains.writer::<J>(alloc, 1)?;
    let reader = writer.reader();
    let writer = Mutex::new(writer);
    let result = both_are_seen(rt, alloc, machine, &writer, reader);
    writer.into_inner().end(rt);
    result
}

fn both_are_seen<J: Site, R: Wait + Abort>(
    rt: &R,
    alloc: Global,
    machine: &Machine,
    writer: &Mutex<ChainWriter<J>>,
    reader: Result<ChainReader<J>, AllocError>,
) -> Result<(), Fail> {
    let mut reader = reader?;
    let first = publishes(rt, alloc, machine, writer, 1)?;
    has_writes(rt, writer, &mut reader, u64::from(first.is_ok()));
    publishes(rt, alloc, machine, writer, 2)??;
    has_writes(rt, writer, &mut reader, 2);
    names_both(rt, machine, &mut reader)
}

/// Publishes at the seat of a number, and answers whether it was refused for memory.
fn publishes<J: Site, R: Wait>(
    rt: &R,
    alloc: Global,
    machine: &Machine,
    writer: &Mutex<ChainWriter<J>>,
    number: u32,
) -> Result<Result<(), AllocError>, Fail> {
    let account = machine.account(b"root").ok_or("no account")?;
    Ok(published(rt, writer, publication(alloc, number, account)?))
}

/// So many writes are published.
fn has_writes<J: Site, R: Wait + Abort>(
    rt: &R,
    writer: &Mutex<ChainWriter<J>>,
    reader: &mut ChainReader<J>,
    count: u64,
) {
    assert_eq!(rt; told(rt, writer, reader), count);
}

/// A look finds both writes, and names both seats.
fn names_both<J: Site>(
    rt: &impl Abort,
    machine: &Machine,
    reader: &mut ChainReader<J>,
) -> Result<(), Fail> {
    let firing = firing(machine, 0)?;
    let mut mask = SeatMask::new();
    assert_eq!(rt; looked(reader, machine, &firing, &mut mask), Some(2));
    assert!(rt; life_of(&mask, 1) == Some(1) && life_of(&mask, 2) == Some(2));
    Ok(())
}

/// A publication of interest in probe 3, in the life of the seat's own number.
fn publication(alloc: Global, number: u32, account: &Account) -> Result<Write, Fail> {
    let mut interest = Interest::new();
    interest.insert(3);
    let seat = seat_numbered(number)?;
    Ok(Write::publication(alloc, seat, u64::from(number), account, &interest)?)
}
