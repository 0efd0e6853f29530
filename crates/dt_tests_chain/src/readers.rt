//! How many readers there are, and what they are answered once the chains have ended.
ghost use Rattle.std.specs.Prelude.{◌≡◌, ◌<◌, ◌^◌};

use crate::calls::{
    firing, life_of, looked, looked_anew, machine, published, seat_numbered, told, withdrawn,
};
use dt_chain::{ChainReader, ChainWriter, Chains, Seat, SeatMask, Site, Write};
use dt_machine::{Interest, Machine};
use std::alloc::{AllocError, Global};
use std::marker::Brand;
use std::process::Abort;
use std::sync::{Mutex, Wait};
use std::test::Fail;

/// There are as many readers as were asked for, and a reader's place serves another once it is dropped. A look is refused once the
/// chains have ended, and then the mask names nobody.
#[test]
fn places_and_the_end(rt: HostRuntime) -> Result<(), Fail> {
    let machine = machine(rt.alloc())?;
    ends::<Brand, _>(&rt, rt.alloc(), &machine, Chains::new())
}

type Made<J> = Result<ChainReader<J>, AllocError>;

fn ends<J: Site, R: Wait + Abort>(
    rt: &R,
    alloc: Global,
    machine: &Machine,
    chains: Chains,
) -> Result<(), Fail>
    requires { chains ≡ J.book }
{
    let writer = chains.writer::<J>(alloc, 1)?;
    let again = one_after_the_other(rt, &writer);
    let writer = Mutex::new(writer);
    let looked_before = looks_once(rt, alloc, machine, &writer, again);
    writer.into_inner().end(rt);
    looks_in_vain(rt, machine, looked_before?)
}

/// The reader after one that was dropped, beside which there was no further one.
fn one_after_the_other<J: Site>(rt: &impl Abort, writer: &ChainWriter<J>) -> Made<J> {
    let one = writer.reader();
    let too_many = writer.reader();
    assert!(rt; one.is_ok() && too_many.is_err());
    drop(one);
    writer.reader()
}

/// Each look is refused.
fn looks_in_vain<J: Site>(
    rt: &impl Abort,
    machine: &Machine,
    mut reader: ChainReader<J>,
) -> Result<(), Fail> {
    let firing = firing(machine, 0)?;
    let mut mask = SeatMask::new();
    let seen = looked(&mut reader, machine, &firing, &mut mask);
    assert!(rt; seen.is_none() && mask.is_empty());
    assert!(rt; looked_anew(&mut reader, machine, &firing).is_none());
    Ok(())
}

/// As many readers as were asked for are given, all at the same time, and no more: one, two, and one for each processor that a machine
/// may have.
#[test]
fn as_many_readers_as_were_asked_for(rt: HostRuntime) -> Result<(), Fail> {
    has_places(&rt, rt.alloc(), 1)?;
    has_places(&rt, rt.alloc(), 2)?;
    has_places(&rt, rt.alloc(), 64)
}

fn has_places<R: Wait + Abort>(rt: &R, alloc: Global, readers: usize) -> Result<(), Fail>
    requires { (0 < readers) × (readers < 2 ^ 32) }
{
    fills_places::<Brand, _>(rt, alloc, Chains::new(), readers)
}

fn fills_places<J: Site, R: Wait + Abort>(
    rt: &R,
    alloc: Global,
    chains: Chains,
    readers: usize,
) -> Result<(), Fail>
    requires site { chains ≡ J.book }
    requires readers { (0 < readers) × (readers < 2 ^ 32) }
{
    let writer = chains.writer::<J>(alloc, readers)?;
    let result = fills(rt, alloc, &writer, readers);
    writer.end(rt);
    result
}

/// Each reader is kept while the next one is asked for.
fn fills<J: Site>(
    rt: &impl Abort,
    alloc: Global,
    writer: &ChainWriter<J>,
    readers: usize,
) -> Result<(), Fail> {
    let mut kept = Vec::with_capacity(alloc, readers)?;
    for _ in 0..readers {
        kept.push(writer.reader()?)?;
    }
    let too_many = writer.reader();
    assert!(rt; too_many.is_err());
    Ok(())
}

/// A publication is named, a withdrawal is not, and a look names nobody else.
fn looks_once<J: Site, R: Wait + Abort>(
    rt: &R,
    alloc: Global,
    machine: &Machine,
    writer: &Mutex<ChainWriter<J>>,
    reader: Made<J>,
) -> Result<ChainReader<J>, Fail> {
    let mut reader = reader?;
    let seat = seat_numbered(255)?;
    published(rt, writer, publication(alloc, machine, seat)?)?;
    names_the_last(rt, machine, writer, &mut reader)?;
    withdrawn(rt, writer, seat)?;
    names_nobody(rt, machine, &mut reader)?;
    Ok(reader)
}

/// A publication of interest in probe 3, in life 7.
fn publication(alloc: Global, machine: &Machine, seat: Seat) -> Result<Write, Fail> {
    let account = machine.account(b"root").ok_or("no account")?;
    let mut interest = Interest::new();
    interest.insert(3);
    Ok(Write::publication(alloc, seat, 7, account, &interest)?)
}

/// One write is published, and a look names the last seat.
fn names_the_last<J: Site, R: Wait + Abort>(
    rt: &R,
    machine: &Machine,
    writer: &Mutex<ChainWriter<J>>,
    reader: &mut ChainReader<J>,
) -> Result<(), Fail> {
    assert_eq!(rt; told(rt, writer, reader), 1);
    let firing = firing(machine, 0)?;
    let mask = looked_anew(reader, machine, &firing).ok_or("a look was refused")?;
    assert!(rt; life_of(&mask, 255) == Some(7) && life_of(&mask, 0).is_none());
    Ok(())
}

/// A look names no seat.
fn names_nobody<J: Site>(
    rt: &impl Abort,
    machine: &Machine,
    reader: &mut ChainReader<J>,
) -> Result<(), Fail> {
    let firing = firing(machine, 0)?;
    let mask = looked_anew(reader, machine, &firing).ok_or("a look was refused")?;
    assert!(rt; mask.is_empty());
    Ok(())
}
