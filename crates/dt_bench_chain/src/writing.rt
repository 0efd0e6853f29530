//! Publications and withdrawals.
use crate::{Scene, each};
use dt_chain::{ChainWriter, Entries, Seat, Site, Write};
use dt_machine::Interest;
use std::alloc::Global;
use std::sync::Wait;
use std::time::{Clock, Instant};

const WRITES: u64 = 200_000;

/// A publication through the chains, in place of one of the same probes.
pub(crate) fn publishing<J: Site, R: Wait + Clock>(
    rt: &R,
    alloc: Global,
    scene: &Scene,
    writer: &mut ChainWriter<J>,
    interest: &Interest,
) -> Option<u64> {
    let seat = Seat::new(0)?;
    let start = Instant::now(rt).ok();
    for life in 0..WRITES {
        let write = Write::publication(alloc, seat, life, &scene.account, interest).ok()?;
        writer.publish(rt, write).ok()?;
    }
    Some(each(rt, start, WRITES))
}

/// A publication through the chains, and its withdrawal: both together.
pub(crate) fn withdrawing<J: Site, R: Wait + Clock>(
    rt: &R,
    alloc: Global,
    scene: &Scene,
    writer: &mut ChainWriter<J>,
    interest: &Interest,
) -> Option<u64> {
    let seat = Seat::new(0)?;
    let start = Instant::now(rt).ok();
    for life in 0..WRITES {
        let write = Write::publication(alloc, seat, life, &scene.account, interest).ok()?;
        writer.publish(rt, write).ok()?;
        writer.withdraw(rt, seat).ok()?;
    }
    Some(each(rt, start, WRITES))
}

/// A publication at plain entries.
pub(crate) fn publishing_plainly<C: Clock>(
    clock: &C,
    scene: &Scene,
    entries: &mut Entries,
    interest: &Interest,
) -> Option<u64> {
    let seat = Seat::new(0)?;
    let start = Instant::now(clock).ok();
    for life in 0..WRITES {
        entries.publish(seat, life, &scene.account, interest).ok()?;
    }
    Some(each(clock, start, WRITES))
}
