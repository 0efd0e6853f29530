//! Looks, and what they stand on.
use crate::{Scene, each};
use dt_chain::{ChainReader, Entries, SeatMask, Site};
use left_right::Absorb;
use std::alloc::{AllocError, Global};
use std::sync::Wait;
use std::time::{Clock, Instant};

const LOOKS: u64 = 10_000_000;

/// Copies of hardly anything, so that an entry alone is measured.
#[derive(Clone, Copy, Default)]
struct Bare(u64);

impl Absorb<u64> for Bare {
    type State = u64;

    ghost state = { λ bare. bare.0 };

    ghost applied = { λ before operation. before };

    ghost never_fails = { Unit {0} };

    fn absorb_first(&mut self, _operation: &u64, _other: &Bare) -> Result<(), AllocError> {
        Ok(())
    }
}

/// An entry of `left_right`, and a number that is read there.
pub(crate) fn entering<R: Wait + Clock>(rt: &R, alloc: Global) -> Option<u64> {
    let (writer, mut reader) = left_right::new::<Bare, u64, _, _>(alloc, rt, 1).ok()?;
    let start = Instant::now(rt).ok();
    let mut sum = 0u64;
    for _ in 0..LOOKS {
        if let Some(bare) = reader.enter() {
            sum = sum.wrapping_add(bare.0);
        }
    }
    let time = each(rt, start, LOOKS);
    drop(reader);
    drop(writer);
    // the sum is 0, and it is used: so the numbers are read
    Some(time.wrapping_add(sum))
}

/// A look at plain entries.
pub(crate) fn looking_plainly<C: Clock>(clock: &C, scene: &Scene, entries: &Entries) -> u64 {
    let mut mask = SeatMask::new();
    let mut named = 0u64;
    let start = Instant::now(clock).ok();
    for _ in 0..LOOKS {
        if let Some(_context) = entries.look_into(&scene.machine, &scene.firing, &mut mask) {
            named = named.wrapping_add(1);
        }
    }
    all_alike(named, each(clock, start, LOOKS))
}

/// A look through the chains.
pub(crate) fn looking_through<J: Site, C: Clock>(
    clock: &C,
    scene: &Scene,
    reader: &mut ChainReader<J>,
) -> u64 {
    let mut mask = SeatMask::new();
    let mut named = 0u64;
    let start = Instant::now(clock).ok();
    for _ in 0..LOOKS {
        if let Ok(Some(_context)) = reader.look_into(&scene.machine, &scene.firing, &mut mask) {
            named = named.wrapping_add(1);
        }
    }
    all_alike(named, each(clock, start, LOOKS))
}

/// The time, or 0 where some looks named somebody and others did not.
fn all_alike(named: u64, time: u64) -> u64 {
    if named == 0 || named == LOOKS {
        time
    } else {
        0
    }
}
