//! One thread appends, and widens the trail where there is no room, while two others catch up.
use crate::again::again;
use crate::asserts::same;
use crate::writers::{Note, Writers};
use dt_trail::Seen;
use std::alloc::AllocError;
use std::sync::{Mutex, MutexGuard, Wait};
use std::test::*;
use std::thread::{self, Threads, join};

/// How many firings are appended.
const FIRINGS: u32 = 10_000;

// Appends all firings, and says that it is over.
fn append_all<R: Wait>(
    rt: &R,
    writers: &mut Writers,
    is_over: &Mutex<bool>,
) -> Result<(), AllocError> {
    let done = append_and_widen(writers);
    let mut guard = is_over.lock(rt);
    *guard = true;
    MutexGuard::unlock(guard);
    done
}

fn append_and_widen(writers: &mut Writers) -> Result<(), AllocError> {
    'firings: for place in 0..FIRINGS {
        if writers.owner.room() == 0 {
            writers.widen(500)?;
        }
        writers.firing(place);
    }
    Ok(())
}

// Catches up again and again, and once more when all was appended.
fn follow<R: Wait>(rt: &R, note: &mut Note, is_over: &Mutex<bool>) -> u64 {
    for _ in rt.forever() {
        let guard = is_over.lock(rt);
        let last = *guard;
        MutexGuard::unlock(guard);
        let count = note.catch_up();
        if last {
            return count;
        }
        thread::yield_now();
    }
    unreachable!()
}

// Whether each item, asked for again, is the next firing.
fn has_all(note: &mut Note) -> bool {
    'items: for place in 0..FIRINGS {
        if again(note, u64::from(place)) != Some(Seen::Fired { cpu: 0, place }) {
            return false;
        }
    }
    true
}

// How many items each of the two has, and whether they are the firings in their order.
fn follow_both<R: Threads + Wait + Sync>(
    rt: &R,
    one: &mut Note,
    two: &mut Note,
    is_over: &Mutex<bool>,
) -> [(u64, bool); 2] {
    let (first, second) = join(rt, || follow(rt, one, is_over), || follow(rt, two, is_over));
    [(first, has_all(one)), (second, has_all(two))]
}

fn run<R: Threads + Wait + Sync>(
    rt: &R,
    writers: &mut Writers,
    one: &mut Note,
    two: &mut Note,
) -> Result<[(u64, bool); 2], Fail> {
    let is_over = Mutex::new(false);
    let (done, followed) = join(
        rt,
        || append_all(rt, writers, &is_over),
        || follow_both(rt, one, two, &is_over),
    );
    done?;
    Ok(followed)
}

#[test]
fn notes_catch_up_while_the_trail_widens(rt: HostRuntime) -> Result<(), Fail> {
    let (mut writers, mut one, mut two) = Writers::open(rt.alloc(), 100)?;
    let followed = run(&rt, &mut writers, &mut one, &mut two)?;
    same(&rt, "the notes", followed, [(10_000, true), (10_000, true)]);
    same(
        &rt,
        "widenings and cells",
        (writers.owner.widened(), writers.owner.cells()),
        (20, 10_100),
    );
    Ok(())
}

#[test]
fn notes_catch_up_while_another_appends(rt: HostRuntime) -> Result<(), Fail> {
    let (mut writers, mut one, mut two) = Writers::open(rt.alloc(), 10_000)?;
    let followed = run(&rt, &mut writers, &mut one, &mut two)?;
    same(&rt, "the notes", followed, [(10_000, true), (10_000, true)]);
    same(&rt, "widenings", writers.owner.widened(), 0);
    Ok(())
}
