//! Two threads append, each on behalf of a note of its own, while two others follow.
ghost use Rattle.std.specs.Prelude.{◌≡◌};
ghost use Rattle.dt_trail.specs.Items.{whose};

use crate::asserts::same;
use crate::writers::{Note, Writers};
use dt_trail::{Item, Seen};
use std::sync::{Mutex, MutexGuard, Wait};
use std::test::*;
use std::thread::{self, Threads, join};

/// What a note read: how many lines, how many firings, and whether each firing was the next of processor 0.
#[derive(Clone, Copy, PartialEq, Eq, Debug)]
struct Followed {
    lines: u32,
    firings: u32,
    in_order: bool,
}

fn append_lines<R: Wait>(rt: &R, writers: &Mutex<Writers>, line: &Item, many: u32)
    requires { whose line.now ≡ 0 }
{
    for _ in 0..many {
        let mut guard = writers.lock(rt);
        guard.line(line);
        MutexGuard::unlock(guard);
    }
}

fn append_firings<R: Wait>(rt: &R, writers: &Mutex<Writers>, many: u32) {
    for place in 0..many {
        let mut guard = writers.lock(rt);
        guard.firing(place);
        MutexGuard::unlock(guard);
    }
}

// Reads on until so many items were read.
fn follow<R: Wait>(rt: &R, mut note: Note, many: u64) -> Followed {
    let mut followed = Followed {
        lines: 0,
        firings: 0,
        in_order: true,
    };
    for _ in rt.forever() {
        match note.read() {
            Some(Seen::Line) => followed.lines = followed.lines.wrapping_add(1),
            Some(Seen::Fired { cpu, place }) => {
                if cpu != 0 || place != followed.firings {
                    followed.in_order = false;
                }
                followed.firings = followed.firings.wrapping_add(1);
            }
            None if note.count() >= many => return followed,
            None => thread::yield_now(),
        }
    }
    unreachable!()
}

fn append_both<R: Threads + Wait + Sync>(rt: &R, writers: &Mutex<Writers>, line: &Item, many: u32)
    requires { whose line.now ≡ 0 }
{
    join(
        rt,
        || -> ()
            requires { whose line.now ≡ 0 }
        { append_lines(rt, writers, line, many) },
        || append_firings(rt, writers, many),
    );
}

fn follow_both<R: Threads + Wait + Sync>(
    rt: &R,
    one: Note,
    two: Note,
    many: u64,
) -> (Followed, Followed) {
    join(
        rt,
        move || follow(rt, one, many),
        move || follow(rt, two, many),
    )
}

#[test]
fn notes_follow_while_others_append(rt: HostRuntime) -> Result<(), Fail> {
    let (writers, one, two) = Writers::open(rt.alloc(), 40_000)?;
    let writers = Mutex::new(writers);
    let line = Item::long_line();
    let (_, (first, second)) = join(
        &rt,
        || append_both(&rt, &writers, &line, 20_000),
        move || follow_both(&rt, one, two, 40_000),
    );
    let all = Followed {
        lines: 20_000,
        firings: 20_000,
        in_order: true,
    };
    same(&rt, "the first note", first, all);
    same(&rt, "the second note", second, all);
    Ok(())
}
