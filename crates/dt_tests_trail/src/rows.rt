//! Short rows, in one thread.
ghost use Rattle.std.specs.Prelude.{◌≡◌, ◌+◌, length};

use crate::asserts::same;
use crate::writers::{Any, Note, Owner, Writers};
use dt_trail::{Item, Seen, Told, Trail};
use std::process::Abort;
use std::test::*;
use std::thread::{Threads, join};

#[test]
fn a_note_reads_what_was_appended(rt: HostRuntime) -> Result<(), Fail> {
    let (mut writers, mut other, mut last) = Writers::open(rt.alloc(), 2)?;
    same(&rt, "before the first item", other.read(), None);
    writers.line(&Item::line(b"go".to_vec(rt.alloc())?));
    writers.firing(0);
    same(&rt, "room in the first block", writers.owner.room(), 0);
    // there is no room: these two are left out
    writers.firing(1);
    writers.line(&Item::long_line());
    writers.widen(3)?;
    same(
        &rt,
        "cells, widenings and room",
        (
            writers.owner.cells(),
            writers.owner.widened(),
            writers.owner.room(),
        ),
        (5, 1, 3),
    );
    writers.firing(4_294_967_295);
    writers.line(&Item::long_line());
    reads_four(&rt, &mut other);
    same(&rt, "how many are caught up with", last.catch_up(), 4);
    same(&rt, "how many are caught up with again", last.catch_up(), 4);
    Ok(())
}

// A note reads the four items that are there, and then nothing.
fn reads_four(rt: &impl Abort, note: &mut Note) {
    let second = Seen::Fired { cpu: 0, place: 0 };
    let third = Seen::Fired {
        cpu: 0,
        place: 4_294_967_295,
    };
    same(rt, "the first item", note.read(), Some(Seen::Line));
    same(rt, "the second item", note.read(), Some(second));
    same(rt, "the third item", note.read(), Some(third));
    same(rt, "the fourth item", note.read(), Some(Seen::Line));
    same(rt, "after the last item", note.read(), None);
    same(rt, "how many items were read", note.count(), 4);
}

// How many items the session, the processor and the last note know in the end: each of the first two appends one, and the last is
// told of both by the owner, and then of one by the session.
fn known_by_telling(
    owner: &mut Owner,
    session: &mut Note,
    cpu: &mut Note,
    last: &mut Note,
) -> (u64, u64, u64)
    requires row { (owner.old.row ≡ session.old.row) × (owner.old.row ≡ cpu.old.row) × (owner.old.row ≡ last.old.row) }
    requires room { length owner.old.knows + 2 ≡ owner.old.cells }
    requires number { (session.old.number ≡ 0) × (cpu.old.number ≡ 1) }
{
    owner.append(session, &Item::long_line());
    let early = session.told();
    owner.append(cpu, &Item::fired(0, 5));
    last.learn(owner.told());
    last.learn(early);
    (session.count(), cpu.count(), last.count())
}

#[test]
fn what_was_told_is_learnt(rt: HostRuntime) -> Result<(), Fail> {
    let (mut owner, mut notes) = Trail::new::<u64, Any>(rt.alloc(), 7, 2, 3)?;
    let mut last = notes.pop().ok_or("a note")?;
    let mut cpu = notes.pop().ok_or("a note")?;
    let mut session = notes.pop().ok_or("a note")?;
    let known = known_by_telling(&mut owner, &mut session, &mut cpu, &mut last);
    same(&rt, "what the notes know", known, (1, 2, 2));
    same(&rt, "what is left to read", last.read(), None);
    same(&rt, "the room", owner.room(), 0);
    Ok(())
}

#[test]
fn a_note_that_meets_the_owner_knows_all(rt: HostRuntime) -> Result<(), Fail> {
    let (mut writers, _, _) = Writers::open(rt.alloc(), 3)?;
    writers.firing(0);
    writers.firing(1);
    same(&rt, "before they meet", writers.session.count(), 0);
    writers.meet();
    same(&rt, "after they met", writers.session.count(), 2);
    same(&rt, "what is left to read", writers.session.read(), None);
    Ok(())
}

fn let_go<R: Threads + Sync>(rt: &R, told: Told<u64>) {
    join(rt, move || drop(told), || ());
}

#[test]
fn what_was_told_goes_to_another_thread(rt: HostRuntime) -> Result<(), Fail> {
    let (writers, mut other, _) = Writers::open(rt.alloc(), 2)?;
    let_go(&rt, other.told());
    same(&rt, "the room", writers.owner.room(), 2);
    Ok(())
}
