//! Thread-local variables, as a table of assignments with what is answered and what variables then are.
use crate::asserts::word_holds;
use dt_locals::{DYNVARSIZE_MAX, LOCAL_DROPS_LIMIT, Locals};
use dt_names::Name;
use std::alloc::Global;
use std::process::Abort;
use std::test::Fail;

/// In each line: the bytes of room, and then words in order. `1.2.x=5k` assigns 5 to `x` of the thread 2 of the process 1, and it
/// has it then; with `d` in place of `k` there is no room. `1.2.x?5` says that it is 5, and `~3` that there were three drops.
const TABLE: &str = "
64 1.1.x?0 1.1.x=5k 1.2.x?0 1.2.x=7k 1.1.x?5 1.2.x?7 ~0
64 1.1.x=1k 2.1.x=2k 1.1.x?1 2.1.x?2 3.1.x=3d 3.1.x?0 ~1
64 1.1.x=1k 1.1.xx=2k 1.1.x?1 1.1.xx?2 1.1.y?0
32 1.1.x=5k 1.1.y=6d 1.1.y?0 ~1 1.1.x=0k 1.1.y=6k 1.1.y?6 1.1.x?0 ~1
32 1.1.x=5k 1.1.x=9k 1.1.x?9 1.2.x=1d 1.2.x=2d 1.2.x=0k 1.2.x?0 1.1.x?9 ~2
63 1.1.x=1k 1.1.y=1d 1.1.x=0k 1.1.x=0k 1.1.y=1k 1.1.x=1d ~2
31 1.1.x=1d 1.1.x=0k 1.1.x?0 ~1
0 1.1.x=-1d 1.1.x?0 ~1
96 1.1.x=-9223372036854775808k 1.1.y=9223372036854775807k 1.1.x?-9223372036854775808 1.1.y?9223372036854775807 ~0
32 4294967295.4294967295.x=1k 4294967295.4294967295.x?1 4294967295.0.x?0 0.4294967295.x?0
32 1.1.a23456789a123456789b123456789c1=7k 1.1.a23456789a123456789b123456789c1?7 1.1.a23456789a123456789b123456789c2?0
1048576 1.1.x=5k 1.1.x?5 ~0
";

#[test]
fn variables_are_what_the_table_says(rt: HostRuntime) -> Result<(), Fail> {
    for line in TABLE.lines() {
        if !line.is_empty() {
            shows(&rt, rt.alloc(), line)?;
        }
    }
    Ok(())
}

#[test]
fn freed_room_is_taken_by_others(rt: HostRuntime) -> Result<(), Fail> {
    let name = Name::new(b"x").ok_or("name")?;
    let mut locals = locals(rt.alloc(), 2048)?;
    for thread in 0..101_u32 {
        is_answered(&rt, &mut locals, (1, thread, &name), 7, thread < 64);
    }
    for thread in 64..101_u32 {
        takes_freed_room(&rt, &mut locals, thread, &name);
    }
    for thread in 64..101_u32 {
        has_taken_room(&rt, &locals, thread, &name);
    }
    let left = (0..64)
        .filter(|thread| locals.get(1, *thread, &name) == 7)
        .count();
    assert!(rt; left == 27 && locals.drops() == 74);
    Ok(())
}

/// The thread whose room a later thread takes.
fn earlier(thread: u32) -> u32 {
    thread.wrapping_mul(29) % 64
}

/// Frees the room of an earlier thread, which this one then takes, and no other.
fn takes_freed_room(rt: &impl Abort, locals: &mut Locals, thread: u32, name: &Name) {
    is_answered(rt, locals, (1, earlier(thread), name), 0, true);
    is_answered(rt, locals, (1, thread, name), 8, true);
    is_answered(rt, locals, (2, thread, name), 9, false);
}

/// Ends the test where a thread hasn't the room of an earlier one.
fn has_taken_room(rt: &impl Abort, locals: &Locals, thread: u32, name: &Name) {
    assert!(rt;
        locals.get(1, earlier(thread), name) == 0 && locals.get(1, thread, name) == 8,
        "the room of {thread}"
    );
}

/// Assigns a value to a variable, and ends the test where it isn't kept as is wanted.
fn is_answered(
    rt: &impl Abort,
    locals: &mut Locals,
    (pid, tid, name): (u32, u32, &Name),
    value: i64,
    is_kept: bool,
) {
    let found = set(locals, pid, tid, name, value);
    assert!(rt;
        found == Some(is_kept),
        "{value} to the thread {tid} of {pid}: {found:?}"
    );
}

/// Makes the line's variables, does what its words say and compares what they are.
fn shows(rt: &impl Abort, alloc: Global, line: &str) -> Result<(), Fail> {
    let mut words = line.split_whitespace();
    let room = words.next().unwrap_or("0").parse().unwrap_or(0);
    let mut locals = locals(alloc, room)?;
    for word in words {
        says(rt, &mut locals, line, word)?;
    }
    Ok(())
}

/// Does what a word says, or compares what it says.
fn says(rt: &impl Abort, locals: &mut Locals, line: &str, word: &str) -> Result<(), Fail> {
    let holds = if let Some(drops) = word.strip_prefix('~') {
        locals.drops() == drops.parse().unwrap_or(0)
    } else if let Some((variable, value)) = word.split_once('?') {
        let (pid, tid, name) = variable_of(variable)?;
        locals.get(pid, tid, &name) == number(value)
    } else {
        assigns(locals, word)?
    };
    word_holds(rt, holds, word, line);
    Ok(())
}

/// Assigns what a word says, and tells whether that is answered what it says.
fn assigns(locals: &mut Locals, word: &str) -> Result<bool, Fail> {
    let (variable, value) = word.split_once('=').ok_or("no word")?;
    let (pid, tid, name) = variable_of(variable)?;
    let (given, has_room) = match value.strip_suffix('k') {
        Some(given) => (given, true),
        None => (value.strip_suffix('d').ok_or("no answer")?, false),
    };
    Ok(set(locals, pid, tid, &name, number(given)) == Some(has_room))
}

/// The variable that a word names.
fn variable_of(word: &str) -> Result<(u32, u32, Name), Fail> {
    let (pid, rest) = word.split_once('.').ok_or("no process")?;
    let (tid, name) = rest.split_once('.').ok_or("no thread")?;
    let name = Name::new(name.as_bytes()).ok_or("no name")?;
    Ok((pid.parse().unwrap_or(0), tid.parse().unwrap_or(0), name))
}

fn number(word: &str) -> i64 {
    word.parse().unwrap_or(0)
}

/// Variables with so many bytes of room.
fn locals(alloc: Global, room: usize) -> Result<Locals, Fail> {
    if room > DYNVARSIZE_MAX {
        return Err("no room".into());
    }
    Ok(Locals::new(alloc, room)?)
}

/// Assigns a value, and tells whether it is kept.
fn set(locals: &mut Locals, pid: u32, tid: u32, name: &Name, value: i64) -> Option<bool> {
    if locals.drops() >= LOCAL_DROPS_LIMIT {
        return None;
    }
    Some(locals.set(pid, tid, name, value))
}
