//! Items that a note is asked for again.
use crate::asserts::same;
use crate::writers::{Note, Writers};
use dt_trail::{Item, Seen};
use std::process::Abort;
use std::test::*;

/// What the cell of an item shows that the note knows.
pub(crate) fn again(note: &mut Note, k: u64) -> Option<Seen> {
    if k < note.count() {
        Some(note.item(k))
    } else {
        None
    }
}

// In three blocks, of 2, 1 and 3 cells: firings at the even places, lines at the odd ones.
fn three_blocks(writers: &mut Writers) -> Result<(), Fail> {
    writers.firing(7);
    writers.line(&Item::long_line());
    writers.widen(1)?;
    writers.firing(8);
    writers.widen(3)?;
    writers.line(&Item::long_line());
    writers.firing(9);
    Ok(())
}

fn fired(place: u32) -> Option<Seen> {
    Some(Seen::Fired { cpu: 0, place })
}

// A note finds each item from the first on, and from the last back.
fn finds_each(rt: &impl Abort, note: &mut Note, items: &[Option<Seen>; 5]) {
    for k in 0..5u64 {
        let item = items[k as usize];
        same(rt, "on the way on", again(note, k), item);
        let item = items[(4 - k) as usize];
        same(rt, "on the way back", again(note, 4 - k), item);
    }
}

// A note asks for each item from the first on and back, from within the first block and from the last.
#[test]
fn each_item_is_found_again(rt: HostRuntime) -> Result<(), Fail> {
    let (mut writers, mut other, mut last) = Writers::open(rt.alloc(), 2)?;
    three_blocks(&mut writers)?;
    last.read();
    same(&rt, "an item that is known", again(&mut last, 0), fired(7));
    same(&rt, "an item too far", again(&mut last, 1), None);
    let items = [
        fired(7),
        Some(Seen::Line),
        fired(8),
        Some(Seen::Line),
        fired(9),
    ];
    same(&rt, "all items so far", other.catch_up(), 5);
    finds_each(&rt, &mut other, &items);
    same(&rt, "an item after the last", again(&mut other, 5), None);
    // it reads on where it was
    writers.firing(10);
    same(&rt, "the item that comes next", other.read(), fired(10));
    same(&rt, "an item before it", again(&mut other, 2), fired(8));
    same(&rt, "all items", last.catch_up(), 6);
    Ok(())
}
