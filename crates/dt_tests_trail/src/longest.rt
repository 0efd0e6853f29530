//! A session's longest trail.
ghost use Rattle.std.specs.Prelude.{◌<◌};

use crate::asserts::same;
use crate::writers::Writers;
use dt_trail::{BLOCK_CELLS, TRAIL_CELLS, TRAIL_CELLS_MAX};
use std::test::*;

fn fire_all(writers: &mut Writers, many: u32) {
    'firings: for place in 0..many {
        writers.firing(place);
    }
}

// A catch-up that ends before the first empty cell shows here, as does a row that isn't as wide as it says.
#[test]
fn the_longest_trail_is_read_whole(rt: HostRuntime) -> Result<(), Fail> {
    let (mut writers, mut other, mut last) = Writers::open(rt.alloc(), TRAIL_CELLS)?;
    fire_all(&mut writers, 70_000);
    same(&rt, "room in the first block", writers.owner.room(), 0);
    same(&rt, "the first block", other.catch_up(), TRAIL_CELLS);
    for _ in 0..15 {
        writers.widen(BLOCK_CELLS)?;
    }
    same(&rt, "all cells", writers.owner.cells(), TRAIL_CELLS_MAX);
    same(&rt, "before more items", other.catch_up(), TRAIL_CELLS);
    fire_all(&mut writers, 983_040);
    same(&rt, "room in the last block", writers.owner.room(), 0);
    same(&rt, "all blocks", other.catch_up(), TRAIL_CELLS_MAX);
    same(&rt, "all blocks at once", last.catch_up(), TRAIL_CELLS_MAX);
    Ok(())
}
