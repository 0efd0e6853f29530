//! What the handles share.
ghost use Rattle.std.specs.Prelude.{◌≡◌};
ghost use denote.RawPtr.{InBlock};
ghost use Rattle.dt_trail.specs.Placed.{in_block_prop};

use crate::law::Law;
use crate::limits::WIDENINGS_MAX;
use crate::rule::{About, AppendOnly, TrailView};
use atomic_blocks::rows::{Rows, Seat};
use std::alloc::Global;

// Row 0 is the root, which has a cell for each block, and one more: so a note that looks behind the last block finds none.
pub const ROOT: u64 = 0;

pub const MOST_BLOCKS: u64 = WIDENINGS_MAX + 1;

pub const ROOT_LEN: usize = MOST_BLOCKS as usize + 1;

// What a handle does its steps by, and what it knows.
pub type RowSeat<K> = Seat<(), TrailView<K>, Global>;

/// The rows of cells, of which row 0 is the root and each other a block, and what is fixed of them.
pub struct Inner<K, L: Law<K>> {
    pub rows: Rows<(), TrailView<K>, About<K>, AppendOnly<L>, Global>,
    pub about: About<K>,
    pub alloc: Global,
    ghost keyed: { (rows.key ≡ about) × (rows.heap ≡ alloc) },
    ghost placed: { InBlock about.root.ptr } by { in_block_prop about.root.ptr },
}

impl<K: Drop, L: Law<K>> Drop for Inner<K, L> {
    fn drop(self) {
        let Self { rows, about, alloc } = self;
        let About {
            root,
            first: _,
            size: _,
            account: _account,
        } = about;
        let mut closed = rows.close();
        'rows: for block in 0..MOST_BLOCKS {
            let len = closed.word(ROOT, root, block as usize);
            if len > 0 {
                let link = closed.link(ROOT, root, block as usize);
                closed
                    .take(block + 1, link)
                    .free(&alloc, link, len as usize);
            }
        }
        closed.take(ROOT, root).free(&alloc, root, ROOT_LEN);
    }
}
