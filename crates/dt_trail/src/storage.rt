//! Blocks that no thread shares yet.
ghost use Rattle.std.specs.Prelude.{◌≡◌, ◌+◌, length, IfOk};
ghost use denote.RawPtr.{InBlock};
ghost use Rattle.atomic_blocks.specs.Cells.{AllHome};
ghost use Rattle.dt_trail.specs.Blocks.{Blank, Rooted};
ghost use Rattle.dt_trail.specs.Limits.{widenings};

use crate::inner::ROOT_LEN;
use atomic_blocks::rows::{Link, Loose};
use std::alloc::{AllocError, Global};

/// A block of `len` empty cells.
pub fn block(alloc: &Global, len: u64) -> Result<(Link<()>, Loose<(), Global>), AllocError>
    ensures { IfOk result (λ r. (r.1.heap ≡ alloc.now) × (r.1.at ≡ r.0.ptr) × InBlock r.0.ptr × (r.1.left ≡ 0) × AllHome r.1.cells × (length r.1.cells ≡ len) × Blank r.1.cells) }
{
    let (link, mut block) = Loose::reserve(alloc, len as usize)?;
    'cells: for i in 0..len {
        block.push(link, i as usize, 0, link, ());
    }
    Ok((link, block))
}

/// A root, whose one block lies at `first`.
pub fn root(
    alloc: &Global,
    first: Link<()>,
    size: u64,
) -> Result<(Link<()>, Loose<(), Global>), AllocError>
    ensures { IfOk result (λ r. (r.1.heap ≡ alloc.now) × (r.1.at ≡ r.0.ptr) × InBlock r.0.ptr × (r.1.left ≡ 0) × AllHome r.1.cells × Rooted first.ptr size (widenings + 2) r.1.cells) }
{
    let (link, mut cells) = Loose::reserve(alloc, ROOT_LEN)?;
    'cells: for i in 0..ROOT_LEN {
        let word = if i == 0 { size } else { 0 };
        cells.push(link, i, word, first, ());
    }
    Ok((link, cells))
}
