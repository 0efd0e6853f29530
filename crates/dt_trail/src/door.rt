//! Where a block of cells lies.
use atomic_blocks::rows::Link;
use std::alloc::AllocError;

/// Where a block lies: its number, the number of its first cell, how many cells it has, and its place.
/// The length 0 stands for no block.
pub struct Door {
    pub block: u64,
    pub from: u64,
    pub len: u64,
    pub link: Link<()>,
}

impl Clone for Door {
    fn clone(&self) -> Result<Door, AllocError> {
        Ok(*self)
    }
}

impl Copy for Door {}
