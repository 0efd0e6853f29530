//! Where a session's memory begins in the heap that its thread has.
use std::alloc::Global;

/// How many colours there are. The last one's room is less than what the system's allocator takes apart from a thread's heap.
const COLOURS: u64 = 29;

/// By how many bytes each colour lies after the one before: a page, and some lines of a cache.
const STEP: u64 = 4_096 + 5 * 64;

/// Room that a session's thread takes before it takes anything else, so that the memory of the session which comes after it has a colour of its own, as slabs have.
///
/// The C library has up to eight heaps for each processor of the system, and those of threads begin alike; where there are more threads than heaps they share them. Without the room what a processor
/// needs of dozens of sessions lies at the same places of as many heaps; caches, of data and of pages, keep few of such places at once, and a firing waits for each session's. The room is
/// never written, so it takes addresses, and no memory but its head. Where there is none, nothing is lost but time.
pub(crate) fn colour(alloc: Global, session: u64) -> Vec<u8> {
    let bytes = (session % COLOURS) * STEP;
    match Vec::with_capacity(alloc, bytes as usize) {
        Ok(room) => room,
        Err(_) => Vec::new(alloc),
    }
}
