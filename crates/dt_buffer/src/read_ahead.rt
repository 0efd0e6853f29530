//! What is read ahead of a ring.

use circular_buffer::HeapCircularBuffer;

/// Each time that so many bytes or more were written over, so many are read ahead: they lie on [`AHEAD_LINES`] cache lines and a part of one more. No contract
/// speaks of it.
const AHEAD: usize = AHEAD_LINES * LINE;

const AHEAD_LINES: usize = 8;

/// How many bytes a cache line has.
const LINE: usize = 64;

/// What is read ahead of a full ring: the first bytes that its next records are written over, each time that [`AHEAD`] or more were written over. Nothing is made of
/// them: but the lines of many rings don't stay near a processor, and it would wait for each. Here many are asked for at once, and come in the time of one.
#[derive(Clone, Copy)]
pub(crate) struct ReadAhead {
    /// How many bytes were written over since some were read ahead.
    since: usize,
    /// The greatest of the bytes that were read ahead. Nobody asks for it: but the compiler leaves out a read that nothing comes of.
    greatest: u8,
}

impl ReadAhead {
    /// Nothing was read ahead yet.
    pub(crate) fn new() -> Self {
        ReadAhead {
            since: 0,
            greatest: 0,
        }
    }

    /// Notes that a record of so many bytes was written over a ring's oldest ones, and reads ahead where that is due.
    #[inline(always)]
    pub(crate) fn go_on(&mut self, bytes: &HeapCircularBuffer<u8>, len: usize) {
        self.since = self.since.saturating_add(len);
        if self.since >= AHEAD {
            self.since = 0;
            self.greatest = greatest_ahead(bytes);
        }
    }
}

/// The greatest of a ring's oldest bytes, one on each cache line of the next [`AHEAD`].
#[inline(never)]
fn greatest_ahead(bytes: &HeapCircularBuffer<u8>) -> u8 {
    let mut greatest = 0;
    for line in 0..AHEAD_LINES + 1 {
        if let Some(byte) = bytes.get(line * LINE) {
            greatest = greatest.max(*byte);
        }
    }
    greatest
}
