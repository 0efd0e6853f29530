//! The principal buffer of one processor.
ghost use Rattle.std.specs.Prelude.{◌≡◌, ◌≢◌, ◌<◌, ◌≤◌, IfOk, MatchOption, if◌then◌else◌};
ghost use Rattle.dt_buffer.specs.Ending.{HoldsRing};
ghost use Rattle.dt_buffer.specs.History.{BufferPast, attempt, attempts, swap, new_buffer_past, buffer_after};
ghost use Rattle.dt_buffer.specs.Shows.{HasContent, HasDrops, IsFilled, EndLast, PutAnswers, drops_after};
ghost use Rattle.dt_buffer.specs.IsAt.{BufferIsAt, drops_of};
ghost use Rattle.dt_buffer.specs.declared.limits.TheConstants.{DROPS_LIMIT, SIZE_MAX};

use crate::fill::FillStore;
use crate::limits::{DROPS_LIMIT, SIZE_MAX};
use crate::policy::{Policy, Put};
use crate::ring::RingStore;
use crate::switch::SwitchStore;
use circular_buffer::HeapCircularBuffer;
use std::alloc::{AllocError, Global};

/// The principal buffer of one processor: it keeps records by a policy. All its room is made by `new`.
#[derive(Drop)]
pub struct Principal {
    pub(crate) store: Store,
}

/// What a buffer holds under the ring policy.
#[derive(Clone, Copy)]
pub struct Rings<'a> {
    /// The bytes of the records kept, the oldest first.
    pub bytes: &'a HeapCircularBuffer<u8>,
    /// The lengths of those records that have bytes, the oldest first.
    pub lengths: &'a HeapCircularBuffer<u32>,
}

/// A store for each policy.
#[derive(Drop)]
pub(crate) enum Store {
    Switch(SwitchStore),
    Fill(FillStore),
    Ring(RingStore),
}

impl Principal {
    /// An empty buffer of `size` bytes, at most `SIZE_MAX`. Under fill the last `reserve` bytes are for END's records;
    /// the other policies have no reserve and ignore it. `Err`: there was no memory for its room.
    pub fn new(
        alloc: Global,
        policy: Policy,
        size: usize,
        reserve: usize,
    ) -> Result<Principal, AllocError>
        requires size_max { size ≤ SIZE_MAX }
        requires reserved { reserve ≤ size }
        ensures stands { IfOk result (BufferIsAt (new_buffer_past policy size reserve)) }
        ensures drops { IfOk result (λ principal. drops_of principal ≡ 0) }
    {
        let store = match policy {
            Policy::Switch => Store::Switch(SwitchStore::new(alloc, size)?),
            Policy::Fill => Store::Fill(FillStore::new(alloc, size, reserve)?),
            Policy::Ring => Store::Ring(RingStore::new(alloc, size)?),
        };
        Ok(Principal { store })
    }

    /// Keeps a record, or doesn't; `in_end` says that the probe END made it. It takes no memory, and costs the copy of
    /// the record: under ring, what it pushes out costs no more than it cost to put.
    ///
    /// Under fill, END's records come last.
    #[inline(always)]
    pub fn put(&mut self, bytes: &[u8], in_end: bool) -> Put
        requires { drops_of self.old < DROPS_LIMIT }
        ensures stands { (past : BufferPast) → BufferIsAt past self.old → EndLast past in_end
            → BufferIsAt (buffer_after past (attempt bytes.now in_end)) self.new }
        ensures answers { (past : BufferPast) → BufferIsAt past self.old → EndLast past in_end
            → PutAnswers past bytes.now in_end result }
        ensures drops { drops_of self.new ≡ drops_after result (drops_of self.old) }
    {
        match &mut self.store {
            Store::Switch(store) => put_or_dropped(store.put(bytes)),
            Store::Fill(store) => {
                if in_end {
                    put_or_filled(store.put_of_end(bytes))
                } else {
                    put_or_filled(store.put_ordinary(bytes))
                }
            }
            Store::Ring(store) => put_or_dropped(store.put(bytes)),
        }
    }

    /// What a snap leaves: under switch the buffer is empty again and forgets its drops, under fill and ring it is as it was.
    /// It takes no memory.
    pub fn swap(&mut self)
        ensures stands { (past : BufferPast) → BufferIsAt past self.old → BufferIsAt (buffer_after past swap) self.new }
        ensures drops { drops_of self.new ≤ drops_of self.old }
    {
        if let Store::Switch(store) = &mut self.store {
            store.clear();
        }
    }

    /// A copy of the bytes of the records kept, oldest first. `Err`: there was no memory for it.
    pub fn content(&self, alloc: Global) -> Result<Vec<u8>, AllocError>
        ensures { (past : BufferPast) → BufferIsAt past self.now → IfOk result (λ bytes. HasContent past bytes.items) }
    {
        match &self.store {
            Store::Switch(store) => Vec::from_slice(alloc, &store.kept),
            Store::Fill(store) => Vec::from_slice(alloc, &store.kept),
            Store::Ring(store) => store.bytes.to_vec(alloc),
        }
    }

    /// The two rings of a buffer under the ring policy, or `None` under another. It takes no memory.
    pub fn ring(&self) -> Option<Rings<'_>>
        ensures { (past : BufferPast) → BufferIsAt past self.now → MatchOption result (past.policy ≢ Policy.Ring)
            (λ rings. (past.policy ≡ Policy.Ring)
            × HoldsRing past.size (attempts past.events) rings.bytes.now.items rings.lengths.now.items) }
    {
        match &self.store {
            Store::Ring(store) => Some(Rings {
                bytes: &store.bytes,
                lengths: &store.lengths,
            }),
            Store::Switch(_) | Store::Fill(_) => None,
        }
    }

    /// How many records were dropped: under switch since the last swap, under ring those longer than the buffer, under
    /// fill none. Records that a ring overwrote are no drops.
    pub fn drops(&self) -> u64
        ensures counted { result ≡ drops_of self.now }
        ensures shows { (past : BufferPast) → BufferIsAt past self.now → HasDrops past result }
    {
        match &self.store {
            Store::Switch(store) => store.drops,
            Store::Fill(_store) => 0,
            Store::Ring(store) => store.drops,
        }
    }

    /// Whether the policy is fill and some record wasn't kept.
    pub fn filled(&self) -> bool
        ensures { (past : BufferPast) → BufferIsAt past self.now → IsFilled past result }
    {
        // only fill stops keeping records for good: under switch and ring what isn't kept is a drop
        let Store::Fill(store) = &self.store else {
            return false;
        };
        store.ordinary_filled || store.end_filled
    }
}

/// What is said of a record where one that isn't kept is a drop.
fn put_or_dropped(kept: bool) -> Put
    ensures { result ≡ (if kept then Put.Kept else Put.Dropped) }
{
    if kept { Put::Kept } else { Put::Dropped }
}

/// What is said of a record under fill.
fn put_or_filled(kept: bool) -> Put
    ensures { result ≡ (if kept then Put.Kept else Put.Filled) }
{
    if kept { Put::Kept } else { Put::Filled }
}
