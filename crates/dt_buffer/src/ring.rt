//! The store of a buffer under the ring policy.
ghost use Rattle.std.specs.Prelude.{◌≡◌, ◌+◌, ◌<◌, ◌≤◌, ◌↔◌, ℕ, List, [], ◌∷◌, ◌++◌, IsTrue, true, length, Some, IfOk, if◌then◌else◌};
ghost use Rattle.std.specs.Option.{ForSome};
ghost use Rattle.circular_buffer.specs.Buffer.{buffer, keep_last};
ghost use Rattle.dt_buffer.specs.Ending.{AreAllOf};
ghost use Rattle.dt_buffer.specs.declared.limits.TheConstants.{DROPS_LIMIT, SIZE_MAX};

use crate::limits::{DROPS_LIMIT, SIZE_MAX};
use crate::read_ahead::ReadAhead;
use circular_buffer::HeapCircularBuffer;
use std::alloc::{AllocError, Global};

/// The bytes of the newest records, the lengths of those that have bytes, and how many records were too long.
#[derive(Drop)]
pub(crate) struct RingStore {
    pub(crate) bytes: HeapCircularBuffer<u8>,
    pub(crate) lengths: HeapCircularBuffer<u32>,
    /// The one length of all records held that have bytes, if it is known.
    pub(crate) each: Option<u32>,
    pub(crate) drops: u64,
    /// What was read ahead, of which nothing comes.
    pub(crate) ahead: ReadAhead,
    ghost small: { bytes.capacity ≤ SIZE_MAX },
    ghost alike: { ForSome each (AreAllOf lengths.items) },
}

impl RingStore {
    ghost use Rattle.dt_buffer.specs.Stores.{RingIsAt, MakesRoom};
    ghost use Rattle.dt_buffer.specs.Ending.{fitting};

    /// An empty store with all its room: each record that has bytes has one at least, so there are no more lengths.
    pub(crate) fn new(alloc: Global, size: usize) -> Result<Self, AllocError>
        requires { size ≤ SIZE_MAX }
        ensures stands { IfOk result (RingIsAt size []) }
        ensures drops { IfOk result (λ store. store.drops ≡ 0) }
    {
        let mut bytes = HeapCircularBuffer::with_capacity(alloc, size)?;
        touch(&mut bytes);
        Ok(RingStore {
            bytes,
            lengths: HeapCircularBuffer::with_capacity(alloc, size)?,
            each: None,
            drops: 0,
            ahead: ReadAhead::new(),
        })
    }

    /// Takes a record and says so, or counts a drop: it is longer than the whole store.
    ///
    /// Most records come where all that are held are as long as they: those are taken where the call stands, and all others apart.
    #[inline(always)]
    pub(crate) fn put(&mut self, bytes: &[u8]) -> bool
        requires { self.old.drops < DROPS_LIMIT }
        ensures kept { IsTrue result ↔ (length bytes.now ≤ self.old.bytes.capacity) }
        ensures drops { self.new.drops ≡ (if result then self.old.drops else self.old.drops + 1) }
        ensures shows { (size : ℕ) (attempts : List (List ℕ)) → RingIsAt size attempts self.old
            → RingIsAt size (attempts ++ bytes.now ∷ []) self.new }
    {
        if self.is_all_of(bytes.len()) && bytes.len() <= self.bytes.capacity() {
            self.put_alike(bytes);
            return true;
        }
        self.put_other(bytes)
    }

    /// Takes a record that is as long as all that are held. Where there is no room for it they take turns: the oldest goes, and the lengths are those that they
    /// were, so that none is read or written.
    #[inline(always)]
    fn put_alike(&mut self, bytes: &[u8])
        requires known { self.old.each ≡ Some (length bytes.now) }
        requires some { 0 < length self.old.lengths.items }
        requires short { length bytes.now ≤ self.old.bytes.capacity }
        ensures drops { self.new.drops ≡ self.old.drops }
        ensures shows { (size : ℕ) (attempts : List (List ℕ)) → RingIsAt size attempts self.old
            → RingIsAt size (attempts ++ bytes.now ∷ []) self.new }
    {
        if self.bytes.capacity() - self.bytes.len() < bytes.len() {
            let left = self.bytes.len().saturating_sub(bytes.len());
            self.bytes.truncate_front(left);
            self.bytes.fill_from_slice(bytes);
            self.ahead.go_on(&self.bytes, bytes.len());
        } else {
            self.bytes.fill_from_slice(bytes);
            self.note_alike(bytes.len() as u32);
        }
    }

    /// Takes a record of any length, or counts a drop.
    #[inline(never)]
    fn put_other(&mut self, bytes: &[u8]) -> bool
        requires { self.old.drops < DROPS_LIMIT }
        ensures kept { IsTrue result ↔ (length bytes.now ≤ self.old.bytes.capacity) }
        ensures drops { self.new.drops ≡ (if result then self.old.drops else self.old.drops + 1) }
        ensures shows { (size : ℕ) (attempts : List (List ℕ)) → RingIsAt size attempts self.old
            → RingIsAt size (attempts ++ bytes.now ∷ []) self.new }
    {
        // longer than the whole ring: letting older records go would make no room for it, so they stay
        if self.bytes.capacity() < bytes.len() {
            self.drops += 1;
            return false;
        }
        self.make_room(bytes.len());
        // there is room for all of it
        self.bytes.fill_from_slice(bytes);
        // An empty record shows nowhere.
        if !bytes.is_empty() {
            self.note_length(bytes.len() as u32);
        }
        true
    }

    /// Whether there are records that have bytes, and it is known that all of them are of this length.
    fn is_all_of(&self, len: usize) -> bool
        ensures known { IsTrue result → self.now.each ≡ Some len }
        ensures some { IsTrue result → 0 < length self.now.lengths.items }
    {
        match self.each {
            Some(each) => each as usize == len && !self.lengths.is_empty(),
            None => false,
        }
    }

    /// Notes the length of the newest record.
    fn note_length(&mut self, len: u32)
        ensures lengths { self.new.lengths ≡ buffer (keep_last self.old.lengths.capacity (self.old.lengths.items ++ len ∷ []))
            self.old.lengths.capacity }
        ensures bytes { self.new.bytes ≡ self.old.bytes }
        ensures drops { self.new.drops ≡ self.old.drops }
    {
        match self.each {
            Some(each) if each == len => self.note_alike(len),
            _ => self.note_other(len),
        }
    }

    // It is as long as all before it: what is known of them stays, and isn't written.
    fn note_alike(&mut self, len: u32)
        requires { self.old.each ≡ Some len }
        ensures lengths { self.new.lengths ≡ buffer (keep_last self.old.lengths.capacity (self.old.lengths.items ++ len ∷ []))
            self.old.lengths.capacity }
        ensures bytes { self.new.bytes ≡ self.old.bytes }
        ensures drops { self.new.drops ≡ self.old.drops }
    {
        self.lengths.push_back(len);
    }

    // It may be the first, or of a length of its own.
    fn note_other(&mut self, len: u32)
        ensures lengths { self.new.lengths ≡ buffer (keep_last self.old.lengths.capacity (self.old.lengths.items ++ len ∷ []))
            self.old.lengths.capacity }
        ensures bytes { self.new.bytes ≡ self.old.bytes }
        ensures drops { self.new.drops ≡ self.old.drops }
    {
        self.each = each_after(self.lengths.is_empty(), len);
        self.lengths.push_back(len);
    }

    /// Lets the oldest records go until there is room.
    fn make_room(&mut self, wanted: usize)
        requires { wanted ≤ self.old.bytes.capacity }
        ensures drops { self.new.drops ≡ self.old.drops }
        ensures capacity { self.new.bytes.capacity ≡ self.old.bytes.capacity }
        ensures places { self.new.lengths.capacity ≡ self.old.lengths.capacity }
        ensures makes_room { (attempts : List (List ℕ)) → RingIsAt self.old.bytes.capacity attempts self.old
            → MakesRoom self.old.bytes.capacity (fitting self.old.bytes.capacity attempts) wanted
            self.new.bytes.items self.new.lengths.items }
        ensures room { (attempts : List (List ℕ)) → RingIsAt self.old.bytes.capacity attempts self.old
            → length self.new.bytes.items + wanted ≤ self.old.bytes.capacity }
    {
        while self.bytes.capacity() - self.bytes.len() < wanted {
            let Some(oldest) = self.lengths.pop_front() else {
                break;
            };
            let left = self.bytes.len().saturating_sub(oldest as usize);
            self.bytes.truncate_front(left);
        }
    }
}

/// So many bytes of a ring's room are written at once.
const TOUCHED: usize = 512;

/// Writes each byte of a ring's room once, and empties the ring: the system gives memory where it is first written, page by page, and firings would wait for that.
fn touch(bytes: &mut HeapCircularBuffer<u8>)
    ensures { bytes.new ≡ buffer [] bytes.old.capacity }
{
    let zeros = [0; TOUCHED];
    for _ in 0..bytes.capacity() / TOUCHED + 1 {
        bytes.fill_from_slice(&zeros);
    }
    bytes.clear();
}

/// The one length of all records that have bytes after one more, if it is known: that one's, where it is the first.
fn each_after(is_first: bool, len: u32) -> Option<u32>
    ensures { (lengths : List ℕ) → (is_first ≡ true → lengths ≡ [])
        → ForSome result (AreAllOf (lengths ++ len ∷ [])) }
{
    if is_first { Some(len) } else { None }
}
