//! The store of a buffer under the switch policy.
ghost use Rattle.std.specs.Prelude.{◌≡◌, ◌+◌, ◌<◌, ◌≤◌, ◌↔◌, ℕ, List, [], ◌∷◌, ◌++◌, IsTrue, length, IfOk, vec_len, vec_capacity, if◌then◌else◌};
ghost use Rattle.dt_buffer.specs.declared.limits.TheConstants.{DROPS_LIMIT};

use crate::limits::DROPS_LIMIT;
use std::alloc::{AllocError, Global};

/// The bytes of the records kept since the last swap, and how many were dropped since.
#[derive(Drop)]
pub(crate) struct SwitchStore {
    pub(crate) kept: Vec<u8>,
    pub(crate) size: usize,
    pub(crate) drops: u64,
    ghost room: { size ≤ vec_capacity kept },
    ghost within: { vec_len kept ≤ size },
}

impl SwitchStore {
    ghost use Rattle.dt_buffer.specs.Stores.{SwitchIsAt};

    /// An empty store with all its room.
    pub(crate) fn new(alloc: Global, size: usize) -> Result<Self, AllocError>
        ensures stands { IfOk result (SwitchIsAt size []) }
        ensures drops { IfOk result (λ store. store.drops ≡ 0) }
    {
        Ok(SwitchStore {
            kept: Vec::with_capacity(alloc, size)?,
            size,
            drops: 0,
        })
    }

    /// Takes a record and says so, or counts a drop.
    pub(crate) fn put(&mut self, bytes: &[u8]) -> bool
        requires { self.old.drops < DROPS_LIMIT }
        ensures kept { IsTrue result ↔ (length self.old.kept.items + length bytes.now ≤ self.old.size) }
        ensures drops { self.new.drops ≡ (if result then self.old.drops else self.old.drops + 1) }
        ensures shows { (size : ℕ) (attempts : List (List ℕ)) → SwitchIsAt size attempts self.old
            → SwitchIsAt size (attempts ++ bytes.now ∷ []) self.new }
    {
        if bytes.len() <= self.size - self.kept.len() {
            self.kept.extend_from_slice(bytes).unwrap();
            true
        } else {
            self.drops += 1;
            false
        }
    }

    /// Begins anew.
    pub(crate) fn clear(&mut self)
        ensures stands { (size : ℕ) (attempts : List (List ℕ)) → SwitchIsAt size attempts self.old → SwitchIsAt size [] self.new }
        ensures drops { self.new.drops ≡ 0 }
    {
        self.kept.clear();
        self.drops = 0;
    }
}
