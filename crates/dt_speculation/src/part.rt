//! The buffer of one identifier on one processor.
ghost use Rattle.std.specs.Prelude.{◌≤◌, ◌↔◌, ℕ, List, [], ◌∷◌, ◌++◌, IsTrue, IfOk, vec_len, vec_capacity};

use dt_buffer::one_choice;
use std::alloc::{AllocError, Global};

/// The bytes of the records kept since the identifier was drawn.
#[derive(Drop)]
pub(crate) struct SpecPart {
    pub(crate) kept: Vec<u8>,
    pub(crate) size: usize,
    ghost room: { size ≤ vec_capacity kept },
    ghost within: { vec_len kept ≤ size },
}

impl SpecPart {
    ghost use Rattle.dt_buffer.specs.Choice.{KeepsSwitch};
    ghost use Rattle.dt_speculation.specs.IsAt.{PartIsAt};

    /// An empty part with all its room.
    pub(crate) fn new(alloc: Global, size: usize) -> Result<Self, AllocError>
        ensures { IfOk result (PartIsAt size []) }
    {
        Ok(SpecPart {
            kept: Vec::with_capacity(alloc, size)?,
            size,
        })
    }

    /// Takes a record and says so, or drops it.
    pub(crate) fn put(&mut self, bytes: &[u8]) -> bool
        ensures kept { (size : ℕ) (records : List (List ℕ)) → PartIsAt size records self.old
            → IsTrue result ↔ KeepsSwitch size records bytes.now }
        ensures stands { (size : ℕ) (records : List (List ℕ)) → PartIsAt size records self.old
            → PartIsAt size (records ++ bytes.now ∷ []) self.new }
    {
        one_choice();
        if self.size - self.kept.len() < bytes.len() {
            return false;
        }
        self.kept.extend_from_slice(bytes).unwrap();
        true
    }

    /// Forgets its records. The bytes stay in memory: only the length is set.
    pub(crate) fn clear(&mut self)
        ensures { (size : ℕ) (records : List (List ℕ)) → PartIsAt size records self.old → PartIsAt size [] self.new }
    {
        self.kept.clear();
    }
}
