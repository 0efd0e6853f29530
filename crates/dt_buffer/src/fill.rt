//! The store of a buffer under the fill policy.
ghost use Rattle.std.specs.Prelude.{◌≤◌, ◌↔◌, ℕ, List, [], ◌∷◌, ◌++◌, IsTrue, IfOk, vec_len, vec_capacity};

use std::alloc::{AllocError, Global};

/// The bytes of the records kept, first the ordinary ones and then END's, and whether one of each kind wasn't kept.
#[derive(Drop)]
pub(crate) struct FillStore {
    pub(crate) kept: Vec<u8>,
    pub(crate) size: usize,
    pub(crate) reserve: usize,
    pub(crate) ordinary_filled: bool,
    pub(crate) end_filled: bool,
    ghost room: { size ≤ vec_capacity kept },
    ghost within: { vec_len kept ≤ size },
    ghost reserved: { reserve ≤ size },
}

impl FillStore {
    ghost use Rattle.dt_buffer.specs.Stores.{FillIsAt};
    ghost use Rattle.dt_buffer.specs.Beginning.{KeepsOrdinary, KeepsOfEnd};

    /// An empty store with all its room.
    pub(crate) fn new(alloc: Global, size: usize, reserve: usize) -> Result<Self, AllocError>
        requires { reserve ≤ size }
        ensures { IfOk result (FillIsAt size reserve [] []) }
    {
        Ok(FillStore {
            kept: Vec::with_capacity(alloc, size)?,
            size,
            reserve,
            ordinary_filled: false,
            end_filled: false,
        })
    }

    /// Takes an ordinary record and says so, or none from now on.
    pub(crate) fn put_ordinary(&mut self, bytes: &[u8]) -> bool
        ensures { (size reserve : ℕ) (ordinary : List (List ℕ)) → FillIsAt size reserve ordinary [] self.old
            → FillIsAt size reserve (ordinary ++ bytes.now ∷ []) [] self.new
            × (IsTrue result ↔ KeepsOrdinary size reserve ordinary bytes.now) }
    {
        let room = (self.size - self.reserve).saturating_sub(self.kept.len());
        // filled for good: no later ordinary record is kept, not even one that would fit
        if self.ordinary_filled || room < bytes.len() {
            self.ordinary_filled = true;
            return false;
        }
        self.kept.extend_from_slice(bytes).unwrap();
        true
    }

    /// Takes a record of END and says so, or none from now on.
    pub(crate) fn put_of_end(&mut self, bytes: &[u8]) -> bool
        ensures { (size reserve : ℕ) (ordinary of_end : List (List ℕ)) → FillIsAt size reserve ordinary of_end self.old
            → FillIsAt size reserve ordinary (of_end ++ bytes.now ∷ []) self.new
            × (IsTrue result ↔ KeepsOfEnd size reserve ordinary of_end bytes.now) }
    {
        // filled for good for END too; its records may take all that is left, not the reserve alone
        if self.end_filled || self.size - self.kept.len() < bytes.len() {
            self.end_filled = true;
            return false;
        }
        self.kept.extend_from_slice(bytes).unwrap();
        true
    }
}
