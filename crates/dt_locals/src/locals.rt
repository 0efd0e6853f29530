//! The thread-local variables of a consumer.
ghost use Rattle.std.specs.Prelude.{◌≡◌, ◌+◌, ◌<◌, ◌≤◌, ◌↔◌, ℤ, pos, IsTrue, IfOk, if◌then◌else◌};
ghost use Rattle.dt_locals.specs.History.{LocalsPast, new_locals_past, locals_after, local_of, assigned};
ghost use Rattle.dt_locals.specs.Chosen.{KeepsAssignment, value_after, local_drops};
ghost use Rattle.dt_locals.specs.LocalsAreAt.{LocalsAreAt, local_drops_of};
ghost use Rattle.dt_locals.specs.declared.limits.TheConstants.{DYNVARSIZE_MAX, LOCAL_DROPS_LIMIT};

use crate::limits::{DYNVARSIZE_MAX, LOCAL_DROPS_LIMIT, LOCAL_SIZE};
use crate::table::Table;
use crate::variable::LocalVariable;
use dt_names::Name;
use std::alloc::{AllocError, Global};

/// The thread-local variables of a consumer. All their room is made by `new`.
#[derive(Drop)]
pub struct Locals {
    pub(crate) table: Table,
    /// How many assignments found no room.
    pub(crate) drops: u64,
}

impl Locals {
    /// Variables that are all 0, with room of `dynvarsize` bytes, at most [`DYNVARSIZE_MAX`], of which each that isn't 0 costs
    /// [`LOCAL_SIZE`]. `Err`: there was no memory for it.
    pub fn new(alloc: Global, dynvarsize: usize) -> Result<Locals, AllocError>
        requires { dynvarsize ≤ DYNVARSIZE_MAX }
        ensures stands { IfOk result (LocalsAreAt (new_locals_past dynvarsize)) }
        ensures drops { IfOk result (λ locals. local_drops_of locals ≡ 0) }
    {
        Ok(Locals {
            table: Table::new(alloc, dynvarsize / LOCAL_SIZE)?,
            drops: 0,
        })
    }

    /// The value of a thread's variable: 0 until one is assigned and kept. It takes no memory.
    pub fn get(&self, pid: u32, tid: u32, name: &Name) -> i64
        ensures { (past : LocalsPast) → LocalsAreAt past self.now
            → result ≡ value_after past (local_of pid tid name.now) }
    {
        self.table.get(&LocalVariable {
            pid,
            tid,
            name: *name,
        })
    }

    /// Assigns a value to a thread's variable, and says whether it has it now. Where the variable is 0, the value isn't, and there
    /// is no room for one more variable that isn't 0, it stays 0, and a drop is counted. It takes no memory, and is called with
    /// fewer than [`LOCAL_DROPS_LIMIT`] drops before.
    pub fn set(&mut self, pid: u32, tid: u32, name: &Name, value: i64) -> bool
        requires { local_drops_of self.old < LOCAL_DROPS_LIMIT }
        ensures stands { (past : LocalsPast) → LocalsAreAt past self.old
            → LocalsAreAt (locals_after past (assigned pid tid name.now value)) self.new }
        ensures keeps { (past : LocalsPast) → LocalsAreAt past self.old
            → (IsTrue result ↔ KeepsAssignment past (assigned pid tid name.now value)) }
        ensures has { (past : LocalsPast) → LocalsAreAt past self.old
            → value_after (locals_after past (assigned pid tid name.now value)) (local_of pid tid name.now)
            ≡ (if result then value else pos 0) }
        ensures counted { local_drops_of self.new ≡ (if result then local_drops_of self.old else local_drops_of self.old + 1) }
    {
        let variable = LocalVariable {
            pid,
            tid,
            name: *name,
        };
        let is_kept = self.table.set(&variable, value);
        if !is_kept {
            self.drops += 1;
        }
        is_kept
    }

    /// How many assignments found no room so far.
    pub fn drops(&self) -> u64
        ensures counted { result ≡ local_drops_of self.now }
        ensures shows { (past : LocalsPast) → LocalsAreAt past self.now → result ≡ local_drops past }
    {
        self.drops
    }
}
