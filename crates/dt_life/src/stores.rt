//! Stores of aggregations to which nothing was given.
ghost use Rattle.std.specs.Prelude.{◌≡◌, ◌≤◌, All, IfOk, length};
ghost use Rattle.dt_aggstore.specs.History.{new_past};
ghost use Rattle.dt_aggstore.specs.declared.limits.TheConstants.{AGGSIZE_MAX};
ghost use Rattle.dt_life.specs.Uses.{AreGiven, GivenAtMost};

use dt_aggstore::AggStore;
use std::alloc::{AllocError, Global};

/// Stores of so many processors, each of this size, to which nothing was given.
pub fn empty_stores(alloc: Global, size: usize, cpus: u32) -> Result<Vec<AggStore>, AllocError>
    requires { size ≤ AGGSIZE_MAX }
    ensures len { IfOk result (λ stores. length stores.items ≡ cpus) }
    ensures fresh { IfOk result (λ stores. AreGiven (λ cpu. new_past size) stores.items) }
    ensures gives { IfOk result (λ stores. All (GivenAtMost 0) stores.items) }
{
    let mut stores = Vec::with_capacity(alloc, cpus as usize)?;
    for _cpu in 0..cpus {
        stores.push(AggStore::new(alloc, size)?)?;
    }
    Ok(stores)
}
