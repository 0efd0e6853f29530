//! The stores of aggregations, filled anew from what happened, and what is counted.
ghost use Rattle.std.specs.Prelude.{◌≡◌, ◌≤◌, ◌*◌, IfOk, filter, length, map};
ghost use Rattle.std.specs.List.{range_with_len};
ghost use Rattle.dt_aggstore.specs.declared.limits.TheConstants.{AGGSIZE_MAX, ADDED_LIMIT};
ghost use Rattle.dt_program.specs.declared.clause.TheConstants.{STATEMENTS_MAX};
ghost use Rattle.dt_alone.specs.Happened.{counted_on, given_to, is_draw_failed, left_count};
ghost use Rattle.dt_life.specs.Uses.{AreGiven};

use crate::happened::{Happened, StatusCount};
use dt_aggstore::AggStore;
use dt_life::empty_stores;
use std::alloc::{AllocError, Global};

/// The stores of so many processors, to each of which is given, in order, what happened there.
pub(crate) fn stores_on(
    alloc: Global,
    size: usize,
    happened: &[Happened],
    cpus: u32,
) -> Result<Vec<AggStore>, AllocError>
    requires small { size ≤ AGGSIZE_MAX }
    requires few { left_count happened.now * STATEMENTS_MAX ≤ ADDED_LIMIT }
    ensures each { IfOk result (λ stores.
        AreGiven (λ cpu. record { size = size; events = given_to cpu happened.now }) stores.items) }
    ensures len { IfOk result (λ stores. length stores.items ≡ cpus) }
{
    let mut stores = empty_stores(alloc, size, cpus)?;
    for one in happened {
        one.give(stores.as_mut_slice());
    }
    Ok(stores)
}

/// How many of them happened on each of so many processors.
pub(crate) fn counts_on(
    alloc: Global,
    what: StatusCount,
    happened: &[Happened],
    cpus: u32,
) -> Result<Vec<u64>, AllocError>
    ensures { IfOk result (λ counts. counts.items
        ≡ map (λ cpu. counted_on what cpu happened.now) (range_with_len 0 cpus)) }
{
    let mut counts = vec![in alloc; 0; cpus as usize]?;
    for one in happened {
        one.count(what, counts.as_mut_slice());
    }
    Ok(counts)
}

/// How many draws failed.
pub(crate) fn draws_failed(happened: &[Happened]) -> u64
    ensures { result ≡ length (filter is_draw_failed happened.now) }
{
    let mut count = 0;
    for one in happened {
        if one.is_draw_failed() {
            count += 1;
        }
    }
    count
}
