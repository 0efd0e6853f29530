//! What is listed of variables and speculations.
ghost use Rattle.std.specs.Prelude.{◌≡◌, ◌<◌, ◌==◌, ℕ, IfOk, map, if◌then◌else◌};
ghost use Rattle.dt_alone.specs.Happened.{dropped_of, left_count, only_attempts, only_drops, told_both, told_on};
ghost use Rattle.dt_life.specs.Takings.{puts_in};
ghost use Rattle.dt_life.specs.Takings.{freed_by, part_out, parts_out};
ghost use Rattle.dt_record.specs.Forms.{form_of_end, form_of_taken};
ghost use Rattle.dt_record.specs.Taking.{committed};
ghost use Rattle.dt_speculation.specs.History.{SpecPast, free, spec_after, specs_then};
ghost use Rattle.dt_speculation.specs.IsAt.{SpecsAt, cpus_of, fails_of};

use crate::happened::Happened;
use dt_record::{SpecEnd, Taken};
use dt_speculation::{SpecPut, Specs, drops_told, one_part};
use std::alloc::{AllocError, Global};

/// Lists so many assignments that found no room on a processor.
pub(crate) fn list_variables(
    happened: &mut Vec<Happened>,
    cpu: u32,
    count: u64,
) -> Result<(), AllocError>
    ensures told { IfOk result (λ _. (on : ℕ) → told_on on happened.new.items
        ≡ told_both (told_on on happened.old.items) (only_drops (if cpu == on then count else 0) 0 0)) }
    ensures left { left_count happened.new.items ≡ left_count happened.old.items }
{
    for _drop in 0..count {
        happened.push(Happened::VariableDropped { cpu })?;
    }
    Ok(())
}

/// Lists so many draws that failed.
pub(crate) fn list_draws(happened: &mut Vec<Happened>, count: u64) -> Result<(), AllocError>
    ensures told { IfOk result (λ _. (on : ℕ) → told_on on happened.new.items
        ≡ told_both (told_on on happened.old.items) (only_drops 0 0 count)) }
    ensures left { left_count happened.new.items ≡ left_count happened.old.items }
{
    for _draw in 0..count {
        happened.push(Happened::DrawFailed)?;
    }
    Ok(())
}

/// Puts the record that a clause left under the identifier that it is directed to, if it is.
pub(crate) fn put_directed(
    happened: &mut Vec<Happened>,
    specs: &mut Specs,
    cpu: u32,
    taken: &Taken,
) -> Result<(), AllocError>
    requires { cpu < cpus_of specs.old }
    ensures told { IfOk result (λ _. (past : SpecPast) → SpecsAt past specs.old → (on : ℕ) → told_on on happened.new.items
        ≡ told_both (told_on on happened.old.items)
        (only_drops 0 (dropped_of on past (puts_in cpu (form_of_taken taken.now))) 0)) }
    ensures stands { (past : SpecPast) → SpecsAt past specs.old
        → SpecsAt (specs_then past (puts_in cpu (form_of_taken taken.now))) specs.new }
    ensures left { left_count happened.new.items ≡ left_count happened.old.items }
    ensures fails { fails_of specs.new ≡ fails_of specs.old }
    ensures cpus { cpus_of specs.new ≡ cpus_of specs.old }
{
    drops_told();
    let Some(bytes) = &taken.bytes else {
        return Ok(());
    };
    let Some(id) = taken.spec else {
        return Ok(());
    };
    if let SpecPut::Dropped = specs.put(id, cpu as usize, bytes) {
        happened.push(Happened::RecordDropped { cpu })?;
    }
    Ok(())
}

/// Ends speculations, in order.
pub(crate) fn end_all(
    alloc: Global,
    happened: &mut Vec<Happened>,
    specs: &mut Specs,
    cpus: u32,
    ends: &[SpecEnd],
    in_end: bool,
) -> Result<(), AllocError>
    ensures told { IfOk result (λ _. (past : SpecPast) → SpecsAt past specs.old → (on : ℕ) → on < cpus
        → told_on on happened.new.items ≡ told_both (told_on on happened.old.items)
        (only_attempts in_end (parts_out on past (map form_of_end ends.now)))) }
    ensures stands { IfOk result (λ _. (past : SpecPast) → SpecsAt past specs.old
        → SpecsAt (specs_then past (freed_by (map form_of_end ends.now))) specs.new) }
    ensures left { left_count happened.new.items ≡ left_count happened.old.items }
    ensures fails { fails_of specs.new ≡ fails_of specs.old }
    ensures cpus { cpus_of specs.new ≡ cpus_of specs.old }
{
    for end in ends {
        match *end {
            SpecEnd::Commit(id) => commit(alloc, happened, specs, cpus, id, in_end)?,
            SpecEnd::Discard(id) => specs.free(id),
        }
    }
    Ok(())
}

/// Commits a speculation: the part of each processor that has bytes is listed, and then the identifier is free.
fn commit(
    alloc: Global,
    happened: &mut Vec<Happened>,
    specs: &mut Specs,
    cpus: u32,
    id: u64,
    in_end: bool,
) -> Result<(), AllocError>
    ensures told { IfOk result (λ _. (past : SpecPast) → SpecsAt past specs.old → (on : ℕ) → on < cpus
        → told_on on happened.new.items ≡ told_both (told_on on happened.old.items)
        (only_attempts in_end (part_out on past (committed id)))) }
    ensures stands { IfOk result (λ _. (past : SpecPast) → SpecsAt past specs.old → SpecsAt (spec_after past (free id)) specs.new) }
    ensures left { left_count happened.new.items ≡ left_count happened.old.items }
    ensures fails { fails_of specs.new ≡ fails_of specs.old }
    ensures cpus { cpus_of specs.new ≡ cpus_of specs.old }
{
    one_part();
    for cpu in 0..cpus {
        let part = specs.part(id, cpu as usize);
        if !part.is_empty() {
            let part = Vec::from_slice(alloc, part)?;
            happened.push(Happened::Committed { cpu, in_end, part })?;
        }
    }
    specs.free(id);
    Ok(())
}
