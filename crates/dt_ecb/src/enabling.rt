//! Whether a program is enabled, and the ECBs that it adds.
ghost use Rattle.std.specs.Prelude.{◌≡◌, ◌+◌, ◌++◌, ◌-◌, ◌<◌, ◌≤◌, ◌^◌, ◌||◌, length, map, nat_lt, All, IfOk, IfErr, IfSome, vec_len};
ghost use Rattle.dt_program.specs.Program.{form_of_program};
ghost use Rattle.dt_ecb.specs.Ecbs.{added};
ghost use Rattle.dt_ecb.specs.Enable.{IsVerdict, enabled};
ghost use Rattle.dt_ecb.specs.Forms.{form_of_ecb, shapes_of, verdict_of};
ghost use Rattle.dt_ecb.specs.Shapes as spec;

use crate::clashes::{first_clash, names_count};
use crate::ecbs::ecbs_of;
use crate::fault::{EnableFault, RestrictedAction};
use crate::faults::first_unallowed;
use crate::limits::{AGGREGATIONS_MAX, ECBS_MAX};
use crate::parts::Ecb;
use crate::shapes::Shapes;
use dt_cred::Account;
use dt_machine::Machine;
use dt_program::Program;
use std::alloc::Global;

/// The ECBs that a program adds to a consumer whose accepted programs use these aggregations and whose next EPID is
/// this, or the first fault of the program.
pub fn enable(
    alloc: Global,
    account: &Account,
    machine: &Machine,
    program: &Program,
    shapes: &Shapes,
    next_epid: u32,
) -> Result<Vec<Ecb>, EnableFault>
    requires from_one { 1 ≤ next_epid }
    requires within { next_epid ≤ ECBS_MAX + 1 }
    // of an accepted program: its ECBs, each with the clause of the program that it names
    ensures enabled { IfOk result (λ ecbs.
        IsVerdict account.now machine.now.registry (shapes_of shapes.now) next_epid (form_of_program program.now)
        enabled
        × (map (form_of_ecb (form_of_program program.now)) ecbs.items
        ≡ added account.now machine.now.registry next_epid (form_of_program program.now))) }
    ensures placed { IfOk result (λ ecbs. All (λ ecb. ecb.clause < length program.now.clauses.items) ecbs.items) }
    // each clause has one at least, and with those before they are no more than a consumer may have
    ensures each { IfOk result (λ ecbs. length program.now.clauses.items ≤ vec_len ecbs) }
    ensures room { IfOk result (λ ecbs. next_epid - 1 + vec_len ecbs ≤ ECBS_MAX) }
    // of a refused one: its first fault
    ensures refused { IfErr result (λ fault. IfSome (verdict_of fault)
        (IsVerdict account.now machine.now.registry (shapes_of shapes.now) next_epid (form_of_program program.now))) }
{
    // a program is refused for the first of these that holds, in this order
    if let Some(clause) = first_unallowed(account, program) {
        let what = RestrictedAction::Stack;
        return Err(EnableFault::Privilege { clause, what });
    }
    let own = Shapes::of(alloc, program)?;
    // a consumer's aggregation has one function, one set of bounds and one row of key kinds in all programs
    if let Some(what) = first_clash(shapes, &own) {
        return Err(EnableFault::AggClash { what });
    }
    // each clause is matched with each probe once: its ECBs tell whether it takes effect on any
    let ecbs = ecbs_of(alloc, account, machine, program, next_epid)?;
    // the limits are the consumer's: what its earlier programs added counts too
    if is_too_much(shapes, &own, next_epid, ecbs.len()) {
        return Err(EnableFault::Limit);
    }
    Ok(ecbs)
}

/// Whether so many further ECBs, or the names of the accepted uses and the program's own, are more than one consumer may have.
fn is_too_much(accepted: &Shapes, own: &Shapes, next_epid: u32, ecbs: usize) -> bool
    requires from_one { 1 ≤ next_epid }
    requires few { ecbs < 2 ^ 31 }
    ensures { result ≡ (nat_lt ECBS_MAX (next_epid - 1 + ecbs)
        || nat_lt AGGREGATIONS_MAX (spec.names_count (shapes_of accepted.now ++ shapes_of own.now))) }
{
    next_epid as usize - 1 + ecbs > ECBS_MAX || names_count(accepted, own) > AGGREGATIONS_MAX
}
