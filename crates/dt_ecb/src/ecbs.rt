//! The ECBs that a program's clauses make.
ghost use Rattle.std.specs.Prelude.{◌≡◌, ℕ, ◌+◌, ◌<◌, ◌≤◌, ◌^◌, ◌++◌, false, length, map, OnOk, IfOk, IfErr, IfSome, vec_len};
ghost use Rattle.std.specs.List.{list_any};
ghost use Rattle.dt_machine.specs.declared.limits.TheConstants.{PROBE_ID_MAX};
ghost use Rattle.dt_program.specs.Program.{form_of_clause, form_of_program};
ghost use Rattle.dt_ecb.specs.Enable.{IsFirstSuch, EnableVerdict, is_unmatched};
ghost use Rattle.dt_ecb.specs.Forms.{verdict_of};
ghost use Rattle.dt_ecb.specs.Places.{keys_at, keys_from, kept_from, kept_in};

use crate::description_matcher::DescriptionMatcher;
use crate::fault::EnableFault;
use crate::limits::ECBS_MAX;
use crate::matches::is_matched;
use crate::parts::Ecb;
use dt_cred::Account;
use dt_machine::Machine;
use dt_program::{Clause, Program};
use std::alloc::{AllocError, Global};

/// The ECBs of a program, numbered from an EPID on: of its clauses in order, each matched with each probe once. A clause that
/// takes effect on no probe refuses the whole program, and the first is told.
pub(crate) fn ecbs_of(
    alloc: Global,
    account: &Account,
    machine: &Machine,
    program: &Program,
    next_epid: u32,
) -> Result<Vec<Ecb>, EnableFault>
    requires { next_epid ≤ ECBS_MAX + 1 }
    ensures value { IfOk result (λ ecbs. map kept_in ecbs.items
        ≡ kept_from next_epid (keys_from account.now machine.now.registry 0 (form_of_program program.now))) }
    ensures few { IfOk result (λ ecbs. vec_len ecbs < 2 ^ 31) }
    ensures matched { IfOk result (λ _.
        list_any (is_unmatched account.now machine.now.registry) (form_of_program program.now) ≡ false) }
    ensures unmatched { IfErr result (λ fault. IfSome (verdict_of fault) (λ verdict. (clause : ℕ)
        × (verdict ≡ EnableVerdict.unmatched clause)
        × IsFirstSuch (is_unmatched account.now machine.now.registry) (form_of_program program.now) clause)) }
{
    let mut ecbs = Vec::new(alloc);
    for (place, clause) in program.clauses.iter().enumerate() {
        let before = ecbs.len();
        push_matched(alloc, &mut ecbs, account, machine, clause, place, next_epid)?;
        if ecbs.len() == before {
            return Err(EnableFault::NoMatch {
                clause: place as u32 + 1,
            });
        }
    }
    Ok(ecbs)
}

/// Adds an ECB for each probe that a clause at this place takes effect on, by rising identifier.
fn push_matched(
    alloc: Global,
    ecbs: &mut Vec<Ecb>,
    account: &Account,
    machine: &Machine,
    clause: &Clause,
    place: usize,
    first_epid: u32,
) -> Result<(), AllocError>
    requires { first_epid + vec_len ecbs.old + PROBE_ID_MAX < 2 ^ 32 }
    ensures value { OnOk result (map kept_in ecbs.new.items
        ≡ map kept_in ecbs.old.items ++ kept_from (first_epid + length ecbs.old.items)
        (keys_at account.now machine.now.registry place (form_of_clause clause.now))) }
    ensures few { OnOk result (vec_len ecbs.new ≤ vec_len ecbs.old + PROBE_ID_MAX) }
{
    let descriptions = DescriptionMatcher::of_each(alloc, &clause.descriptions)?;
    for probe in machine.probes() {
        if is_matched(account, machine, &descriptions, probe) {
            let epid = first_epid + ecbs.len() as u32;
            ecbs.push(Ecb {
                epid,
                probe: probe.id,
                clause: place,
            })?;
        }
    }
    Ok(())
}
