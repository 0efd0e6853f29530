//! The replies that take nothing but a machine and what was enabled: to `list` and to `describe`.
ghost use Rattle.std.specs.Prelude.{◌≡◌, ◌==◌, List, Ok, Some, None, IfOk, MatchOption, find, map};
ghost use Rattle.std.specs.Option.{option_copied};
ghost use Rattle.dt_cred.specs.declared.account.Account.{Account};
ghost use Rattle.dt_program.specs.Program.{form_of_clause};
ghost use Rattle.dt_record.specs.Layout.{layout_of};
ghost use Rattle.dt_life.specs.Answer.{answer_of, described as described_as};
ghost use Rattle.dt_life.specs.Ask.{description_of, describe, list};
ghost use Rattle.dt_life.specs.Life.{Item, ecbs as ecbs_after, set_up};
ghost use Rattle.dt_life.specs.Placed.{AreEcbs};
ghost use Rattle.dt_life.specs.Reply.{RepliesInQuota, ecb_of};

use crate::refusal::Refusal;
use crate::reply::Reply;
use dt_cred::Account;
use dt_ecb::{Ecb, listed};
use dt_lang::{Description, Why, one_description};
use dt_machine::Machine;
use dt_program::Clause;
use dt_record::Layout;
use std::alloc::{AllocError, Global};

/// The reply to a `list` of this text: the probes that it describes and the account may enable, or, where it is no description,
/// its refusal.
pub fn reply_to_list(
    alloc: Global,
    account: &Account,
    machine: &Machine,
    text: &[u8],
) -> Result<Reply, AllocError>
    ensures { IfOk result (λ reply. (life : List Item)
        → RepliesInQuota account.now machine.now.registry life (Ok (list (description_of text.now)))
        (answer_of reply)) }
{
    one_description();
    // the text is one description and nothing else, so its fault is told at its first byte
    let description = match Description::parse(text) {
        Ok(description) => description,
        Err(_) => {
            return Ok(Reply::Refused(Refusal::Program {
                at: 0,
                why: Why::Probe,
            }));
        }
    };
    let probes = listed(alloc, account, machine, &description)?;
    Ok(Reply::Listed { probes })
}

/// The reply to a `describe` of the ECB of a number, where these clauses and ECBs are all that was enabled: its probe, and of
/// what its records are made; or that there is none.
pub fn reply_to_describe(machine: &Machine, clauses: &[Clause], ecbs: &[Ecb], epid: u64) -> Reply
    ensures { (account : Account) (life : List Item)
        → map form_of_clause clauses.now ≡ (set_up account machine.now.registry life).clauses
        → AreEcbs (set_up account machine.now.registry life).clauses (ecbs_after account machine.now.registry life)
        ecbs.now
        → RepliesInQuota account machine.now.registry life (Ok (describe epid)) (answer_of result) }
{
    match described(machine, clauses, ecbs, epid) {
        Some(reply) => reply,
        None => Reply::Refused(Refusal::NoEpid),
    }
}

/// What is told of the ECB of a number, if there is one.
fn described(machine: &Machine, clauses: &[Clause], ecbs: &[Ecb], epid: u64) -> Option<Reply>
    // none where there is no such ECB; else its EPID, its probe, and what its records are made of
    ensures { (account : Account) (life : List Item)
        → map form_of_clause clauses.now ≡ (set_up account machine.now.registry life).clauses
        → AreEcbs (set_up account machine.now.registry life).clauses (ecbs_after account machine.now.registry life)
        ecbs.now
        → MatchOption (ecb_of account machine.now.registry life epid) (result ≡ None)
        (λ found. (reply : Reply) × (result ≡ Some reply)
        × (answer_of reply ≡ described_as epid found.0 (layout_of found.1.clause))) }
{
    let ecb = ecb_numbered(ecbs, epid)?;
    let probe = machine.probe(ecb.probe)?;
    let clause = clauses.get(ecb.clause)?;
    Some(Reply::Described {
        epid: ecb.epid,
        probe: *probe,
        layout: Layout::of(clause),
    })
}

/// The ECB of a number, if there is one.
fn ecb_numbered(ecbs: &[Ecb], epid: u64) -> Option<&Ecb>
    ensures { option_copied result ≡ find (λ ecb. ecb.epid == epid) ecbs.now }
{
    ecbs.iter().find(|ecb| u64::from(ecb.epid) == epid)
}
