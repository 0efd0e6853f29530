//! The check of a trail's text.
ghost use Rattle.std.specs.Prelude.{◌≡◌, ◌≤◌, Err, IfOk, length};
ghost use Rattle.std.specs.Option.{option_copied};
ghost use Rattle.dt_proto.specs.Session.{session_account};
ghost use Rattle.dt_alone.specs.Lent.{forms_of_lent};
ghost use Rattle.dt_alone.specs.Verdicts.{IsTrail, IsTrailVerdict, IsVerdictOn, replies_in};

use crate::judge::{Judge, Ruling};
use crate::lent_item::LentItem;
use crate::trail::TrailText;
use crate::verdict::Verdict;
use dt_cred::Account;
use dt_machine::Machine;
use std::alloc::{AllocError, Global};
use thiserror::Error;

/// Why a text isn't judged.
#[derive(Clone, Copy, Debug, PartialEq, Eq, Error)]
pub enum CheckFault {
    /// The text is no trail, or the machine lacks its account, or the account has no dtrace privilege.
    #[error("trail refused")]
    Text,
    /// Memory ran out.
    #[error("fault")]
    Memory,
}

/// Reads the text of a trail, and then judges its items on the machine.
///
/// [`CheckFault::Text`]: the text is no trail of a session on the machine, whatever its first items are.
/// [`CheckFault::Memory`] may come in place of any other result.
pub fn check(alloc: Global, machine: &Machine, text: &[u8]) -> Result<Verdict, CheckFault>
    ensures verdict { IfOk result (IsVerdictOn machine.now text.now) }
    ensures refused { result ≡ Err CheckFault.Text → IsTrail machine.now.registry text.now → ⊥ }
{
    let trail = TrailText::read(alloc, text)?;
    let account = opened(machine, trail.name).ok_or(CheckFault::Text)?;
    judge(alloc, machine, account, &trail.items).map_err(|_| CheckFault::Memory)
}

/// The account of a session that is opened by this name: the machine's, where it has a dtrace privilege.
fn opened<'m>(machine: &'m Machine, name: &[u8]) -> Option<&'m Account>
    ensures { option_copied result ≡ session_account machine.now.registry name.now }
{
    machine
        .account(name)
        .filter(|account| account.privs.has_dtrace())
}

/// Judges items, the oldest first.
fn judge(
    alloc: Global,
    machine: &Machine,
    account: &Account,
    items: &[LentItem<'_>],
) -> Result<Verdict, AllocError>
    ensures { IfOk result (IsTrailVerdict account.now machine.now (forms_of_lent items.now)) }
{
    let mut judge = Judge::new(alloc, *account);
    for (index, item) in items.iter().enumerate() {
        match judge.take(alloc, machine, item)? {
            Ruling::Right => {}
            // the earliest item that isn't in order decides, and what comes after it isn't judged
            Ruling::Wrong => return Ok(Verdict::Differs(replies_in(&items[..index]) + 1)),
            Ruling::OutOfPlace => return Ok(Verdict::Illegal(index + 1)),
        }
    }
    Ok(Verdict::Agree(replies_in(items)))
}

/// How many of the items have replies.
fn replies_in(items: &[LentItem<'_>]) -> usize
    ensures count { result ≡ replies_in (forms_of_lent items.now) }
    ensures few { result ≤ length items.now }
{
    items.iter().filter(|item| item.has_reply()).count()
}
