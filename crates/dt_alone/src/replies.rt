//! The replies that a consumer is given that traces alone.
ghost use Rattle.std.specs.Prelude.{◌≡◌, List, IfOk, map};
ghost use Rattle.dt_cred.specs.declared.account.Account.{Account};
ghost use Rattle.dt_life.specs.Answer.{Answer};
ghost use Rattle.dt_proto.specs.Alone.{Alone};
ghost use Rattle.dt_proto.specs.Reply.{reply_text};
ghost use Rattle.dt_alone.specs.Items.{view_of};

use crate::answering::answer;
use crate::item::Item;
use crate::runner::Runner;
use dt_cred::Account;
use dt_machine::Machine;
use std::alloc::{AllocError, Global};

/// The replies that a consumer of this account is given on a machine where nobody else traces: one to each line, each
/// with its newline, after just the items before it. `Err`: there was no memory for them.
pub fn alone(
    alloc: Global,
    account: &Account,
    machine: &Machine,
    items: &[Item],
) -> Result<Vec<Vec<u8>>, AllocError>
    ensures { IfOk result (λ replies. (answers : List Answer)
        × Alone account.now machine.now.registry (view_of items.now) answers
        × (map (λ reply. reply.items) replies.items ≡ map reply_text answers)) }
{
    let mut runner = Runner::new(alloc, *account);
    let mut replies = Vec::new(alloc);
    for item in items {
        match item {
            Item::Line(asked) => replies.push(answer(alloc, machine, &mut runner, asked.lent())?)?,
            Item::Firing(firing) => {
                runner.offer(alloc, machine, firing)?;
            }
        }
    }
    Ok(replies)
}
