//! The bytes that a runner answers.
ghost use Rattle.std.specs.Prelude.{List, IfOk};
ghost use Rattle.dt_cred.specs.declared.account.Account.{Account};
ghost use Rattle.dt_life.specs.Life.{Item};
ghost use Rattle.dt_proto.specs.Line.{ask_in};
ghost use Rattle.dt_proto.specs.Asked.{form_lent};
ghost use Rattle.dt_alone.specs.Answered.{AnswersAsk};
ghost use Rattle.dt_alone.specs.Runs.{Runs};

use crate::runner::Runner;
use dt_machine::Machine;
use dt_proto::{WholeLine, read_line, reply_bytes};
use std::alloc::{AllocError, Global};

/// The bytes that are answered to a line, which the runner has then run. `Err`: there was no memory for it.
pub(crate) fn answer(
    alloc: Global,
    machine: &Machine,
    runner: &mut Runner,
    line: WholeLine<'_>,
) -> Result<Vec<u8>, AllocError>
    ensures { IfOk result (λ bytes. (account : Account) (life : List Item)
        → Runs account machine.now.registry runner.old life
        → AnswersAsk account machine.now.registry life (ask_in (form_lent line.entry)) runner.new bytes.items) }
{
    let asked = read_line(alloc, line)?;
    let reply = runner.ask(alloc, machine, &asked)?;
    reply_bytes(alloc, &reply)
}
