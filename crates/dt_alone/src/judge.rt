//! The judge of a trail's items, taken one by one.
use crate::answering::answer;
use crate::lent_item::LentItem;
use crate::runner::Runner;
use dt_cred::Account;
use dt_life::one_reply;
use dt_machine::{CPUS_MAX, Machine};
use dt_proto::WholeLine;
use std::alloc::{AllocError, Global};

/// What is found of one item.
#[derive(Clone, Copy, Debug, PartialEq, Eq)]
pub(crate) enum Ruling {
    /// It may stand, and its reply, if it has one, is the one that is due.
    Right,
    /// It may stand, and its reply isn't the one that is due.
    Wrong,
    /// It may not stand here.
    OutOfPlace,
}

/// The life that the items so far tell, and how far each processor's firings have come.
#[derive(Drop)]
pub(crate) struct Judge {
    pub(crate) runner: Runner,
    /// For each processor the least place of a firing that may come next.
    pub(crate) least: [u32; CPUS_MAX as usize],
}

impl Judge {
    ghost use Rattle.std.specs.Prelude.{List, [], IfOk};
    ghost use Rattle.dt_cred.specs.declared.account.Account.{Account};
    ghost use Rattle.dt_machine.specs.Registry.{Contents};
    ghost use Rattle.dt_proto.specs.Trail as trail;
    ghost use Rattle.dt_proto.specs.Trail.{fired_at, line_asked, long_asked};
    ghost use Rattle.dt_alone.specs.Judging.{HasJudged, IsRuling};
    ghost use Rattle.dt_alone.specs.Lent.{form_of_lent};

    /// A judge that has seen no item.
    pub(crate) fn new(alloc: Global, account: Account) -> Self
        ensures { (contents : Contents) → HasJudged account contents [] result }
    {
        Judge {
            runner: Runner::new(alloc, account),
            least: [0; CPUS_MAX as usize],
        }
    }

    /// Judges the next item. After one that isn't right the judge is not to be used again, nor after an `Err`, which
    /// comes where there is no memory.
    pub(crate) fn take(
        &mut self,
        alloc: Global,
        machine: &Machine,
        item: &LentItem<'_>,
    ) -> Result<Ruling, AllocError>
        ensures { IfOk result (λ ruling. (account : Account) (past : List trail.WrittenItem)
            → HasJudged account machine.now past self.old
            → IsRuling account machine.now past (form_of_lent item.now) self.new ruling) }
    {
        match item {
            LentItem::Line { line, reply } => self.take_line(alloc, machine, line, reply),
            LentItem::Long { reply } => self.take_long(alloc, machine, reply),
            LentItem::Fired { cpu, place } => self.take_firing(alloc, machine, *cpu, *place),
        }
    }

    /// Judges a line and its reply.
    fn take_line(
        &mut self,
        alloc: Global,
        machine: &Machine,
        line: &[u8],
        reply: &[u8],
    ) -> Result<Ruling, AllocError>
        ensures { IfOk result (λ ruling. (account : Account) (past : List trail.WrittenItem)
            → HasJudged account machine.now past self.old
            → IsRuling account machine.now past (line_asked line.now reply.now) self.new ruling) }
    {
        one_reply();
        // a trail has no line over the quota: one is out of place before its reply is looked at
        if self.runner.is_over() {
            return Ok(Ruling::OutOfPlace);
        }
        let due = answer(alloc, machine, &mut self.runner, WholeLine::Bytes(line))?;
        Ok(compared(reply, &due))
    }

    /// Judges a long line and its reply.
    fn take_long(
        &mut self,
        alloc: Global,
        machine: &Machine,
        reply: &[u8],
    ) -> Result<Ruling, AllocError>
        ensures { IfOk result (λ ruling. (account : Account) (past : List trail.WrittenItem)
            → HasJudged account machine.now past self.old
            → IsRuling account machine.now past (long_asked reply.now) self.new ruling) }
    {
        one_reply();
        // a long line counts as any other, so over the quota it is out of place too
        if self.runner.is_over() {
            return Ok(Ruling::OutOfPlace);
        }
        let due = answer(alloc, machine, &mut self.runner, WholeLine::Long)?;
        Ok(compared(reply, &due))
    }

    /// Judges a firing: it is one of the processor's script, at a higher place than those before it, and is seen.
    fn take_firing(
        &mut self,
        alloc: Global,
        machine: &Machine,
        cpu: u32,
        place: u32,
    ) -> Result<Ruling, AllocError>
        ensures { IfOk result (λ ruling. (account : Account) (past : List trail.WrittenItem)
            → HasJudged account machine.now past self.old
            → IsRuling account machine.now past (fired_at cpu place) self.new ruling) }
    {
        // the scripts lack that processor or place: the text is a trail, but none of this machine's
        let Some(firing) = machine.firing(cpu, place) else {
            return Ok(Ruling::OutOfPlace);
        };
        // a script is worked through in order, so the places of a processor's firings rise
        if place < self.least[cpu as usize] {
            return Ok(Ruling::OutOfPlace);
        }
        self.least[cpu as usize] = place + 1;
        if self.runner.offer(alloc, machine, firing)? {
            Ok(Ruling::Right)
        } else {
            Ok(Ruling::OutOfPlace)
        }
    }
}

ghost use Rattle.dt_proto.specs.Splits.{with_newline};
ghost use Rattle.dt_alone.specs.Compared.{IsCompared};

/// Whether a reply, given without its newline, is the one that is due.
fn compared(reply: &[u8], due: &[u8]) -> Ruling
    ensures { IsCompared (with_newline reply.now) due.now result }
{
    match due.strip_suffix(b"\n") {
        Some(front) if front == reply => Ruling::Right,
        _ => Ruling::Wrong,
    }
}
