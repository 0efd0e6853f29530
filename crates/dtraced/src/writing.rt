//! What a replay and a check write on given streams.
ghost use Rattle.std.specs.Prelude.{◌≡◌, ◌++◌, Err, IfErr, IfOk, codes};
ghost use Rattle.std.specs.Io.KnownBytes.{Appends, Keeps};
ghost use Rattle.dt_alone.specs.VerdictText.{verdict_text};
ghost use Rattle.dt_alone.specs.Verdicts.{IsTrail, IsVerdictOn};
ghost use Rattle.dt_world.specs.Replaying.{IsReplayed};
ghost use Rattle.dtraced.specs.Status.{IsOfCheck};
ghost use Rattle.dtraced.specs.Writing.{IsWritten};

use crate::fault::Fault;
use dt_alone::{CheckFault, Verdict, check};
use dt_chain::Seat;
use dt_machine::Machine;
use dt_world::{ReplayFault, replay, replay_trail, write_whole};
use std::alloc::Global;
use std::io::{Read, Write};

/// Replays an input on a machine file, and writes the trail of the seat that is wanted, or else the replies.
pub fn write_replay<R: Read, W: Write>(
    alloc: Global,
    machine: &[u8],
    trail: Option<Seat>,
    reader: &mut R,
    writer: &mut W,
) -> Result<(), ReplayFault>
    ensures { IsReplayed R.remaining W.contents (IsWritten trail) machine.now reader.old reader.new writer.old writer.new
        result }
{
    match trail {
        Some(seat) => replay_trail(alloc, machine, seat, reader, writer),
        None => replay(alloc, machine, reader, writer),
    }
}

/// Judges the text of a trail on a machine, and writes the line of what is found, which it gives back too.
///
/// [`Fault::Check`]: the text is no trail of a session on the machine, or memory ran out before it was judged; nothing is
/// written. [`Fault::Device`]: the line couldn't be written, or memory for it ran out; a beginning may have been written.
pub fn write_check<W: Write>(
    alloc: Global,
    machine: &Machine,
    trail: &[u8],
    writer: &mut W,
) -> Result<Verdict, Fault>
    ensures ok { IfOk result (λ verdict. IsVerdictOn machine.now trail.now verdict
        × Appends (W.contents writer.old) (W.contents writer.new) (verdict_text verdict ++ codes "\n")) }
    ensures refused { result ≡ Err (Fault.Check CheckFault.Text) → IsTrail machine.now.registry trail.now → ⊥ }
    ensures faults { IfErr result IsOfCheck }
    ensures nothing_written { (fault : CheckFault) → result ≡ Err (Fault.Check fault)
        → Keeps (W.contents writer.old) (W.contents writer.new) }
{
    let verdict = match check(alloc, machine, trail) {
        Ok(verdict) => verdict,
        // a text that isn't judged has no line
        Err(fault) => return Err(Fault::Check(fault)),
    };
    let Ok(line) = format!(in alloc; "{verdict}\n") else {
        return Err(Fault::Device);
    };
    match write_whole(writer, line.as_bytes()) {
        Ok(()) => Ok(verdict),
        Err(_) => Err(Fault::Device),
    }
}
