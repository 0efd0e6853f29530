//! A replay: a machine file and step lines, from bytes to bytes.
ghost use Rattle.std.specs.Prelude.{◌≡◌, ℕ, IfOk, IfErr, IfSome, IfNone, OnOk, take};
ghost use Rattle.std.specs.Io.KnownBytes.{Appends};
ghost use Rattle.dt_proto.specs.Splits.{HasNoNewline, IsCut};
ghost use Rattle.dt_world.specs.Faults.{IsFaultOfReading, IsFaultOfLines};
ghost use Rattle.dt_world.specs.Replay.{IsReplay, IsTrailReplay};
ghost use Rattle.dt_world.specs.Replaying.{IsReplayed};
ghost use Rattle.dt_world.specs.Told.{IsOutput};

use crate::limits::READS_MAX;
use crate::output::Wanted;
use crate::progress::Progress;
use crate::writing::write_whole;
use dt_chain::Seat;
use dt_machine::{Machine, MachineFault};
use std::alloc::{AllocError, Global};
use std::io::{ErrorKind, Read, Write};
use thiserror::Error;

/// How many bytes are asked of an input at once.
const CHUNK: usize = 8192;

/// Why a replay wrote nothing, or not all. They are tested in this order; memory can run out at any point after
/// the first and before the last.
#[derive(Clone, Copy, Debug, PartialEq, Eq, Error)]
pub enum ReplayFault {
    /// The machine file is refused.
    #[error("{0}")]
    Machine(MachineFault),
    /// A read failed, or the input hadn't ended after 2^28 reads.
    #[error("fault")]
    Read,
    /// This line of the input, counted from 1, is no step line, or none on this machine.
    #[error("line {0}: refused")]
    Line(usize),
    /// A write failed. A beginning of the output may have been written.
    #[error("fault")]
    Write,
    /// Memory ran out.
    #[error("fault")]
    Memory,
}

/// Replays an input on a machine: reads both whole, takes the step lines in order, and writes the
/// replies, each after its seat.
pub fn replay<R: Read, W: Write>(
    alloc: Global,
    machine: &[u8],
    reader: &mut R,
    writer: &mut W,
) -> Result<(), ReplayFault>
    ensures { IsReplayed R.remaining W.contents IsReplay machine.now reader.old reader.new writer.old writer.new result }
{
    replay_as(alloc, Wanted::Replies, machine, reader, writer)
}

/// Replays an input on a machine as [`replay`] does, and writes the trail of the first session on a seat: the account's
/// name, and then each line within the quota with its reply, and each firing that the session saw. A line stands at its
/// reply. It writes nothing where the seat never had a session.
pub fn replay_trail<R: Read, W: Write>(
    alloc: Global,
    machine: &[u8],
    seat: Seat,
    reader: &mut R,
    writer: &mut W,
) -> Result<(), ReplayFault>
    ensures { IsReplayed R.remaining W.contents (λ contents input. IsTrailReplay contents input seat) machine.now reader.old reader.new writer.old writer.new result }
{
    replay_as(alloc, Wanted::Trail(seat), machine, reader, writer)
}

/// Replays an input on a machine: reads both whole, takes the step lines in order, and writes what is wanted.
fn replay_as<R: Read, W: Write>(
    alloc: Global,
    wanted: Wanted,
    machine: &[u8],
    reader: &mut R,
    writer: &mut W,
) -> Result<(), ReplayFault>
    ensures { IsReplayed R.remaining W.contents (IsOutput wanted) machine.now reader.old reader.new writer.old writer.new result }
{
    // the machine file goes first: where it is refused, nothing is read of the input
    let machine = match Machine::read(alloc, machine) {
        Ok(machine) => machine,
        Err(fault) => return Err(ReplayFault::Machine(fault)),
    };
    let input = read_input(alloc, reader)?;
    let output = output_of(alloc, wanted, &machine, &input)?;
    write_output(writer, &output)
}

/// All bytes of a reader.
fn read_input<R: Read>(alloc: Global, reader: &mut R) -> Result<Vec<u8>, ReplayFault>
    ensures ok { IfOk result (λ input. IfSome (R.remaining reader.old) (λ bytes. input.items ≡ bytes)) }
    ensures err { IfErr result IsFaultOfReading }
{
    let mut input = Vec::new(alloc);
    let mut chunk = [0; CHUNK];
    for _read in 0..READS_MAX {
        match reader.read(&mut chunk) {
            // a read of no bytes is the end of the input
            Ok(0) => return Ok(input),
            Ok(count) => match input.extend_from_slice(&chunk[..count]) {
                Ok(()) => {}
                // a replay gives the whole answer or none, so a lack of memory ends it
                Err(_) => return Err(ReplayFault::Memory),
            },
            Err(fault) if fault.kind() == ErrorKind::Interrupted => {}
            // only an interrupted read is tried again: an input is replayed whole or not at all
            Err(_) => return Err(ReplayFault::Read),
        }
    }
    Err(ReplayFault::Read)
}

/// What is written for an input.
fn output_of(
    alloc: Global,
    wanted: Wanted,
    machine: &Machine,
    input: &[u8],
) -> Result<Vec<u8>, ReplayFault>
    ensures ok { IfOk result (λ output. IsOutput wanted machine.now input.now output.items) }
    ensures err { IfErr result (IsFaultOfLines machine.now input.now) }
{
    // a lack of memory ends the replay, here and at each line: it gives the whole answer or none
    let mut progress = match Progress::new(alloc, wanted, machine) {
        Ok(progress) => progress,
        Err(AllocError) => return Err(ReplayFault::Memory),
    };
    let mut rest = input;
    let mut number = 0;
    while let Some((line, more)) = next_line(rest) {
        rest = more;
        number += 1;
        match progress.take_line(alloc, machine, line) {
            Ok(true) => {}
            // the first line that is refused is named, and the replies so far are never written
            Ok(false) => return Err(ReplayFault::Line(number)),
            Err(AllocError) => return Err(ReplayFault::Memory),
        }
    }
    Ok(progress.output.text)
}

/// The text before the first newline, and what stands after it.
fn next_line(text: &[u8]) -> Option<(&[u8], &[u8])>
    ensures found { IfSome result (λ parts. IsCut text.now parts.0.now parts.1.now) }
    ensures none { IfNone result (HasNoNewline text.now) }
{
    let at = text.iter().position(|byte| *byte == b'\n')?;
    Some((&text[..at], &text[at + 1..]))
}

/// Writes what is wanted.
fn write_output<W: Write>(writer: &mut W, output: &[u8]) -> Result<(), ReplayFault>
    ensures ok { OnOk result (Appends (W.contents writer.old) (W.contents writer.new) output.now) }
    ensures err { IfErr result (λ fault. (count : ℕ) × (fault ≡ ReplayFault.Write)
        × Appends (W.contents writer.old) (W.contents writer.new) (take count output.now)) }
{
    match write_whole(writer, output) {
        Ok(()) => Ok(()),
        Err(_) => Err(ReplayFault::Write),
    }
}
