//! Lines of replies that are written without a JSON value: to build one costs several times what the line itself does.
ghost use Rattle.std.specs.Prelude.{◌≡◌, ◌++◌, if◌then◌else◌, IfOk, OnOk, codes, decimal, map};
ghost use Rattle.std.specs.Fmt.{signed_decimal};
ghost use Rattle.serde_json.specs.Written.{compact_text};
ghost use Rattle.dt_aggstore.specs.EntryNames.{form_of_row};
ghost use Rattle.dt_life.specs.Answer.{aggregated, enabled, listed, snapped, status};
ghost use Rattle.dt_proto.specs.Reply.{cause_data, exit_data, numbers_text, reply_text};

use crate::probes::push_probes;
use crate::rows::{push_rows, word_of};
use crate::text::{push_string, text_of};
use dt_aggfn::AggFn;
use dt_aggstore::Row;
use dt_cred::Probe;
use dt_life::{End, Phase};
use itoa::Buffer;
use std::alloc::{AllocError, Global};

/// Room for a line of few numbers, which then doesn't move while it is written. A longer one finds its room as it grows.
const ROOM: usize = 256;

/// The line of an enabled program, with its newline.
pub(crate) fn enabled_line(alloc: Global, count: u32, first: u32) -> Result<Vec<u8>, AllocError>
    ensures { IfOk result (λ line. line.items ≡ reply_text (enabled count first)) }
{
    let mut line = begun(alloc, ROOM, b"{\"count\":")?;
    push_number(&mut line, u64::from(count))?;
    line.extend_from_slice(b",\"first\":")?;
    push_number(&mut line, u64::from(first))?;
    line.extend_from_slice(b",\"ok\":true}\n")?;
    Ok(line)
}

/// The line of a snapshot, with its newline: its records are two digits for each byte.
pub(crate) fn snapped_line(
    alloc: Global,
    cpu: u32,
    records: &[u8],
    drops: u64,
    filled: bool,
) -> Result<Vec<u8>, AllocError>
    ensures { IfOk result (λ line. line.items ≡ reply_text (snapped cpu records.now drops filled)) }
{
    let digits = hex::encode(alloc, records)?;
    let mut line = begun(alloc, digits.len().saturating_add(ROOM), b"{\"cpu\":")?;
    push_number(&mut line, u64::from(cpu))?;
    line.extend_from_slice(b",\"data\":\"")?;
    line.extend_from_slice(digits.as_bytes())?;
    line.extend_from_slice(b"\",\"drops\":")?;
    push_number(&mut line, drops)?;
    line.extend_from_slice(b",\"filled\":")?;
    line.extend_from_slice(flag_text(filled))?;
    line.extend_from_slice(b",\"ok\":true}\n")?;
    Ok(line)
}

/// The line of a status, with its newline.
pub(crate) fn status_line(
    alloc: Global,
    phase: Phase,
    seen: u64,
    errors: &[u64],
    aggdrops: &[u64],
    dyndrops: &[u64],
    specdrops: &[u64],
    specfails: u64,
) -> Result<Vec<u8>, AllocError>
    ensures { IfOk result (λ line. line.items
        ≡ reply_text (status phase seen errors.now aggdrops.now dyndrops.now specdrops.now specfails)) }
{
    let mut line = begun(alloc, ROOM, b"{\"aggdrops\":[")?;
    push_numbers(&mut line, aggdrops)?;
    line.extend_from_slice(b"],\"cause\":")?;
    line.extend_from_slice(cause_text(phase))?;
    line.extend_from_slice(b",\"dyndrops\":[")?;
    push_numbers(&mut line, dyndrops)?;
    line.extend_from_slice(b"],\"errors\":[")?;
    push_numbers(&mut line, errors)?;
    line.extend_from_slice(b"],\"exit\":")?;
    push_exit(&mut line, phase)?;
    line.extend_from_slice(b",\"ok\":true,\"phase\":\"")?;
    line.extend_from_slice(phase.word().as_bytes())?;
    line.extend_from_slice(b"\",\"seen\":")?;
    push_number(&mut line, seen)?;
    line.extend_from_slice(b",\"specdrops\":[")?;
    push_numbers(&mut line, specdrops)?;
    line.extend_from_slice(b"],\"specfails\":")?;
    push_number(&mut line, specfails)?;
    line.extend_from_slice(b"}\n")?;
    Ok(line)
}

/// The line of listed probes, with its newline.
pub(crate) fn listed_line(alloc: Global, probes: &[Probe]) -> Result<Vec<u8>, AllocError>
    ensures { IfOk result (λ line. line.items ≡ reply_text (listed probes.now)) }
{
    let mut line = begun(alloc, ROOM, b"{\"ok\":true,\"probes\":[")?;
    push_probes(alloc, &mut line, probes)?;
    line.extend_from_slice(b"]}\n")?;
    Ok(line)
}

/// The line of an aggregation's table, with its newline.
pub(crate) fn table_line(
    alloc: Global,
    name: &[u8],
    function: AggFn,
    rows: &[Row],
) -> Result<Vec<u8>, AllocError>
    ensures { IfOk result (λ line. line.items ≡ reply_text (aggregated name.now function (map form_of_row rows.now))) }
{
    let title = text_of(alloc, name)?;
    let mut line = begun(alloc, ROOM, b"{\"fn\":\"")?;
    line.extend_from_slice(word_of(function).as_bytes())?;
    line.extend_from_slice(b"\",\"name\":")?;
    push_string(alloc, &mut line, title)?;
    line.extend_from_slice(b",\"ok\":true,\"rows\":[")?;
    push_rows(alloc, &mut line, rows)?;
    line.extend_from_slice(b"]}\n")?;
    Ok(line)
}

/// A line that begins with this text, with room for so many bytes.
fn begun(alloc: Global, room: usize, text: &[u8]) -> Result<Vec<u8>, AllocError>
    ensures { IfOk result (λ line. line.items ≡ text.now) }
{
    let mut line = Vec::with_capacity(alloc, room)?;
    line.extend_from_slice(text)?;
    Ok(line)
}

/// A flag as JSON has it.
fn flag_text(flag: bool) -> &'static [u8]
    ensures { result.now ≡ (if flag then codes "true" else codes "false") }
{
    if flag { b"true" } else { b"false" }
}

/// Why tracing ended; null where it didn't, or where the session was closed first.
fn cause_text(phase: Phase) -> &'static [u8]
    ensures { result.now ≡ compact_text (cause_data phase) }
{
    match phase {
        Phase::Stopped(Some(End::Stop)) => b"\"stop\"",
        Phase::Stopped(Some(End::Exit(_))) => b"\"exit\"",
        Phase::Stopped(Some(End::History)) => b"\"history\"",
        Phase::Stopped(None) | Phase::Inactive | Phase::Active => b"null",
    }
}

/// Adds the status with which a clause exited; null where tracing didn't end by it.
fn push_exit(line: &mut Vec<u8>, phase: Phase) -> Result<(), AllocError>
    ensures { OnOk result (line.new.items ≡ line.old.items ++ compact_text (exit_data phase)) }
{
    match phase {
        Phase::Stopped(Some(End::Exit(status))) => {
            line.extend_from_slice(Buffer::new().format(status).as_bytes())
        }
        _ => line.extend_from_slice(b"null"),
    }
}

/// Adds numbers with commas between them.
fn push_numbers(line: &mut Vec<u8>, numbers: &[u64]) -> Result<(), AllocError>
    ensures { OnOk result (line.new.items ≡ line.old.items ++ numbers_text numbers.now) }
{
    let Some((first, more)) = numbers.split_first() else {
        return Ok(());
    };
    push_number(line, *first)?;
    for number in more {
        line.push(b',')?;
        push_number(line, *number)?;
    }
    Ok(())
}

/// Adds a number's decimal digits.
pub(crate) fn push_number(line: &mut Vec<u8>, number: u64) -> Result<(), AllocError>
    ensures { OnOk result (line.new.items ≡ line.old.items ++ decimal number) }
{
    line.extend_from_slice(Buffer::new().format(number).as_bytes())
}

/// Adds a number's decimal digits, after its sign where it is below 0.
pub(crate) fn push_signed(line: &mut Vec<u8>, number: i64) -> Result<(), AllocError>
    ensures { OnOk result (line.new.items ≡ line.old.items ++ signed_decimal number) }
{
    line.extend_from_slice(Buffer::new().format(number).as_bytes())
}
