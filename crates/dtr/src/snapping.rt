//! What was recorded on a processor: its records as rows, or as lines of JSON.

use crate::enabling::accepted_as;
use crate::fault::Trouble;
use crate::json_lines::push_record_line;
use crate::learning::{Learnt, learn};
use crate::output::tell;
use crate::page::Widths;
use crate::requests;
use crate::session::Session;
use dt_front::{number_field, push_rows, push_rows_head, text_field};
use dt_record::{Record, split};
use serde_json::Value;
use std::alloc::Global;

/// How rows are written.
#[derive(Clone, Copy, Drop)]
pub(crate) struct RowShape {
    /// How wide rows, tables and messages are.
    pub(crate) widths: Widths,
    /// Values alone, without processors and probes.
    pub(crate) quiet: bool,
    /// Lines of JSON.
    pub(crate) json: bool,
}

/// Adds the rows of what was recorded on a processor, and tells what was dropped there.
pub(crate) fn snap<R: Print + Eprint + AllocGlobal>(
    rt: &R,
    session: &mut Session<'_>,
    known: &mut Learnt,
    cpu: u64,
    shape: RowShape,
    out: &mut Vec<u8>,
) -> Result<(), Trouble> {
    let alloc = rt.alloc();
    if session.is_short() {
        return tell_unread(rt, cpu);
    }
    let reply = session.ask_made(alloc, requests::with_number(alloc, "snap", "cpu", cpu))?;
    let told = format!(in alloc; "the buffer of CPU {cpu} can't be read");
    accepted_as(rt, &reply, told)?;
    let bytes = bytes_in(alloc, &reply)?;
    push_fresh(rt, session, known, cpu, shape, &bytes, out)?;
    tell_losses(rt, known, cpu, &reply)
}

/// The bytes of the buffer that a reply gives.
fn bytes_in(alloc: Global, reply: &Value) -> Result<Vec<u8>, Trouble> {
    let Some(digits) = text_field(reply, "data") else {
        return Err(Trouble::Strange);
    };
    match hex::decode(alloc, digits.as_bytes()) {
        Ok(bytes) => Ok(bytes),
        Err(_) => Err(Trouble::Strange),
    }
}

/// Adds the rows of those of a buffer's bytes that aren't written yet, or tells that these aren't shown.
fn push_fresh<R: Print + Eprint + AllocGlobal>(
    rt: &R,
    session: &mut Session<'_>,
    known: &mut Learnt,
    cpu: u64,
    shape: RowShape,
    bytes: &[u8],
    out: &mut Vec<u8>,
) -> Result<(), Trouble> {
    let fresh = fresh_in(known, cpu, bytes)?;
    if learn(rt, session, known, fresh)? {
        push_records(rt.alloc(), known, cpu, shape, fresh, out)
    } else {
        tell_unread(rt, cpu)
    }
}

/// Tells that the records of a processor aren't shown, since the lines that are left are kept for the end.
fn tell_unread<R: Eprint + AllocGlobal>(rt: &R, cpu: u64) -> Result<(), Trouble> {
    let told = format!(in rt.alloc();
        "dtr: the session's 1,024 lines are nearly spent: records of CPU {cpu} aren't shown\n"
    )?;
    tell(rt, told.as_bytes());
    Ok(())
}

/// Those of a buffer's bytes that aren't written yet: under fill a buffer is read again from its beginning.
fn fresh_in<'b>(known: &mut Learnt, cpu: u64, bytes: &'b [u8]) -> Result<&'b [u8], Trouble> {
    if known.told_once {
        return Ok(bytes);
    }
    let written = known.written.get(cpu as usize).copied().unwrap_or(0) as usize;
    if written > bytes.len() {
        return Err(Trouble::Strange);
    }
    keep(&mut known.written, cpu, bytes.len() as u64)?;
    Ok(&bytes[written..])
}

/// Adds a row for each record that the bytes hold.
fn push_records(
    alloc: Global,
    known: &mut Learnt,
    cpu: u64,
    shape: RowShape,
    bytes: &[u8],
    out: &mut Vec<u8>,
) -> Result<(), Trouble> {
    let Some(records) = split(alloc, &known.enablings.layouts, bytes)? else {
        return Err(Trouble::Strange);
    };
    if shape.json {
        push_lines(alloc, known, cpu, &records, out)
    } else {
        push_table_rows(alloc, known, cpu, shape, &records, out)
    }
}

/// Adds a line of JSON for each record.
fn push_lines(
    alloc: Global,
    known: &Learnt,
    cpu: u64,
    records: &[Record],
    out: &mut Vec<u8>,
) -> Result<(), Trouble> {
    for record in records {
        let place = (record.epid as usize).saturating_sub(1);
        push_record_line(alloc, out, cpu, known.enablings.probe_at(place), record)?;
    }
    Ok(())
}

/// Adds a row for each record, and the head, where none was written yet.
fn push_table_rows(
    alloc: Global,
    known: &mut Learnt,
    cpu: u64,
    shape: RowShape,
    records: &[Record],
    out: &mut Vec<u8>,
) -> Result<(), Trouble> {
    if !shape.quiet && !known.headed && !records.is_empty() {
        push_rows_head(out, shape.widths.page)?;
        known.headed = true;
    }
    push_rows(
        alloc,
        out,
        shape.widths.page,
        shape.quiet,
        cpu,
        &known.enablings.probes,
        records,
    )?;
    Ok(())
}

/// Tells what was dropped on a processor since it was told last, and once whether its buffer is filled.
fn tell_losses<R: Print + Eprint + AllocGlobal>(
    rt: &R,
    known: &mut Learnt,
    cpu: u64,
    reply: &Value,
) -> Result<(), Trouble> {
    let Some(drops) = number_field(reply, "drops") else {
        return Err(Trouble::Strange);
    };
    let filled = reply.get("filled").and_then(|filled| filled.as_bool()) == Some(true);
    let before = known.drops.get(cpu as usize).copied().unwrap_or(0);
    let fresh = if known.told_once {
        drops
    } else {
        drops.saturating_sub(before)
    };
    if fresh > 0 {
        tell_drops(rt, cpu, fresh)?;
    }
    if filled && before == 0 {
        tell_full(rt, cpu)?;
    }
    keep(&mut known.drops, cpu, if filled { 1 } else { drops })
}

/// Tells how many records were dropped on a processor.
fn tell_drops<R: Eprint + AllocGlobal>(rt: &R, cpu: u64, drops: u64) -> Result<(), Trouble> {
    let told = format!(in rt.alloc(); "dtr: {drops} records dropped on CPU {cpu}\n")?;
    tell(rt, told.as_bytes());
    Ok(())
}

/// Tells that the buffer of a processor is filled.
fn tell_full<R: Eprint + AllocGlobal>(rt: &R, cpu: u64) -> Result<(), Trouble> {
    let told = format!(in rt.alloc();
        "dtr: the buffer of CPU {cpu} is full: later records aren't kept\n"
    )?;
    tell(rt, told.as_bytes());
    Ok(())
}

/// Keeps a number of a processor.
pub(crate) fn keep(numbers: &mut Vec<u64>, cpu: u64, number: u64) -> Result<(), Trouble> {
    let place = cpu as usize;
    for _ in numbers.len()..place.saturating_add(1) {
        numbers.push(0)?;
    }
    if let Some(kept) = numbers.get_mut(place) {
        *kept = number;
    }
    Ok(())
}
