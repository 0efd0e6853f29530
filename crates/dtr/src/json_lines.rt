//! Lines of JSON for other programs: plain ASCII, whatever the names and texts are.

use crate::fault::Trouble;
use crate::requests::{quoted, quoted_bytes};
use dt_front::{before_byte, push_number};
use dt_record::{Record, Recorded};
use itoa::Buffer;
use serde_json::Value;
use std::alloc::Global;

/// Adds a record's line. Its probe is given by its identifier and its four names.
pub(crate) fn push_record_line(
    alloc: Global,
    out: &mut Vec<u8>,
    cpu: u64,
    probe: Option<(u64, &str)>,
    record: &Record,
) -> Result<(), Trouble> {
    out.extend_from_slice(b"{\"cpu\":")?;
    push_number(out, cpu)?;
    if let Some((id, name)) = probe {
        push_probe(alloc, out, id, name)?;
    }
    out.extend_from_slice(b",\"values\":[")?;
    push_values(alloc, out, &record.values)?;
    out.extend_from_slice(b"]}\n")?;
    Ok(())
}

/// Adds the fields of a probe: its identifier and its four names.
fn push_probe(alloc: Global, out: &mut Vec<u8>, id: u64, name: &str) -> Result<(), Trouble> {
    out.extend_from_slice(b",\"id\":")?;
    push_number(out, id)?;
    out.extend_from_slice(b",\"probe\":")?;
    push_quoted(alloc, out, name)
}

/// Adds a text as JSON has it.
fn push_quoted(alloc: Global, out: &mut Vec<u8>, text: &str) -> Result<(), Trouble> {
    let json = quoted(alloc, text)?;
    push_plain(out, &json)
}

/// Adds values, with commas between them.
fn push_values(alloc: Global, out: &mut Vec<u8>, values: &[Recorded]) -> Result<(), Trouble> {
    let mut first = true;
    for value in values {
        push_comma(out, first)?;
        first = false;
        push_value(alloc, out, value)?;
    }
    Ok(())
}

/// Adds a comma, but for the first of a list.
fn push_comma(out: &mut Vec<u8>, first: bool) -> Result<(), Trouble> {
    if !first {
        out.push(b',')?;
    }
    Ok(())
}

/// Adds a value: a number, a text, or the frames of a stack as a list.
fn push_value(alloc: Global, out: &mut Vec<u8>, value: &Recorded) -> Result<(), Trouble> {
    match value {
        Recorded::Number(number) => push_signed(out, *number),
        Recorded::Text(bytes) => push_text(alloc, out, bytes),
        Recorded::Frames(frames) => push_frames(out, frames),
    }
}

/// Adds a number, which may have a sign.
fn push_signed(out: &mut Vec<u8>, number: i64) -> Result<(), Trouble> {
    out.extend_from_slice(Buffer::new().format(number).as_bytes())?;
    Ok(())
}

/// Adds a recorded text, which ends before its first zero.
fn push_text(alloc: Global, out: &mut Vec<u8>, bytes: &[u8]) -> Result<(), Trouble> {
    let json = quoted_bytes(alloc, before_byte(0, bytes))?;
    push_plain(out, &json)
}

/// Adds the frames of a stack as a list.
fn push_frames(out: &mut Vec<u8>, frames: &[u64]) -> Result<(), Trouble> {
    out.push(b'[')?;
    let mut first = true;
    for frame in frames {
        push_comma(out, first)?;
        first = false;
        push_number(out, *frame)?;
    }
    out.push(b']')?;
    Ok(())
}

/// Adds an aggregation's line.
pub(crate) fn push_table_line(
    alloc: Global,
    out: &mut Vec<u8>,
    name: &str,
    function: &str,
    rows: &Value,
) -> Result<(), Trouble> {
    let name = quoted(alloc, name)?;
    let function = quoted(alloc, function)?;
    let line = table_line(alloc, &name, &function, rows)?;
    push_plain(out, &line)?;
    out.push(b'\n')?;
    Ok(())
}

/// The line of an aggregation whose name and function are JSON already.
fn table_line(alloc: Global, name: &str, function: &str, rows: &Value) -> Result<String, Trouble> {
    let rows = rows.to_string(alloc)?;
    Ok(format!(in alloc; "{{\"aggregation\":{name},\"function\":{function},\"rows\":{rows}}}")?)
}

/// Adds JSON as plain ASCII: a letter from 0x7F on, which only a text has, is written as its escape.
fn push_plain(out: &mut Vec<u8>, json: &str) -> Result<(), Trouble> {
    for letter in json.chars() {
        push_letter(out, u32::from(letter))?;
    }
    Ok(())
}

/// Adds a letter of this code as plain ASCII.
fn push_letter(out: &mut Vec<u8>, code: u32) -> Result<(), Trouble> {
    if code < 0x7F {
        out.push(code as u8)?;
        return Ok(());
    }
    if code < 0x1_0000 {
        return push_escape(out, code);
    }
    let rest = code - 0x1_0000;
    push_escape(out, 0xD800 + rest / 0x400)?;
    push_escape(out, 0xDC00 + rest % 0x400)
}

/// Adds the escape of a number of 16 bits.
fn push_escape(out: &mut Vec<u8>, unit: u32) -> Result<(), Trouble> {
    out.extend_from_slice(b"\\u")?;
    push_digit(out, unit / 0x1000)?;
    push_digit(out, unit / 0x100)?;
    push_digit(out, unit / 0x10)?;
    push_digit(out, unit)
}

/// Adds the last digit of a number to the base 16.
fn push_digit(out: &mut Vec<u8>, number: u32) -> Result<(), Trouble> {
    let digits = b"0123456789abcdef";
    out.push(digits[(number % 16) as usize])?;
    Ok(())
}
