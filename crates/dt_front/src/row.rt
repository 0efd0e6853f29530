//! Records as rows.
ghost use Rattle.std.specs.Prelude.{◌≡◌, ◌++◌, OnOk};
ghost use Rattle.std.specs.List.{flat_map};
ghost use Rattle.dt_record.specs.Records.{form_of_record, form_of_recorded};
ghost use Rattle.dt_front.specs.Rows as spec;
ghost use Rattle.dt_front.specs.Rows.{frame_line, full_row, hex_byte, row_columns, rows_head, recorded_text, values_text};
ghost use Rattle.dt_front.specs.RowForms.{form_of_row_probe};

use crate::columns::push_right;
use crate::escaping::{hex_digit, push_shown};
use crate::limits::{BESIDE_NAMES, NAMES_MAX, NAMES_MIN};
use crate::parts::before_byte;
use dt_record::{Record, Recorded};
use itoa::Buffer;
use std::alloc::{AllocError, Global};

/// A probe as a row names it.
#[derive(Drop)]
pub struct RowProbe {
    /// Its identifier.
    pub id: u64,
    /// Its function and its name, with a `:` between them.
    pub name: Vec<u8>,
}

/// How many columns the names of probes have on a page of this width.
fn name_width(page: usize) -> usize
    ensures { result ≡ spec.name_width page }
{
    page.saturating_sub(BESIDE_NAMES)
        .min(NAMES_MAX)
        .max(NAMES_MIN)
}

/// Adds the head of all rows on a page of this width.
pub fn push_rows_head(out: &mut Vec<u8>, page: usize) -> Result<(), AllocError>
    ensures { OnOk result (out.new.items ≡ out.old.items ++ rows_head page) }
{
    out.extend_from_slice(b"CPU     ID ")?;
    push_right(out, name_width(page), b"FUNCTION:NAME")?;
    out.push(b'\n')?;
    Ok(())
}

/// Adds a record's row on a page of this width: its processor, its probe and its values.
pub(crate) fn push_full_row(
    alloc: Global,
    out: &mut Vec<u8>,
    page: usize,
    cpu: u64,
    probe: &RowProbe,
    record: &Record,
) -> Result<(), AllocError>
    ensures { OnOk result (out.new.items ≡ out.old.items ++ full_row page cpu (form_of_row_probe probe.now) (form_of_record «record».now)) }
{
    push_columns(alloc, out, page, cpu, probe)?;
    push_values(out, record)
}

/// Adds a record's values, and ends the row.
pub(crate) fn push_values(out: &mut Vec<u8>, record: &Record) -> Result<(), AllocError>
    ensures { OnOk result (out.new.items ≡ out.old.items ++ values_text (form_of_record «record».now)) }
{
    for value in &record.values {
        push_value(out, value)?;
    }
    out.push(b'\n')?;
    Ok(())
}

/// Adds the columns of a row: its processor and its probe.
fn push_columns(
    alloc: Global,
    out: &mut Vec<u8>,
    page: usize,
    cpu: u64,
    probe: &RowProbe,
) -> Result<(), AllocError>
    ensures { OnOk result (out.new.items ≡ out.old.items ++ row_columns page cpu (form_of_row_probe probe.now)) }
{
    let mut name = Vec::new(alloc);
    push_shown(&mut name, &probe.name)?;
    push_right(out, 3, Buffer::new().format(cpu).as_bytes())?;
    out.push(b' ')?;
    push_right(out, 6, Buffer::new().format(probe.id).as_bytes())?;
    out.push(b' ')?;
    push_right(out, name_width(page), &name)
}

/// Adds a value of a row.
fn push_value(out: &mut Vec<u8>, value: &Recorded) -> Result<(), AllocError>
    ensures { OnOk result (out.new.items ≡ out.old.items ++ recorded_text (form_of_recorded value.now)) }
{
    match value {
        Recorded::Number(number) => {
            out.extend_from_slice(b"  ")?;
            out.extend_from_slice(Buffer::new().format(*number).as_bytes())
        }
        Recorded::Text(bytes) => {
            out.extend_from_slice(b"  ")?;
            push_shown(out, before_byte(0, bytes))
        }
        Recorded::Frames(frames) => push_frames(out, frames),
    }
}

/// Adds the lines of a stack's frames.
fn push_frames(out: &mut Vec<u8>, frames: &[u64]) -> Result<(), AllocError>
    ensures { OnOk result (out.new.items ≡ out.old.items ++ flat_map frame_line frames.now) }
{
    for frame in frames {
        push_frame(out, *frame)?;
    }
    Ok(())
}

/// Adds a frame's line; a frame that is 0 has none.
fn push_frame(out: &mut Vec<u8>, frame: u64) -> Result<(), AllocError>
    ensures { OnOk result (out.new.items ≡ out.old.items ++ frame_line frame) }
{
    if frame == 0 {
        return Ok(());
    }
    out.extend_from_slice(b"\n              0x")?;
    push_hex(out, &frame_bytes(frame))
}

/// A frame's bytes, the highest first.
#[tactic(auto, unfolding(crate::specs::Rows::frame_bytes))]
fn frame_bytes(frame: u64) -> [u8; 8]
    ensures { result ≡ spec.frame_bytes frame }
{
    frame.to_be_bytes()
}

/// Adds bytes in two digits each.
fn push_hex(out: &mut Vec<u8>, bytes: &[u8]) -> Result<(), AllocError>
    ensures { OnOk result (out.new.items ≡ out.old.items ++ flat_map hex_byte bytes.now) }
{
    for byte in bytes {
        out.push(hex_digit(*byte / 16))?;
        out.push(hex_digit(*byte % 16))?;
    }
    Ok(())
}
