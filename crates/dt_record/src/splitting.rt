//! Records back from their bytes.
ghost use Rattle.std.specs.Prelude.{◌≡◌, ◌+◌, ◌*◌, ◌≤◌, ◌<◌, ◌++◌, ℕ, List, Some, IfOk, IfSome, MatchOption, length, map, slice_get, sum};
ghost use Rattle.std.specs.List.{flat_map};
ghost use Rattle.dt_program.specs.declared.clause.TheConstants.{FRAMES_MAX, STATEMENTS_MAX};
ghost use Rattle.dt_record.specs.Fields.{form_of_field, form_of_layout};
ghost use Rattle.dt_record.specs.Layout.{FieldForm, field_size};
ghost use Rattle.dt_record.specs.Records.{form_of_record, form_of_recorded};
ghost use Rattle.dt_record.specs.Split.{AreFrames, FitAll, FitsField, IsRecordOf, IsSplit, RecordForm, record_bytes, recorded_bytes};
ghost use Rattle.byteorder.specs.Endian.{big_bytes};

use crate::layout::{Field, Layout, total};
use crate::limits::EPID_SIZE;
use crate::recorded::{Record, Recorded};
use byteorder::{BigEndian, ByteOrder};
use dt_names::PADDED_SIZE;
use std::alloc::{AllocError, Global};

/// The records that bytes are, one after the other, or `None` where they are no list of whole records. Layouts are those of
/// the consumer's enablings, in order of EPID.
///
/// It takes memory for the records.
pub fn split(
    alloc: Global,
    layouts: &[Layout],
    bytes: &[u8],
) -> Result<Option<Vec<Record>>, AllocError>
    ensures { IfOk result (λ found. MatchOption found
        ((records : List RecordForm) → IsSplit (map form_of_layout layouts.now) bytes.now records → ⊥)
        (λ records. IsSplit (map form_of_layout layouts.now) bytes.now (map form_of_record records.items))) }
{
    let mut records = Vec::new(alloc);
    let mut rest = bytes;
    while !rest.is_empty() {
        match record_at(alloc, layouts, rest)? {
            Some((record, after)) => {
                records.push(record)?;
                rest = after;
            }
            // bytes are records to their end or not at all: a rest that is none isn't let through
            None => return Ok(None),
        }
    }
    Ok(Some(records))
}

/// The record with which bytes begin, and what is left after it.
fn record_at<'a>(
    alloc: Global,
    layouts: &[Layout],
    bytes: &'a [u8],
) -> Result<Option<(Record, &'a [u8])>, AllocError>
    // `None` exactly where no record of the layouts stands in front; else that record and what is after it
    ensures { IfOk result (λ found. MatchOption found
        ((one : RecordForm) (after : List ℕ) → IsRecordOf (map form_of_layout layouts.now) one
        → bytes.now ≡ record_bytes one ++ after → ⊥)
        (λ found. IsRecordOf (map form_of_layout layouts.now) (form_of_record found.0)
        × (bytes.now ≡ record_bytes (form_of_record found.0) ++ found.1.now))) }
{
    // a record begins with its EPID, and here that is cut off
    if bytes.len() < EPID_SIZE {
        return Ok(None);
    }
    let (head, rest) = bytes.split_at(EPID_SIZE);
    let epid = BigEndian::read_u32(head);
    // the consumer has no ECB of this EPID, or its clause leaves no record
    let Some(fields) = fields_of(layouts, epid) else {
        return Ok(None);
    };
    let size = total(fields);
    // the layout says how long the record is, and here its values are cut off
    if rest.len() < size {
        return Ok(None);
    }
    let (values, after) = rest.split_at(size);
    let values = values_of(alloc, fields, values)?;
    Ok(Some((Record { epid, values }, after)))
}

/// The fields of the record of an EPID, where there is one. EPIDs count from 1.
fn fields_of(layouts: &[Layout], epid: u32) -> Option<&[Field]>
    // `None` exactly where the EPID names no layout of a record; else the fields of the one that it names
    ensures named { MatchOption result
        ((place : ℕ) (fields : List FieldForm) → epid ≡ place + 1
        → slice_get (map form_of_layout layouts.now) place ≡ Some (Some fields) → ⊥)
        (λ found. (place : ℕ) × (epid ≡ place + 1)
        × (slice_get (map form_of_layout layouts.now) place ≡ Some (Some (map form_of_field found.now)))) }
    ensures few { IfSome result (λ found. length found.now ≤ STATEMENTS_MAX) }
{
    let place = epid.checked_sub(1)?;
    let layout = layouts.get(place as usize)?;
    match &layout.fields {
        Some(fields) => Some(fields.as_slice()),
        None => None,
    }
}

/// The values that bytes are, each of its field.
fn values_of(alloc: Global, fields: &[Field], bytes: &[u8]) -> Result<Vec<Recorded>, AllocError>
    requires few { length fields.now ≤ STATEMENTS_MAX }
    requires whole { length bytes.now ≡ sum (map field_size (map form_of_field fields.now)) }
    ensures fit { IfOk result (λ values. FitAll (map form_of_field fields.now) (map form_of_recorded values.items)) }
    ensures same { IfOk result (λ values. flat_map recorded_bytes (map form_of_recorded values.items) ≡ bytes.now) }
{
    let mut values = Vec::new(alloc);
    let mut rest = bytes;
    for field in fields {
        let (value, after) = rest.split_at(field.size());
        values.push(value_of(alloc, *field, value)?)?;
        rest = after;
    }
    Ok(values)
}

/// The value that bytes are.
fn value_of(alloc: Global, field: Field, bytes: &[u8]) -> Result<Recorded, AllocError>
    requires { length bytes.now ≡ field_size (form_of_field field) }
    ensures fits { IfOk result (λ value. FitsField (form_of_field field) (form_of_recorded value)) }
    ensures same { IfOk result (λ value. recorded_bytes (form_of_recorded value) ≡ bytes.now) }
{
    match field {
        Field::Number => Ok(Recorded::Number(BigEndian::read_i64(bytes))),
        Field::Text => {
            let mut text = [0; PADDED_SIZE];
            text.copy_from_slice(bytes);
            Ok(Recorded::Text(text))
        }
        Field::Stack(frames) | Field::Ustack(frames) => Ok(Recorded::Frames(frames_of(
            alloc,
            usize::from(frames.count),
            bytes,
        )?)),
    }
}

/// The frames that bytes are, eight bytes each.
fn frames_of(alloc: Global, count: usize, bytes: &[u8]) -> Result<Vec<u64>, AllocError>
    requires small { count ≤ FRAMES_MAX }
    requires whole { length bytes.now ≡ 8 * count }
    ensures many { IfOk result (λ frames. AreFrames count frames.items) }
    ensures same { IfOk result (λ frames. flat_map (big_bytes 8) frames.items ≡ bytes.now) }
{
    let mut frames = Vec::new(alloc);
    let mut rest = bytes;
    for i in 0..count {
        let (frame, after) = rest.split_at(8);
        frames.push(BigEndian::read_u64(frame))?;
        rest = after;
    }
    Ok(frames)
}
