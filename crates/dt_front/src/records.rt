//! The rows of records.
ghost use Rattle.std.specs.Prelude.{◌≡◌, ◌≤◌, ◌<◌, ◌++◌, ℕ, MatchOption, OnOk, length, map, option_map};
ghost use Rattle.dt_record.specs.Fields.{form_of_layout};
ghost use Rattle.dt_record.specs.declared.limits.TheConstants.{EPID_SIZE};
ghost use Rattle.dt_record.specs.Records.{form_of_record};
ghost use Rattle.dt_front.specs.Records as spec;
ghost use Rattle.dt_front.specs.Records.{record_row, rows_text};
ghost use Rattle.dt_front.specs.Unknown.{ComesUnknown, epid_of, known_size};
ghost use Rattle.dt_front.specs.RowForms.{form_of_row_probe};

use crate::row::{RowProbe, push_full_row, push_values};
use dt_record::{EPID_SIZE, Layout, Record};
use std::alloc::{AllocError, Global};

/// Adds a row for each record of a processor, in order, on a page of this width. Probes are those of the enablings, in order of EPID; without the column of
/// probes (`quiet`) a row has the record's values alone.
pub fn push_rows(
    alloc: Global,
    out: &mut Vec<u8>,
    page: usize,
    quiet: bool,
    cpu: u64,
    probes: &[RowProbe],
    records: &[Record],
) -> Result<(), AllocError>
    ensures { OnOk result (out.new.items
        ≡ out.old.items ++ rows_text page quiet cpu (map form_of_row_probe probes.now) (map form_of_record records.now)) }
{
    for record in records {
        let probe = probe_of(quiet, probes, record.epid);
        push_row(alloc, out, page, cpu, probe, record)?;
    }
    Ok(())
}

/// The probe that a record's row names: none for 0, which is no EPID.
fn probe_of(quiet: bool, probes: &[RowProbe], epid: u32) -> Option<&RowProbe>
    ensures { option_map (λ probe. form_of_row_probe probe.now) result ≡ spec.row_probe quiet (map form_of_row_probe probes.now) epid }
{
    if quiet || epid == 0 {
        None
    } else {
        probes.get(epid as usize - 1)
    }
}

/// Adds a record's row.
fn push_row(
    alloc: Global,
    out: &mut Vec<u8>,
    page: usize,
    cpu: u64,
    probe: Option<&RowProbe>,
    record: &Record,
) -> Result<(), AllocError>
    ensures { OnOk result (out.new.items
        ≡ out.old.items ++ record_row page cpu (option_map (λ probe. form_of_row_probe probe.now) probe.entry) (form_of_record «record».now)) }
{
    match probe {
        Some(probe) => push_full_row(alloc, out, page, cpu, probe, record),
        None => push_values(out, record),
    }
}

/// The EPID of the first record of these bytes of which no layout is known yet. `None` where all whole records that they begin with have one.
pub fn unknown_epid(layouts: &[Layout], bytes: &[u8]) -> Option<u32>
    ensures { MatchOption result
        ((epid : ℕ) → ComesUnknown (map form_of_layout layouts.now) bytes.now epid → ⊥)
        (λ epid. ComesUnknown (map form_of_layout layouts.now) bytes.now epid) }
{
    let mut rest = bytes;
    while rest.len() >= EPID_SIZE {
        let epid = epid_of(rest);
        let size = known_size(layouts, epid);
        if size == 0 {
            return Some(epid);
        }
        if size > rest.len() {
            return None;
        }
        rest = &rest[size..];
    }
    None
}

/// The EPID with which a record begins.
fn epid_of(bytes: &[u8]) -> u32
    requires { EPID_SIZE ≤ length bytes.now }
    ensures { result ≡ epid_of bytes.now }
{
    u32::from_be_bytes([bytes[0], bytes[1], bytes[2], bytes[3]])
}

/// How many bytes a record of an EPID has: none of fewer than an EPID takes, and 0 where no layout of it is known.
fn known_size(layouts: &[Layout], epid: u32) -> usize
    ensures size { result ≡ known_size (map form_of_layout layouts.now) epid }
    ensures some { 0 < result → EPID_SIZE ≤ result }
{
    if epid == 0 {
        return 0;
    }
    match layouts.get(epid as usize - 1) {
        Some(layout) => layout.size(),
        None => 0,
    }
}
