//! The aggregations of the programs, as tables and pictures.

use crate::enabling::accepted_as;
use crate::fault::Trouble;
use crate::json_lines::push_table_line;
use crate::output::write_out;
use crate::requests;
use crate::session::Session;
use crate::snapping::RowShape;
use dt_aggfn::Bounds;
use dt_front::{
    KeyColumn, RowCount, counts_in, counts_total, key_in, level_rows, power_rows, push_key,
    push_number_line, push_picture, push_title, rows_total, signed_in, text_field,
};
use dt_lang::{Call, Clause, Statement};
use serde_json::Value;
use std::alloc::Global;
use std::io::Write;

/// An aggregation of a program.
#[derive(Drop)]
pub(crate) struct ListedAggregation {
    name: String,
    /// The levels of an `lquantize`.
    bounds: Option<Bounds>,
}

/// Adds the aggregations of a clause that aren't there.
pub(crate) fn add_of_clause(
    alloc: Global,
    found: &mut Vec<ListedAggregation>,
    clause: &Clause,
) -> Result<(), Trouble> {
    for statement in &clause.statements {
        if let Statement::Aggregate(aggregation) = statement {
            let Ok(name) = str::from_utf8(aggregation.name.as_bytes()) else {
                return Err(Trouble::Strange);
            };
            add_named(alloc, found, name, &aggregation.call)?;
        }
    }
    Ok(())
}

/// Adds an aggregation of this name, which is given this call, where none is there.
fn add_named(
    alloc: Global,
    found: &mut Vec<ListedAggregation>,
    name: &str,
    call: &Call,
) -> Result<(), Trouble> {
    if has_name(found, name) {
        return Ok(());
    }
    let bounds = match call {
        Call::Lquantize(_, bounds) => Some(*bounds),
        _ => None,
    };
    found.push(ListedAggregation {
        name: String::from_str(alloc, name)?,
        bounds,
    })?;
    Ok(())
}

/// Whether an aggregation of this name is there.
fn has_name(found: &[ListedAggregation], name: &str) -> bool {
    for aggregation in found {
        if aggregation.name.as_str() == name {
            return true;
        }
    }
    false
}

/// Writes the table of each aggregation.
pub(crate) fn push_tables<R: Print + Eprint + AllocGlobal, F: Write>(
    rt: &R,
    session: &mut Session<'_>,
    aggregations: &[ListedAggregation],
    shape: RowShape,
    file: &mut Option<F>,
) -> Result<(), Trouble> {
    let mut out = Vec::new(rt.alloc());
    for aggregation in aggregations {
        push_table(rt, session, aggregation, shape, &mut out).map_err(Trouble::in_tracing)?;
        write_out(rt, file, &mut out)?;
    }
    Ok(())
}

/// Adds the table of an aggregation, as far as the service answers it.
fn push_table<R: Print + Eprint + AllocGlobal>(
    rt: &R,
    session: &mut Session<'_>,
    aggregation: &ListedAggregation,
    shape: RowShape,
    out: &mut Vec<u8>,
) -> Result<(), Trouble> {
    let alloc = rt.alloc();
    let name = &aggregation.name;
    let reply = session.ask_made(alloc, requests::with_text(alloc, "agg", "name", name))?;
    let told = format!(in alloc; "the aggregation @{name} can't be read");
    accepted_as(rt, &reply, told)?;
    push_answered(alloc, aggregation, shape, &reply, out)
}

/// Adds the table of an aggregation that a reply gives.
fn push_answered(
    alloc: Global,
    aggregation: &ListedAggregation,
    shape: RowShape,
    reply: &Value,
    out: &mut Vec<u8>,
) -> Result<(), Trouble> {
    let (Some(function), Some(rows)) = (text_field(reply, "fn"), reply.get("rows")) else {
        return Err(Trouble::Strange);
    };
    if shape.json {
        return push_table_line(alloc, out, &aggregation.name, function, rows);
    }
    let Some(rows) = rows.as_array() else {
        return Err(Trouble::Strange);
    };
    if !shape.quiet {
        push_title(out, aggregation.name.as_bytes(), function.as_bytes())?;
    }
    for row in rows {
        push_row(alloc, shape.widths.page, aggregation, row, out)?;
    }
    Ok(())
}

/// Adds a row: its key, and its number or its distribution.
fn push_row(
    alloc: Global,
    page: usize,
    aggregation: &ListedAggregation,
    row: &Value,
    out: &mut Vec<u8>,
) -> Result<(), Trouble> {
    let (Some(key), Some(value)) = (
        row.get("key").and_then(|key| key.as_array()),
        row.get("value"),
    ) else {
        return Err(Trouble::Strange);
    };
    let Some(key) = key_in(alloc, key)? else {
        return Err(Trouble::Strange);
    };
    push_value(alloc, page, aggregation.bounds, &key, value, out)
}

/// Adds a row's number with its key, or its distribution below its key.
fn push_value(
    alloc: Global,
    page: usize,
    bounds: Option<Bounds>,
    key: &[KeyColumn],
    value: &Value,
    out: &mut Vec<u8>,
) -> Result<(), Trouble> {
    if let Some(number) = signed_in(value) {
        push_number_line(alloc, out, key, number)?;
        return Ok(());
    }
    let Some(counts) = value.as_array() else {
        return Err(Trouble::Strange);
    };
    let Some(counts) = counts_in(alloc, counts)? else {
        return Err(Trouble::Strange);
    };
    push_key_line(alloc, out, key)?;
    push_distribution(alloc, page, bounds, &counts, out)
}

/// Adds the line of a key that has parts.
fn push_key_line(alloc: Global, out: &mut Vec<u8>, key: &[KeyColumn]) -> Result<(), Trouble> {
    if !key.is_empty() {
        push_key(alloc, out, key)?;
        out.push(b'\n')?;
    }
    Ok(())
}

/// Adds the picture of a distribution. Counts of rows that the function doesn't have are none that dtr understands.
fn push_distribution(
    alloc: Global,
    page: usize,
    bounds: Option<Bounds>,
    counts: &[RowCount],
    out: &mut Vec<u8>,
) -> Result<(), Trouble> {
    let rows = match bounds {
        Some(bounds) => level_rows(alloc, bounds, counts)?,
        None => power_rows(alloc, counts)?,
    };
    let (Some(shown), Some(answered)) = (rows_total(&rows), counts_total(counts)) else {
        return Err(Trouble::Strange);
    };
    if shown != answered {
        return Err(Trouble::Strange);
    }
    push_picture(out, page, &rows)?;
    Ok(())
}
