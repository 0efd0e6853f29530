//! The rows of an aggregation, written without a JSON value for each: a table may have a million.
ghost use Rattle.std.specs.Prelude.{◌≡◌, ◌∷◌, ◌++◌, OnOk, map};
ghost use Rattle.std.specs.Fmt.{signed_decimal};
ghost use Rattle.std.specs.List.{flat_map, join_with_byte};
ghost use Rattle.dt_names.specs.Bytes.{comma};
ghost use Rattle.dt_aggfn.specs.Answers.{form_of_answer, form_of_counted_row};
ghost use Rattle.dt_aggstore.specs.EntryNames.{form_of_row, key_of_row};
ghost use Rattle.dt_proto.specs.Rows.{counted_text, function_word, least_text, part_text, row_text, value_text};

use crate::text::{before_zeros, push_string, text_of};
use crate::written::{push_number, push_signed};
use dt_aggfn::{AggFn, CellAnswer, CountedRow};
use dt_aggstore::{KeyPart, Row, RowKey};
use std::alloc::{AllocError, Global};

/// The word for an aggregating function, as replies and programs carry it.
pub(crate) fn word_of(function: AggFn) -> &'static str
    ensures { result.now ≡ function_word function }
{
    match function {
        AggFn::Count => "count",
        AggFn::Sum => "sum",
        AggFn::Avg => "avg",
        AggFn::Min => "min",
        AggFn::Max => "max",
        AggFn::Quantize => "quantize",
        AggFn::Lquantize(_) => "lquantize",
    }
}

/// Adds each row as an object of its key and its value, with commas between them.
pub(crate) fn push_rows(alloc: Global, line: &mut Vec<u8>, rows: &[Row]) -> Result<(), AllocError>
    ensures { OnOk result (line.new.items
        ≡ line.old.items ++ join_with_byte comma (map row_text (map form_of_row rows.now))) }
{
    let Some((first, more)) = rows.split_first() else {
        return Ok(());
    };
    push_row(alloc, line, first)?;
    push_more_rows(alloc, line, more)?;
    Ok(())
}

/// Adds rows, each after a comma.
fn push_more_rows(alloc: Global, line: &mut Vec<u8>, rows: &[Row]) -> Result<(), AllocError>
    ensures { OnOk result (line.new.items
        ≡ line.old.items ++ flat_map (λ row. comma ∷ row_text row) (map form_of_row rows.now)) }
{
    for row in rows {
        line.push(b',')?;
        push_row(alloc, line, row)?;
    }
    Ok(())
}

fn push_row(alloc: Global, line: &mut Vec<u8>, row: &Row) -> Result<(), AllocError>
    ensures { OnOk result (line.new.items ≡ line.old.items ++ row_text (form_of_row row.now)) }
{
    line.extend_from_slice(b"{\"key\":[")?;
    push_key(alloc, line, &row.key)?;
    line.extend_from_slice(b"],\"value\":")?;
    push_answer(line, &row.value)?;
    line.push(b'}')?;
    Ok(())
}

/// Adds the parts of a row's key, with commas between them.
fn push_key(alloc: Global, line: &mut Vec<u8>, key: &RowKey) -> Result<(), AllocError>
    ensures { OnOk result (line.new.items
        ≡ line.old.items ++ join_with_byte comma (map part_text (key_of_row key.now))) }
{
    match key {
        RowKey::Numbers(numbers) => push_numbers(line, numbers.as_slice()),
        RowKey::Parts(parts) => push_parts(alloc, line, parts),
    }
}

/// Adds the parts of a key that are all numbers, with commas between them.
fn push_numbers(line: &mut Vec<u8>, numbers: &[i64]) -> Result<(), AllocError>
    ensures { OnOk result (line.new.items
        ≡ line.old.items ++ join_with_byte comma (map signed_decimal numbers.now)) }
{
    let Some((first, more)) = numbers.split_first() else {
        return Ok(());
    };
    push_signed(line, *first)?;
    push_more_numbers(line, more)?;
    Ok(())
}

/// Adds numbers of a key, each after a comma.
fn push_more_numbers(line: &mut Vec<u8>, numbers: &[i64]) -> Result<(), AllocError>
    ensures { OnOk result (line.new.items
        ≡ line.old.items ++ flat_map (λ number. comma ∷ signed_decimal number) numbers.now) }
{
    for number in numbers {
        line.push(b',')?;
        push_signed(line, *number)?;
    }
    Ok(())
}

/// Adds the parts of a key, with commas between them.
fn push_parts(alloc: Global, line: &mut Vec<u8>, parts: &[KeyPart]) -> Result<(), AllocError>
    ensures { OnOk result (line.new.items ≡ line.old.items ++ join_with_byte comma (map part_text parts.now)) }
{
    let Some((first, more)) = parts.split_first() else {
        return Ok(());
    };
    push_part(alloc, line, first)?;
    push_more_parts(alloc, line, more)?;
    Ok(())
}

/// Adds parts of a key, each after a comma.
fn push_more_parts(alloc: Global, line: &mut Vec<u8>, parts: &[KeyPart]) -> Result<(), AllocError>
    ensures { OnOk result (line.new.items ≡ line.old.items ++ flat_map (λ part. comma ∷ part_text part) parts.now) }
{
    for part in parts {
        line.push(b',')?;
        push_part(alloc, line, part)?;
    }
    Ok(())
}

fn push_part(alloc: Global, line: &mut Vec<u8>, part: &KeyPart) -> Result<(), AllocError>
    ensures { OnOk result (line.new.items ≡ line.old.items ++ part_text part.now) }
{
    match part {
        KeyPart::Number(number) => push_signed(line, *number),
        KeyPart::Text(bytes) => push_string(alloc, line, text_of(alloc, before_zeros(bytes))?),
    }
}

/// Adds what a function makes of the values of a key: a number, or a list of counts.
fn push_answer(line: &mut Vec<u8>, answer: &CellAnswer) -> Result<(), AllocError>
    ensures { OnOk result (line.new.items ≡ line.old.items ++ value_text (form_of_answer answer.now)) }
{
    match answer {
        CellAnswer::Number(number) => push_signed(line, *number),
        CellAnswer::Rows(rows) => {
            line.push(b'[')?;
            push_counts(line, rows)?;
            line.push(b']')?;
            Ok(())
        }
    }
}

/// Adds counted rows, with commas between them.
fn push_counts(line: &mut Vec<u8>, rows: &[CountedRow]) -> Result<(), AllocError>
    ensures { OnOk result (line.new.items
        ≡ line.old.items ++ join_with_byte comma (map counted_text (map form_of_counted_row rows.now))) }
{
    let Some((first, more)) = rows.split_first() else {
        return Ok(());
    };
    push_count(line, *first)?;
    push_more_counts(line, more)?;
    Ok(())
}

/// Adds counted rows, each after a comma.
fn push_more_counts(line: &mut Vec<u8>, rows: &[CountedRow]) -> Result<(), AllocError>
    ensures { OnOk result (line.new.items
        ≡ line.old.items ++ flat_map (λ row. comma ∷ counted_text row) (map form_of_counted_row rows.now)) }
{
    for row in rows {
        line.push(b',')?;
        push_count(line, *row)?;
    }
    Ok(())
}

/// Adds the least value of a row and its count.
fn push_count(line: &mut Vec<u8>, row: CountedRow) -> Result<(), AllocError>
    ensures { OnOk result (line.new.items ≡ line.old.items ++ counted_text (form_of_counted_row row)) }
{
    line.push(b'[')?;
    push_least(line, row.least)?;
    line.push(b',')?;
    push_number(line, row.count)?;
    line.push(b']')?;
    Ok(())
}

/// Adds the least value of a row; null for the row below all levels.
fn push_least(line: &mut Vec<u8>, least: Option<i64>) -> Result<(), AllocError>
    ensures { OnOk result (line.new.items ≡ line.old.items ++ least_text least) }
{
    match least {
        Some(least) => push_signed(line, least),
        None => line.extend_from_slice(b"null"),
    }
}
