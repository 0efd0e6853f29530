//! The rows of a distribution, with those that count nothing.
ghost use Rattle.std.specs.Prelude.{◌≡◌, ◌++◌, ◌∷◌, [], ◌<◌, ◌≤◌, ◌^◌, IfOk, MatchOption, OnOk, Some, map, pos, sum_by};
ghost use Rattle.std.specs.Fmt.{signed_decimal};
ghost use Rattle.dt_aggfn.specs.Limits.{greatest_power};
ghost use Rattle.dt_front.specs.CountForms.{form_of_row_count};
ghost use Rattle.dt_front.specs.Distribution.{count_at, level_rows, picture_row, power_rows};
ghost use Rattle.dt_front.specs.Picture.{total_of};
ghost use Rattle.dt_front.specs.PictureForms.{form_of_picture_row};

use crate::picture::PictureRow;
use dt_aggfn::{Bounds, GREATEST_POWER};
use itoa::Buffer;
use std::alloc::{AllocError, Global};

/// A count as a reply tells it.
#[derive(Clone, Copy, Drop)]
pub struct RowCount {
    /// The row's name; `None` for the row below all levels.
    pub least: Option<i64>,
    /// How many values it counts.
    pub count: u64,
}

/// All rows of a `quantize`, rising, each with its count.
pub fn power_rows(alloc: Global, counts: &[RowCount]) -> Result<Vec<PictureRow>, AllocError>
    ensures { IfOk result (λ rows. map form_of_picture_row rows.items ≡ power_rows (map form_of_row_count counts.now)) }
{
    let mut rows = Vec::new(alloc);
    for back in 0..=GREATEST_POWER {
        push_named(alloc, &mut rows, counts, -power(GREATEST_POWER - back))?;
    }
    push_named(alloc, &mut rows, counts, 0)?;
    for exponent in 0..=GREATEST_POWER {
        push_named(alloc, &mut rows, counts, power(exponent))?;
    }
    Ok(rows)
}

/// A power of two.
fn power(exponent: u32) -> i64
    requires { exponent ≤ greatest_power }
    ensures { result ≡ pos (2 ^ exponent) }
{
    2_i64.pow(exponent)
}

/// All rows of an `lquantize`, rising, each with its count.
pub fn level_rows(
    alloc: Global,
    bounds: Bounds,
    counts: &[RowCount],
) -> Result<Vec<PictureRow>, AllocError>
    ensures { IfOk result (λ rows. map form_of_picture_row rows.items ≡ level_rows bounds (map form_of_row_count counts.now)) }
{
    let mut rows = Vec::new(alloc);
    let below = labelled(alloc, b"< ", bounds.lower)?;
    push_row(&mut rows, counts, below, None)?;
    for index in 0..bounds.levels() {
        push_named(alloc, &mut rows, counts, bounds.level_from(index))?;
    }
    let above = labelled(alloc, b">= ", bounds.upper)?;
    push_row(&mut rows, counts, above, Some(bounds.upper))?;
    Ok(rows)
}

/// Adds the row of this name, by which it is labelled.
fn push_named(
    alloc: Global,
    rows: &mut Vec<PictureRow>,
    counts: &[RowCount],
    name: i64,
) -> Result<(), AllocError>
    ensures { OnOk result (map form_of_picture_row rows.new.items
        ≡ map form_of_picture_row rows.old.items ++ picture_row (map form_of_row_count counts.now) (signed_decimal name) (Some name) ∷ []) }
{
    let label = labelled(alloc, b"", name)?;
    push_row(rows, counts, label, Some(name))
}

/// Adds the row of a name, with a label.
fn push_row(
    rows: &mut Vec<PictureRow>,
    counts: &[RowCount],
    label: Vec<u8>,
    name: Option<i64>,
) -> Result<(), AllocError>
    ensures { OnOk result (map form_of_picture_row rows.new.items
        ≡ map form_of_picture_row rows.old.items ++ picture_row (map form_of_row_count counts.now) label.items name ∷ []) }
{
    let count = count_at(counts, name);
    rows.push(PictureRow { label, count })?;
    Ok(())
}

/// A number with what stands before it.
fn labelled(alloc: Global, before: &[u8], number: i64) -> Result<Vec<u8>, AllocError>
    ensures { IfOk result (λ label. label.items ≡ before.now ++ signed_decimal number) }
{
    let mut label = Vec::from_slice(alloc, before)?;
    label.extend_from_slice(Buffer::new().format(number).as_bytes())?;
    Ok(label)
}

/// What is counted under a name; 0 where nothing is.
fn count_at(counts: &[RowCount], least: Option<i64>) -> u64
    ensures { result ≡ count_at (map form_of_row_count counts.now) least }
{
    for counted in counts {
        if counted.least == least {
            return counted.count;
        }
    }
    0
}

/// The values that all rows count. `None` where they are 2^64 or more.
pub fn rows_total(rows: &[PictureRow]) -> Option<u64>
    ensures { MatchOption result
        (2 ^ 64 ≤ total_of (map form_of_picture_row rows.now))
        (λ total. total ≡ total_of (map form_of_picture_row rows.now)) }
{
    let mut total = 0_u64;
    for row in rows {
        match total.checked_add(row.count) {
            Some(more) => total = more,
            None => return None,
        }
    }
    Some(total)
}

/// The values that all counts of a reply tell of. `None` where they are 2^64 or more.
pub fn counts_total(counts: &[RowCount]) -> Option<u64>
    ensures { MatchOption result
        (2 ^ 64 ≤ sum_by (λ counted. counted.count) counts.now)
        (λ total. total ≡ sum_by (λ counted. counted.count) counts.now) }
{
    let mut total = 0_u64;
    for counted in counts {
        match total.checked_add(counted.count) {
            Some(more) => total = more,
            None => return None,
        }
    }
    Some(total)
}
