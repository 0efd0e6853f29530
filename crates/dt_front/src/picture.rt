//! A distribution as the picture that DTrace draws.
ghost use Rattle.std.specs.Prelude.{◌≡◌, ◌++◌, ◌≤◌, ◌<◌, ◌^◌, OnOk, All, length, map, reverse};
ghost use Rattle.std.specs.List.{flat_map, position_or_len};
ghost use Rattle.dt_front.specs.Limits.{bar_max};
ghost use Rattle.dt_front.specs.Picture as spec;
ghost use Rattle.dt_front.specs.Picture.{bar, bar_width, bars_head, is_counted, picture, picture_head, row_line, shown_rows, total_of};
ghost use Rattle.dt_front.specs.PictureForms.{form_of_picture_row};

use crate::columns::{push_blanks, push_number, push_repeated, push_right};
use crate::limits::{BAR_MAX, BAR_MIN, BESIDE_BAR, LABEL_WIDTH};
use std::alloc::AllocError;

/// A row of a distribution.
#[derive(Drop)]
pub struct PictureRow {
    /// The text that names it.
    pub label: Vec<u8>,
    /// How many values it counts.
    pub count: u64,
}

/// How many columns the longest bar has on a page of this width.
fn bar_width(page: usize) -> usize
    ensures { result ≡ bar_width page }
{
    page.saturating_sub(BESIDE_BAR).min(BAR_MAX).max(BAR_MIN)
}

/// The columns of a bar for so many of a total, where the longest bar has so many.
fn bar_columns(longest: usize, count: u64, total: u64) -> usize
    requires short { longest ≤ bar_max }
    requires part { count ≤ total }
    ensures columns { result ≡ spec.bar_columns longest count total }
    ensures within { result ≤ longest }
{
    if total == 0 {
        return 0;
    }
    let doubled = 2 * longest as u128 * u128::from(count) + u128::from(total);
    (doubled / (2 * u128::from(total))) as usize
}

/// Adds a bar of so many columns, with blanks up to the last column of the longest.
fn push_bar(out: &mut Vec<u8>, longest: usize, columns: usize) -> Result<(), AllocError>
    requires { columns ≤ longest }
    ensures { OnOk result (out.new.items ≡ out.old.items ++ bar longest columns) }
{
    push_repeated(out, b'@', columns)?;
    push_blanks(out, longest - columns)
}

/// Adds the head of a picture whose longest bar has so many columns.
fn push_head(out: &mut Vec<u8>, longest: usize) -> Result<(), AllocError>
    ensures { OnOk result (out.new.items ≡ out.old.items ++ picture_head longest) }
{
    out.extend_from_slice(b"           value  ")?;
    push_bars_head(out, longest)?;
    out.extend_from_slice(b" count\n")
}

/// Adds the word above the bars, with dashes around it.
fn push_bars_head(out: &mut Vec<u8>, longest: usize) -> Result<(), AllocError>
    ensures { OnOk result (out.new.items ≡ out.old.items ++ bars_head longest) }
{
    let dashes = longest.saturating_sub(BAR_MIN);
    push_repeated(out, b'-', dashes / 2)?;
    out.extend_from_slice(b" Distribution ")?;
    push_repeated(out, b'-', dashes - dashes / 2)
}

/// Adds the picture of a distribution on a page of this width.
pub fn push_picture(out: &mut Vec<u8>, page: usize, rows: &[PictureRow]) -> Result<(), AllocError>
    requires { total_of (map form_of_picture_row rows.now) < 2 ^ 64 }
    ensures { OnOk result (out.new.items ≡ out.old.items ++ picture page (map form_of_picture_row rows.now)) }
{
    let longest = bar_width(page);
    push_head(out, longest)?;
    let total = total_of(rows);
    push_rows(out, shown_rows(rows), longest, total)
}

/// The values that all rows count.
fn total_of(rows: &[PictureRow]) -> u64
    requires { total_of (map form_of_picture_row rows.now) < 2 ^ 64 }
    ensures { result ≡ total_of (map form_of_picture_row rows.now) }
{
    rows.iter().map(|row| row.count).sum()
}

/// The rows that are shown: from the first with a count to the last, and an empty one at each end.
fn shown_rows(rows: &[PictureRow]) -> &[PictureRow]
    ensures { map form_of_picture_row result.now ≡ shown_rows (map form_of_picture_row rows.now) }
{
    let from = &rows[leading_empty(rows).saturating_sub(1)..];
    &from[..from.len() - trailing_empty(from).saturating_sub(1)]
}

/// How many rows are empty from the first on.
fn leading_empty(rows: &[PictureRow]) -> usize
    ensures same { result ≡ position_or_len is_counted (map form_of_picture_row rows.now) }
    ensures within { result ≤ length rows.now }
{
    match rows.iter().position(|row| row.count > 0) {
        Some(place) => place,
        None => rows.len(),
    }
}

/// How many rows are empty from the last back.
fn trailing_empty(rows: &[PictureRow]) -> usize
    ensures same { result ≡ position_or_len is_counted (reverse (map form_of_picture_row rows.now)) }
    ensures within { result ≤ length rows.now }
{
    for back in 0..rows.len() {
        if rows[rows.len() - 1 - back].count > 0 {
            return back;
        }
    }
    rows.len()
}

/// Adds a line for each row, whose bars are parts of a total, the longest of so many columns.
fn push_rows(
    out: &mut Vec<u8>,
    rows: &[PictureRow],
    longest: usize,
    total: u64,
) -> Result<(), AllocError>
    requires short { longest ≤ bar_max }
    requires parts { All (λ row. row.count ≤ total) (map form_of_picture_row rows.now) }
    ensures { OnOk result (out.new.items ≡ out.old.items ++ flat_map (row_line longest total) (map form_of_picture_row rows.now)) }
{
    for row in rows {
        push_row(out, row, longest, total)?;
    }
    Ok(())
}

/// Adds the line of a row, whose bar is a part of a total.
fn push_row(
    out: &mut Vec<u8>,
    row: &PictureRow,
    longest: usize,
    total: u64,
) -> Result<(), AllocError>
    requires short { longest ≤ bar_max }
    requires part { row.now.count ≤ total }
    ensures { OnOk result (out.new.items ≡ out.old.items ++ row_line longest total (form_of_picture_row row.now)) }
{
    push_right(out, LABEL_WIDTH, &row.label)?;
    out.extend_from_slice(b" |")?;
    push_bar(out, longest, bar_columns(longest, row.count, total))?;
    out.push(b' ')?;
    push_number(out, row.count)?;
    out.push(b'\n')?;
    Ok(())
}
