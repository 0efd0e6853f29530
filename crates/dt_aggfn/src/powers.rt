//! The rows of `quantize`.
ghost use Rattle.std.specs.Prelude.{◌≡◌, ◌<◌, Some};
ghost use Rattle.dt_aggfn.specs.Rows.{name_at, quantize_rows, IsRowOf};

use crate::limits::{GREATEST_POWER, QUANTIZE_ROWS};

/// The place of row 0: the rows of the powers' opposites come before it.
const ZERO_ROW: usize = 63;

/// The place of the row that counts a value.
pub(crate) fn row_of(value: i64) -> usize
    ensures { IsRowOf quantize_rows value result }
{
    // 0 has no power of two: its row lies between the powers and their opposites
    if value == 0 {
        return ZERO_ROW;
    }
    let power = value.unsigned_abs().ilog2().min(GREATEST_POWER) as usize;
    if value < 0 {
        ZERO_ROW - 1 - power
    } else {
        ZERO_ROW + 1 + power
    }
}

/// The name of the row at a place: 0, a power of two, or its opposite.
pub(crate) fn row_name(index: usize) -> i64
    requires { index < QUANTIZE_ROWS }
    ensures { name_at quantize_rows index ≡ Some result }
{
    if index < ZERO_ROW {
        -(2_i64.pow((ZERO_ROW - 1 - index) as u32))
    } else if index == ZERO_ROW {
        0
    } else {
        2_i64.pow((index - ZERO_ROW - 1) as u32)
    }
}
