//! The levels of an `lquantize`.
ghost use Rattle.std.specs.Prelude.{◌≡◌, ◌+◌, ◌<◌, ◌≤◌, IfNone, IfSome, Option};
ghost use Rattle.dt_aggfn.specs.Bounds.{AreBounds};

use crate::limits::LEVELS_MAX;

/// The levels of an `lquantize`: from `lower` to below `upper`, each `step` wide. There is one at least, and at most
/// [`LEVELS_MAX`], and the last one ends at `upper`. (illumos Dynamic Tracing Guide, "Aggregations".)
#[derive(Clone, Copy, Debug, PartialEq, Eq)]
pub struct Bounds {
    pub lower: i64,
    pub upper: i64,
    pub step: i64,
    pub ghost right: { AreBounds lower upper step },
}

impl Bounds {
    ghost use Rattle.dt_aggfn.specs.BoundsOf.{bounds_of};
    ghost use Rattle.dt_aggfn.specs.Rows.{level_from, name_at, levels_of, lquantize_rows, IsRowOf};

    /// The levels with these bounds, where there are some and not too many.
    pub fn new(lower: i64, upper: i64, step: i64) -> Option<Self>
        ensures found { IfSome result (λ bounds. (bounds.lower ≡ lower) × (bounds.upper ≡ upper)
            × (bounds.step ≡ step)) }
        ensures none { IfNone result (AreBounds lower upper step → ⊥) }
        ensures value { result ≡ bounds_of lower upper step }
    {
        // no level rises from the lower bound to the upper one
        if lower >= upper || step <= 0 {
            return None;
        }
        let width = i128::from(upper) - i128::from(lower);
        let each = i128::from(step);
        // the levels must end exactly at the upper bound
        if width % each != 0 {
            return None;
        }
        // each level is a word of the cell, and a cell has a greatest size
        if width / each > i128::from(LEVELS_MAX) {
            return None;
        }
        Some(Bounds { lower, upper, step })
    }

    /// How many levels there are. (illumos Dynamic Tracing Guide, "Aggregations".)
    pub fn levels(self) -> usize
        ensures levels { result ≡ levels_of self }
        ensures few { result ≤ LEVELS_MAX }
    {
        (self.upper.abs_diff(self.lower) / self.step.unsigned_abs()) as usize
    }

    /// Where a level begins, the first being level 0. The level after the last begins at the upper bound. (illumos
    /// Dynamic Tracing Guide, "Aggregations".)
    pub fn level_from(self, index: usize) -> i64
        requires { index ≤ levels_of self }
        ensures { result ≡ level_from self index }
    {
        let above = (index as i64).wrapping_mul(self.step);
        self.lower.wrapping_add(above)
    }

    /// The place of the row that counts a value.
    pub(crate) fn row_of(self, value: i64) -> usize
        ensures { IsRowOf (lquantize_rows self) value result }
    {
        if value < self.lower {
            0
        } else if value < self.upper {
            1 + (value.abs_diff(self.lower) / self.step.unsigned_abs()) as usize
        } else {
            self.levels() + 1
        }
    }

    /// The name of the row at a place, if it has one.
    pub(crate) fn row_name(self, index: usize) -> Option<i64>
        requires { index < levels_of self + 2 }
        ensures { result ≡ name_at (lquantize_rows self) index }
    {
        // a row is named by its least value, and the row below all levels has none
        if index == 0 {
            return None;
        }
        Some(self.level_from(index - 1))
    }
}
