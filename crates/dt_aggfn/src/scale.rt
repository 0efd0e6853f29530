//! The rows in which `quantize` and `lquantize` count.
ghost use Rattle.std.specs.Prelude.{◌≡◌, ◌<◌, length, map, IfOk};
ghost use Rattle.dt_aggfn.specs.Answers.{form_of_counted_row};
ghost use Rattle.dt_aggfn.specs.Cells.{cell_words, rows_of};
ghost use Rattle.dt_aggfn.specs.Rows.{name_at, counted_words};
ghost use Rattle.dt_aggfn.specs.Scales.{function_on};

use crate::answer::CountedRow;
use crate::levels::Bounds;
use crate::powers;
use std::alloc::{AllocError, Global};

/// The rows of a function that has some.
#[derive(Clone, Copy)]
pub(crate) enum Scale {
    /// Those of `quantize`: the powers of two, their opposites, and 0.
    Powers,
    /// Those of an `lquantize`: its levels, the row below them, and the one from the upper bound on.
    Levels(Bounds),
}

impl Scale {
    /// The rows that count something, of a cell that has a word for each row.
    pub(crate) fn counted_rows(
        self,
        alloc: Global,
        cell: &[u64],
    ) -> Result<Vec<CountedRow>, AllocError>
        requires { length cell.now ≡ cell_words (function_on self) }
        ensures { IfOk result (λ counted. map form_of_counted_row counted.items
            ≡ counted_words (rows_of (function_on self)) cell.now) }
    {
        let mut counted = Vec::new(alloc);
        for (index, count) in cell.iter().enumerate() {
            if *count > 0 {
                let least = self.row_name(index);
                let count = *count;
                counted.push(CountedRow { least, count })?;
            }
        }
        Ok(counted)
    }

    /// The name of the row at a place, if it has one.
    fn row_name(self, index: usize) -> Option<i64>
        requires { index < cell_words (function_on self) }
        ensures { result ≡ name_at (rows_of (function_on self)) index }
    {
        match self {
            Scale::Powers => Some(powers::row_name(index)),
            Scale::Levels(bounds) => bounds.row_name(index),
        }
    }
}
