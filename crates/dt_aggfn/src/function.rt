//! The aggregating functions, over cells.
ghost use Rattle.std.specs.Prelude.{◌≡◌, ◌^◌, ◌<◌, ◌≤◌, List, [], ◌∷◌, ◌++◌, length, ℕ, ℤ, pos, int_div, IfOk};

use crate::answer::CellAnswer;
use crate::levels::Bounds;
use crate::limits::{CELL_WORDS_MAX, QUANTIZE_ROWS};
use crate::powers;
use crate::scale::Scale;
use crate::words::{add_words, count_at};
use std::alloc::{AllocError, Global};

/// What an aggregation makes of its values, which are signed 64-bit numbers. Sums wrap at 64 bits. (illumos Dynamic
/// Tracing Guide, "Aggregations".)
#[derive(Clone, Copy, Debug, PartialEq, Eq)]
pub enum AggFn {
    /// How many values there are.
    Count,
    /// Their sum.
    Sum,
    /// Their sum divided by their count, cut toward zero.
    Avg,
    /// The least of them.
    Min,
    /// The greatest of them.
    Max,
    /// How many values lie from each power of two to the next.
    Quantize,
    /// How many values lie in each level.
    Lquantize(Bounds),
}

impl AggFn {
    ghost use Rattle.dt_aggfn.specs.Cells.{cell_words, cell_of, IsBag};
    ghost use Rattle.dt_aggfn.specs.Answers.{answer_of_bag, form_of_answer};

    /// How many words a cell has: at most [`CELL_WORDS_MAX`].
    pub fn cell_words(self) -> usize
        ensures words { result ≡ cell_words self }
        ensures few { result ≤ CELL_WORDS_MAX }
    {
        match self {
            AggFn::Avg => 2,
            AggFn::Quantize => QUANTIZE_ROWS,
            AggFn::Lquantize(bounds) => bounds.levels() + 2,
            _ => 1,
        }
    }

    /// Makes a cell that of one value, whatever its words were. It has [`AggFn::cell_words`] words, as in each call.
    pub fn first(self, cell: &mut [u64], value: i64)
        requires { length cell.old ≡ cell_words self }
        ensures { cell.new ≡ cell_of self (value ∷ []) }
    {
        match self {
            AggFn::Count => cell[0] = 1,
            AggFn::Avg => {
                cell[0] = 1;
                cell[1] = value.cast_unsigned();
            }
            AggFn::Quantize => {
                cell.fill(0);
                count_at(cell, powers::row_of(value));
            }
            AggFn::Lquantize(bounds) => {
                cell.fill(0);
                count_at(cell, bounds.row_of(value));
            }
            _ => cell[0] = value.cast_unsigned(),
        }
    }

    /// Adds a value to the bag of the cell with which words begin. The cell has fewer than [`BAG_LIMIT`] values, and the
    /// words after it stay as they are. So in a pool a cell is found by its place alone, and its words aren't counted.
    pub fn add(self, words: &mut [u64], value: i64)
        requires { cell_words self ≤ length words.old }
        ensures cell { (bag : List ℤ) (rest : List ℕ) → IsBag bag → words.old ≡ cell_of self bag ++ rest
            → words.new ≡ cell_of self (bag ++ value ∷ []) ++ rest }
        ensures len { length words.new ≡ length words.old }
    {
        match self {
            AggFn::Count => count_at(words, 0),
            AggFn::Sum => words[0] = words[0].wrapping_add(value.cast_unsigned()),
            AggFn::Avg => {
                count_at(words, 0);
                words[1] = words[1].wrapping_add(value.cast_unsigned());
            }
            AggFn::Min => words[0] = words[0].cast_signed().min(value).cast_unsigned(),
            AggFn::Max => words[0] = words[0].cast_signed().max(value).cast_unsigned(),
            AggFn::Quantize => count_at(words, powers::row_of(value)),
            AggFn::Lquantize(bounds) => count_at(words, bounds.row_of(value)),
        }
    }

    /// Adds the values of another cell's bag to those of a cell's. Each bag has fewer than [`BAG_LIMIT`] values.
    pub fn merge(self, cell: &mut [u64], other: &[u64])
        requires own { length cell.old ≡ cell_words self }
        requires others { length other.now ≡ cell_words self }
        ensures cell { (bag other_bag : List ℤ) → IsBag bag → IsBag other_bag → cell.old ≡ cell_of self bag
            → other.now ≡ cell_of self other_bag → cell.new ≡ cell_of self (bag ++ other_bag) }
        ensures len { length cell.new ≡ length cell.old }
    {
        match self {
            AggFn::Min => {
                let least = cell[0].cast_signed().min(other[0].cast_signed());
                cell[0] = least.cast_unsigned();
            }
            AggFn::Max => {
                let greatest = cell[0].cast_signed().max(other[0].cast_signed());
                cell[0] = greatest.cast_unsigned();
            }
            _ => add_words(cell, other),
        }
    }

    /// What a cell says of its bag, which has fewer than [`BAG_LIMIT`] values. `Err`: there was no memory for the
    /// rows; a number takes none.
    pub fn answer(self, alloc: Global, cell: &[u64]) -> Result<CellAnswer, AllocError>
        requires { length cell.now ≡ cell_words self }
        ensures { (bag : List ℤ) → IsBag bag → cell.now ≡ cell_of self bag
            → IfOk result (λ answer. form_of_answer answer ≡ answer_of_bag self bag) }
    {
        match self {
            AggFn::Avg => Ok(CellAnswer::Number(average(cell[0], cell[1].cast_signed()))),
            AggFn::Quantize => {
                let counted = Scale::Powers.counted_rows(alloc, cell)?;
                Ok(CellAnswer::Rows(counted))
            }
            AggFn::Lquantize(bounds) => {
                let counted = Scale::Levels(bounds).counted_rows(alloc, cell)?;
                Ok(CellAnswer::Rows(counted))
            }
            _ => Ok(CellAnswer::Number(cell[0].cast_signed())),
        }
    }
}

/// A sum divided by a count, cut toward zero.
fn average(count: u64, sum: i64) -> i64
    ensures { 0 < count → count < 2 ^ 63 → result ≡ int_div sum (pos count) }
{
    // a bag has some values, but words that are no bag's cell may begin with 0
    sum.wrapping_div(count.max(1).cast_signed())
}
