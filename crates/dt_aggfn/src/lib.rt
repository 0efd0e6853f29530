//! Aggregating functions: `count`, `sum`, `avg`, `min`, `max`, `quantize` and `lquantize`.
//!
//! A cell of 64-bit words holds what a function makes of a bag of values. A cell is its bag: each call says which
//! bag's cell it leaves (`specs/Cells.antt`), and what a cell answers is a function of its bag
//! (`specs/Answers.antt`). Rows are sets of values, each said by a test on the value (`specs/Rows.antt`). To add a
//! value makes the bag one value longer, to merge two cells joins their bags, and the order of a bag's values doesn't
//! matter (`any_order`).
#![tactic(auto)]

mod answer;
mod function;
mod laws;
mod levels;
mod limit_laws;
mod limits;
mod powers;
mod scale;
mod words;

pub use answer::{CellAnswer, CountedRow};
pub use function::AggFn;
pub use laws::{any_order, cell_length, extremes, one_row};
pub use levels::Bounds;
pub use limit_laws::limits_agree;
pub use limits::{BAG_LIMIT, CELL_WORDS_MAX, GREATEST_POWER, LEVELS_MAX, QUANTIZE_ROWS};
