//! The limits that the code keeps are those of the definitions.
ghost use Rattle.std.specs.Prelude.{◌≡◌};
ghost use Rattle.dt_aggfn.specs.Limits.{levels_max, cell_words_max, greatest_power, quantize_row_count, bag_limit};

use crate::limits::{BAG_LIMIT, CELL_WORDS_MAX, GREATEST_POWER, LEVELS_MAX, QUANTIZE_ROWS};

/// Law: the limits that the code keeps are the numbers of the definitions (`specs/Limits.antt`).
pub fn limits_agree()
    ensures levels { LEVELS_MAX ≡ levels_max }
    ensures words { CELL_WORDS_MAX ≡ cell_words_max }
    ensures power { GREATEST_POWER ≡ greatest_power }
    ensures rows { QUANTIZE_ROWS ≡ quantize_row_count }
    ensures bag { BAG_LIMIT ≡ bag_limit }
{}
