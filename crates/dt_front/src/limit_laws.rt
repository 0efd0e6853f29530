//! The limits that the code keeps are those of the definitions.
ghost use Rattle.std.specs.Prelude.{◌≡◌};
ghost use Rattle.dt_front.specs.Limits.{bar_max, bar_min, beside_bar, label_width, names_max, names_min, beside_names, table_width};

use crate::limits::{
    BAR_MAX, BAR_MIN, BESIDE_BAR, BESIDE_NAMES, LABEL_WIDTH, NAMES_MAX, NAMES_MIN, TABLE_WIDTH,
};

/// Law: the limits that the code keeps are the numbers of the definitions (`specs/Limits.antt`).
pub fn limits_agree()
    ensures longest_bar { BAR_MAX ≡ bar_max }
    ensures least_bar { BAR_MIN ≡ bar_min }
    ensures beside_bar { BESIDE_BAR ≡ beside_bar }
    ensures labels { LABEL_WIDTH ≡ label_width }
    ensures longest_names { NAMES_MAX ≡ names_max }
    ensures least_names { NAMES_MIN ≡ names_min }
    ensures beside_names { BESIDE_NAMES ≡ beside_names }
    ensures table { TABLE_WIDTH ≡ table_width }
{}
