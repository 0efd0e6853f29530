//! The limits that the code keeps are those of the definitions.
ghost use Rattle.std.specs.Prelude.{◌≡◌};
ghost use Rattle.dt_glob.specs.Limits.{pattern_max};

use crate::pattern::PATTERN_MAX;

/// Law: the limits that the code keeps are the numbers of the definitions (`specs/Limits.antt`).
pub fn limits_agree()
    ensures { PATTERN_MAX ≡ pattern_max }
{}
