//! The limits that the code keeps are those of the definitions.
ghost use Rattle.std.specs.Prelude.{◌≡◌};
ghost use Rattle.dt_ecb.specs.Limits.{ecbs_max, aggregations_max};

use crate::limits::{AGGREGATIONS_MAX, ECBS_MAX};

/// Law: the limits that the code keeps are the numbers of the definitions (`specs/Limits.antt`).
pub fn limits_agree()
    ensures ecbs { ECBS_MAX ≡ ecbs_max }
    ensures aggregations { AGGREGATIONS_MAX ≡ aggregations_max }
{}
