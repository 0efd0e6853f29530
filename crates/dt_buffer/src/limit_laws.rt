//! The limits that the code keeps are those of the definitions.
ghost use Rattle.std.specs.Prelude.{◌≡◌};
ghost use Rattle.dt_buffer.specs.Limits.{buffer_size_max, drops_limit};

use crate::limits::{DROPS_LIMIT, SIZE_MAX};

/// Law: the limits that the code keeps are the numbers of the definitions (`specs/Limits.antt`).
pub fn limits_agree()
    ensures size { SIZE_MAX ≡ buffer_size_max }
    ensures drops { DROPS_LIMIT ≡ drops_limit }
{}
