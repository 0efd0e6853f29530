//! The limits that the code keeps are those of the definitions.
ghost use Rattle.std.specs.Prelude.{◌≡◌};
ghost use Rattle.dt_world.specs.Limits.{reads_max};

use crate::limits::READS_MAX;

/// Law: the limits that the code keeps are the numbers of the definitions (`specs/Limits.antt`).
pub fn limits_agree()
    ensures reads { READS_MAX ≡ reads_max }
{}
