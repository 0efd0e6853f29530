//! The limits that the code keeps are those of the definitions.
ghost use Rattle.std.specs.Prelude.{◌≡◌};
ghost use Rattle.dt_proto.specs.Limits.{line_max};

use crate::limits::LINE_MAX;

/// Law: the limits that the code keeps are the numbers of the definitions (`specs/Limits.antt`).
pub fn limits_agree()
    ensures { LINE_MAX ≡ line_max }
{}
