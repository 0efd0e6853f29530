//! The limits that the code keeps are those of the definitions.
ghost use Rattle.std.specs.Prelude.{◌≡◌};
ghost use Rattle.dt_cred.specs.Limits.{argument_count, frame_count};

use crate::firing::{ARGS, FRAMES};

/// Law: the limits that the code keeps are the numbers of the definitions (`specs/Limits.antt`).
pub fn limits_agree()
    ensures arguments { ARGS ≡ argument_count }
    ensures frames { FRAMES ≡ frame_count }
{}
