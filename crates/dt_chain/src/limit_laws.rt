//! The limits that the code keeps are those of the definitions.
ghost use Rattle.std.specs.Prelude.{◌≡◌};
ghost use Rattle.dt_chain.specs.Limits.{list_count, seat_count};

use crate::lists::LISTS;
use crate::seat::SEATS;

/// Law: the limits that the code keeps are the numbers of the definitions (`specs/Limits.antt`).
pub fn limits_agree()
    ensures seats { SEATS ≡ seat_count }
    ensures lists { LISTS ≡ list_count }
{}
